// A salvage from what C hands over (document 02, K10): the numbers that name a plan, kinds and times as bytes, the report as numbers.
#![tactic(auto)]

ghost use Rattle.std.specs.Prelude.{◌/◌, ◌<◌, ◌≤◌, length};
ghost use Rattle.format.specs.Laws.Limits.{least_group_bytes};
ghost use Rattle.salvage_rules.specs.Salvage.{salvaged};
ghost use Rattle.salvage_from_c.specs.Salvaging.{SavesBytes, salvaged_from};

use format::{Kind, Plan};
use from_c::{kinds_from, named, plan_from, put_times};
use read_from_c::least;
use salvage::salvage;
use salvage_rules::Salvaged;

// By way of a row that has an entry for every time that there is room for, or that a capture can have.
fn salvage_by(
    plan: Plan,
    kinds: [Kind; 16],
    capture: &[u8],
    log: &mut [u8],
    times: &mut [u8],
    report: &mut [u64],
    row: &mut [u64],
) -> Salvaged
    requires { length row.old < length times.old / 8 → length capture.now ≤ 1048576 → length capture.now / least_group_bytes ≤ length row.old }
    ensures { SavesBytes (salvaged plan kinds capture.now (length log.old) (length times.old / 8) (length report.old))
        result log.old log.new times.old times.new report.old report.new }
{
    let entries = least(times.len() / 8, row.len());
    let answer = salvage(plan, kinds, capture, log, &mut row[..entries], report);
    put_times(row, answer.times as usize, times);
    answer
}

// No large row is cleared for a small room, or for a small capture, as in the readings.
fn salvage_bytes(
    plan: Plan,
    kinds: [Kind; 16],
    capture: &[u8],
    log: &mut [u8],
    times: &mut [u8],
    report: &mut [u64],
) -> Salvaged
    ensures { SavesBytes (salvaged plan kinds capture.now (length log.old) (length times.old / 8) (length report.old))
        result log.old log.new times.old times.new report.old report.new }
{
    if times.len() < 520 {
        let mut row = [0u64; 64];
        return salvage_by(plan, kinds, capture, log, times, report, &mut row);
    }
    if capture.len() < 24960 {
        let mut row = [0u64; 64];
        return salvage_by(plan, kinds, capture, log, times, report, &mut row);
    }
    let mut row = [0u64; 2730];
    salvage_by(plan, kinds, capture, log, times, report, &mut row)
}

// "A plan number that names no choice or kind is 1."
pub fn salvage_from(
    words: u32,
    tracks: u32,
    frame_time: u32,
    crc: u32,
    parity: u32,
    crc_label: u32,
    fill_bus: u32,
    kinds: &[u8],
    capture: &[u8],
    log: &mut [u8],
    times: &mut [u8],
    report: &mut [u64],
) -> Salvaged
    ensures { SavesBytes (salvaged_from words tracks frame_time crc parity crc_label fill_bus kinds.now capture.now (length log.old) (length times.old) (length report.old))
        result log.old log.new times.old times.new report.old report.new }
{
    if named(frame_time, crc, parity, kinds) {
        let plan = plan_from(words, tracks, frame_time, crc, parity, crc_label, fill_bus);
        return salvage_bytes(plan, kinds_from(kinds), capture, log, times, report);
    }
    Salvaged {
        number: 1,
        place: 0,
        second: 0,
        bytes: 0,
        times: 0,
        entries: 0,
    }
}
