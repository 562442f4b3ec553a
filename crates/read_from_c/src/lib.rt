// Both readings from what C hands over (document 01, "Programs"): the numbers that name a plan, kinds and times as bytes.
#![tactic(auto)]

ghost use Rattle.std.specs.Prelude.{◌≡◌, cond, ◌/◌, ◌<◌, ◌≤◌, leb, length};
ghost use Rattle.format.specs.Answer.{Given};
ghost use Rattle.format.specs.Read.{reading};
ghost use Rattle.format.specs.Laws.Limits.{least_group_bytes};
ghost use Rattle.read_from_c.specs.Reading.{GivenBytes, reading_from};

use format::{Answer, Kind, Plan};
use from_c::{kinds_from, named, plan_from, put_times, unnamed};
use read::{read, read_closed};

fn read_either(
    closed: bool,
    plan: Plan,
    kinds: [Kind; 16],
    capture: &[u8],
    log: &mut [u8],
    times: &mut [u64],
) -> Answer
    ensures { Given (reading closed plan kinds capture.now (length log.old) (length times.old)) result log.old log.new times.old times.new }
{
    if closed {
        return read_closed(plan, kinds, capture, log, times);
    }
    read(plan, kinds, capture, log, times)
}

pub fn least(a: usize, b: usize) -> usize
    ensures { result ≡ cond (leb a b) a b }
{
    if a <= b {
        return a;
    }
    b
}

// By way of a row that has an entry for every time that there is room for, or that a capture can have.
fn read_by(
    closed: bool,
    plan: Plan,
    kinds: [Kind; 16],
    capture: &[u8],
    log: &mut [u8],
    times: &mut [u8],
    row: &mut [u64],
) -> Answer
    requires { length row.old < length times.old / 8 → length capture.now ≤ 1048576 → length capture.now / least_group_bytes ≤ length row.old }
    ensures { GivenBytes (reading closed plan kinds capture.now (length log.old) (length times.old / 8)) result log.old log.new times.old times.new }
{
    let entries = least(times.len() / 8, row.len());
    let answer = read_either(closed, plan, kinds, capture, log, &mut row[..entries]);
    put_times(row, answer.times as usize, times);
    answer
}

// No large row is cleared for a small room, or for a small capture: a group has at least 384 bytes, a capture at most 2,730 groups.
fn read_bytes(
    closed: bool,
    plan: Plan,
    kinds: [Kind; 16],
    capture: &[u8],
    log: &mut [u8],
    times: &mut [u8],
) -> Answer
    ensures { GivenBytes (reading closed plan kinds capture.now (length log.old) (length times.old / 8)) result log.old log.new times.old times.new }
{
    if times.len() < 520 {
        let mut row = [0u64; 64];
        return read_by(closed, plan, kinds, capture, log, times, &mut row);
    }
    if capture.len() < 24960 {
        let mut row = [0u64; 64];
        return read_by(closed, plan, kinds, capture, log, times, &mut row);
    }
    let mut row = [0u64; 2730];
    read_by(closed, plan, kinds, capture, log, times, &mut row)
}

// One body for both readings.
pub fn read_from(
    closed: bool,
    words: u32,
    tracks: u32,
    frame_time: u32,
    crc: u32,
    parity: u32,
    crc_label: u32,
    fill_bus: u32,
    kinds: &[u8],
    capture: &[u8],
    log: &mut [u8],
    times: &mut [u8],
) -> Answer
    ensures { GivenBytes (reading_from closed words tracks frame_time crc parity crc_label fill_bus kinds.now capture.now (length log.old) (length times.old))
        result log.old log.new times.old times.new }
{
    if named(frame_time, crc, parity, kinds) {
        let plan = plan_from(words, tracks, frame_time, crc, parity, crc_label, fill_bus);
        return read_bytes(closed, plan, kinds_from(kinds), capture, log, times);
    }
    unnamed()
}
