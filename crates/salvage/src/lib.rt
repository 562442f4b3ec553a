// Salvage a damaged capture (document 02, K10): "Tapes come back with dropouts."
#![tactic(auto)]

ghost use Rattle.std.specs.Prelude.{◌≡◌, ◌+◌, ◌*◌, ◌%◌, ◌<◌, ◌≤◌, length};
ghost use Rattle.format.specs.Plan.{group_words};
ghost use Rattle.format.specs.Laws.Limits.{Shape};
ghost use Rattle.salvage_rules.specs.Salvage.{forgoes, salvage_answer, salvaged, Saves};
ghost use Rattle.salvage.specs.Room.{room_number, saved_groups};

use capture_parts::{groups_in, is_whole};
use format::{Kind, Plan};
use log_close::copy;
use plan::{legal, slots};
use salvage_groups::{Tally, salvage_groups};
use salvage_rules::Salvaged;

fn forgo(number: u32, place: usize) -> Salvaged
    ensures { result ≡ salvage_answer (forgoes number place) }
{
    Salvaged {
        number: number,
        place: place as u64,
        second: 0,
        bytes: 0,
        times: 0,
        entries: 0,
    }
}

// "then 6, 7, then 20 for too little report room": the number of the refusal for want of room, 0 for none.
fn room_number(tally: Tally, log_room: usize, time_room: usize, report_room: usize) -> u32
    ensures { result ≡ room_number tally log_room time_room report_room }
{
    if 32768 < tally.bytes {
        return 6;
    }
    if log_room < tally.bytes {
        return 6;
    }
    if time_room < tally.times {
        return 7;
    }
    if report_room < tally.entries {
        return 20;
    }
    0
}

// By way of an array that has room for every log that is not refused. The groups are salvaged twice: all rooms are judged before
// anything is written to what is lent, and a report has no array of ours that it surely fits.
fn salvage_in(
    plan: Plan,
    kinds: [Kind; 16],
    capture: &[u8],
    built: &mut [u8],
    log: &mut [u8],
    times: &mut [u64],
    report: &mut [u64],
) -> Salvaged
    requires shape { Shape plan × (length capture.now ≤ 1048576) × (length capture.now % (3 * group_words plan) ≡ 0) }
    requires log_in_bounds { length built.old < 32776 → length log.old + 8 ≤ length built.old }
    ensures { Saves (saved_groups plan kinds capture.now (length log.old) (length times.old) (length report.old)) result log.old log.new times.old times.new report.old report.new }
{
    let groups = groups_in(plan, capture.len());
    let count = slots(plan);
    let mut no_times = [0u64; 1];
    let mut no_report = [0u64; 1];
    let tally = salvage_groups(
        kinds,
        plan,
        count,
        capture,
        groups,
        built,
        &mut no_times[..0],
        &mut no_report[..0],
    );
    let bytes = tally.bytes;
    let kept = tally.times;
    let entries = tally.entries;
    let number = room_number(tally, log.len(), times.len(), report.len());
    if number == 6 {
        return forgo(6, bytes);
    }
    if number == 7 {
        return forgo(7, kept);
    }
    if number == 20 {
        return forgo(20, entries);
    }
    copy(log, built, bytes);
    let mut no_log = [0u8; 1];
    let _ = salvage_groups(
        kinds,
        plan,
        count,
        capture,
        groups,
        &mut no_log[..0],
        times,
        report,
    );
    Salvaged {
        number: 0,
        place: 0,
        second: 0,
        bytes: bytes as u64,
        times: kept as u64,
        entries: entries as u64,
    }
}

// No large array is cleared for a small room.
fn salvage_sized(
    plan: Plan,
    kinds: [Kind; 16],
    capture: &[u8],
    log: &mut [u8],
    times: &mut [u64],
    report: &mut [u64],
) -> Salvaged
    requires { Shape plan × (length capture.now ≤ 1048576) × (length capture.now % (3 * group_words plan) ≡ 0) }
    ensures { Saves (saved_groups plan kinds capture.now (length log.old) (length times.old) (length report.old)) result log.old log.new times.old times.new report.old report.new }
{
    if log.len() <= 2048 {
        let mut built = [0u8; 2056];
        return salvage_in(plan, kinds, capture, &mut built, log, times, report);
    }
    let mut built = [0u8; 32776];
    salvage_in(plan, kinds, capture, &mut built, log, times, report)
}

// "Refusals: 1, 8, then 6, 7, then 20".
pub fn salvage(
    plan: Plan,
    kinds: [Kind; 16],
    capture: &[u8],
    log: &mut [u8],
    times: &mut [u64],
    report: &mut [u64],
) -> Salvaged
    ensures { Saves (salvaged plan kinds capture.now (length log.old) (length times.old) (length report.old)) result log.old log.new times.old times.new report.old report.new }
{
    let length = capture.len();
    if !legal(plan, kinds) {
        return forgo(1, 0);
    }
    if 1048576 < length {
        return forgo(8, length);
    }
    if !is_whole(plan, length) {
        return forgo(8, length);
    }
    salvage_sized(plan, kinds, capture, log, times, report)
}
