// The salvage of a capture's groups (document 02, K10), and how much it brings: "Salvage drops each group with a fault 9 to 12 and reads
// the rest for items."
#![tactic(auto)]

ghost use Rattle.std.specs.Prelude.{◌≡◌, ◌+◌, ◌*◌, ◌<◌, ◌≤◌, ◌^◌, length};
ghost use Rattle.format.specs.Group.{group_time};
ghost use Rattle.format.specs.Plan.{group_words, slots};
ghost use Rattle.format.specs.Laws.Limits.{Shape};
ghost use Rattle.group_read.specs.Row.{dealt_count};
ghost use Rattle.salvage_run.specs.Tape.{Sound};
ghost use Rattle.salvage_groups.specs.Reel.{Moves, kept_count, kept_row, on_group, over_groups, reel, start_walk};
ghost use Rattle.salvage_groups.specs.Tally.{Tallied};

use format::{Kind, Plan};
use salvage_run::{Pass, drop_group, let_go, on_row, put_at, start_pass};

// What is carried from group to group: what is carried over words, and how many frame times there are.
#[derive(Clone, Copy)]
struct Walk {
    pass: Pass,
    times: usize,
}

// How many bytes of log, frame times and report entries there are.
#[derive(Clone, Copy)]
pub struct Tally {
    pub bytes: usize,
    pub times: usize,
    pub entries: usize,
}

fn start_walk() -> Walk
    ensures { result ≡ start_walk }
{
    Walk {
        pass: start_pass(),
        times: 0,
    }
}

// "The time row has the kept groups only."
fn keep_time(group: &[u8], plan: Plan, at: usize, times: &mut [u64]) -> usize
    requires { Shape plan × (length group.now ≡ 3 * group_words plan) × (at < 2 ^ 32) }
    ensures { (result ≡ kept_count plan at) × (times.new ≡ kept_row plan (group_time plan group.now 0) at times.old) }
{
    if plan.frame_time {
        put_at(times, at, group_read::group_time(group, plan));
        return at + 1;
    }
    at
}

// A group is dropped, or its words are salvaged and its time is kept; the row is work room.
fn on_group(
    walk: Walk,
    kinds: [Kind; 16],
    plan: Plan,
    count: usize,
    capture: &[u8],
    index: usize,
    row: &mut [u32],
    out: &mut [u8],
    times: &mut [u64],
    report: &mut [u64],
) -> Walk
    requires shape { Shape plan × (count ≡ slots plan) × (dealt_count plan ≤ length row.old) × Moves plan index walk }
    requires plan_in_bounds { (index * (3 * group_words plan) + 3 * group_words plan ≤ length capture.now) × (length capture.now ≤ 1048576) }
    ensures report_after { reel result out.new times.new report.new ≡ on_group kinds plan capture.now index (reel walk out.old times.old report.old) }
    ensures moves { Moves plan (index + 1) result }
{
    let size = 3 * (plan.tracks * plan.words);
    let begin = index * size;
    let end = begin + size;
    let known = walk.times;
    let fault = group_read::deal(&capture[begin..end], plan, row);
    if fault.number != 0 {
        let pass = drop_group(walk.pass, plan, count, fault.number, index, report);
        return Walk {
            pass: pass,
            times: known,
        };
    }
    let first = group_read::lead(plan);
    let behind = first + count;
    let from = (index * count) as u64;
    let pass = on_row(
        walk.pass,
        kinds,
        plan,
        count,
        &row[first..behind],
        from,
        out,
        report,
    );
    let kept = keep_time(&capture[begin..end], plan, known, times);
    Walk {
        pass: pass,
        times: kept,
    }
}

// The groups, one after the other.
fn over_groups(
    kinds: [Kind; 16],
    plan: Plan,
    count: usize,
    capture: &[u8],
    groups: usize,
    row: &mut [u32],
    out: &mut [u8],
    times: &mut [u64],
    report: &mut [u64],
) -> Walk
    requires shape { Shape plan × (count ≡ slots plan) × (0 < groups → dealt_count plan ≤ length row.old) }
    requires capture_len { (length capture.now ≡ groups * (3 * group_words plan)) × (length capture.now ≤ 1048576) }
    ensures report_after { reel result out.new times.new report.new ≡ over_groups kinds plan capture.now groups 0 (reel start_walk out.old times.old report.old) }
    ensures moves { Moves plan groups result }
{
    let mut walk = start_walk();
    let mut index: usize = 0;
    while index < groups {
        walk = on_group(
            walk, kinds, plan, count, capture, index, row, out, times, report,
        );
        index += 1;
    }
    walk
}

// "An item left unfinished at the end is dropped." Then the log is closed.
fn through_row(
    kinds: [Kind; 16],
    plan: Plan,
    count: usize,
    capture: &[u8],
    groups: usize,
    row: &mut [u32],
    out: &mut [u8],
    times: &mut [u64],
    report: &mut [u64],
) -> Tally
    requires shape { Shape plan × (count ≡ slots plan) × (0 < groups → dealt_count plan ≤ length row.old) }
    requires capture_len { (length capture.now ≡ groups * (3 * group_words plan)) × (length capture.now ≤ 1048576) }
    ensures { Tallied kinds plan capture.now groups result out.new times.old times.new report.old report.new }
{
    let walk = over_groups(kinds, plan, count, capture, groups, row, out, times, report);
    let kept = walk.times;
    let pass = let_go(walk.pass, plan, count, out, report);
    let pen = pass.pen;
    let entries = pass.entries;
    let bytes = pen.close(out);
    Tally {
        bytes: bytes,
        times: kept,
        entries: entries,
    }
}

// The groups of a capture: the log is in `out` if it has room for it, the frame times and the report in their rows as far as they have
// room. No large row is cleared for a small capture.
pub fn salvage_groups(
    kinds: [Kind; 16],
    plan: Plan,
    count: usize,
    capture: &[u8],
    groups: usize,
    out: &mut [u8],
    times: &mut [u64],
    report: &mut [u64],
) -> Tally
    requires shape { Shape plan × (count ≡ slots plan) }
    requires capture_len { (length capture.now ≡ groups * (3 * group_words plan)) × (length capture.now ≤ 1048576) }
    ensures { Tallied kinds plan capture.now groups result out.new times.old times.new report.old report.new }
{
    if capture.len() <= 1884 {
        let mut row = [0u32; 628];
        return through_row(
            kinds, plan, count, capture, groups, &mut row, out, times, report,
        );
    }
    let mut row = [0u32; 2048];
    through_row(
        kinds, plan, count, capture, groups, &mut row, out, times, report,
    )
}
