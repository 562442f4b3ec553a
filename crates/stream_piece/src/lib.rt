// The groups of a piece of a capture as it arrives (document 02, K4), taken one after the other: the log and the frame times of each
// group that is taken go behind what is written.
#![tactic(auto)]

ghost use Rattle.std.specs.Prelude.{◌≡◌, cond, [], ◌∷◌, ◌+◌, ◌*◌, ◌/◌, ◌^◌, ◌≤◌, ◌<◌, length, take, drop};
ghost use Rattle.format.specs.Group.{group_time};
ghost use Rattle.format.specs.Plan.{group_words, times_needed};
ghost use Rattle.format.specs.Laws.Limits.{Shape};
ghost use Rattle.stream_rules.specs.Stream.{feed_bytes, group_size, most_bytes, working};
ghost use Rattle.stream_rules.specs.Laws.Stream.Feed.{count_in};
ghost use Rattle.stream_piece.specs.Along.{Goes, Ready, Rooms, Takes, gone_on, laid, reached, stopped_by, work_of};

use data_word::Holding;
use format::{Kind, Plan};
use log_close::copy;
use log_write::Pen;
use plan::group_words;
use stream_group::{Took, take_group};

// Where a feeding stands between two groups: the fault's number and places if it met one, else number 0; the bits not yet a byte, the
// groups read, the place of the held item's first word and what is held; how many bytes and times are written.
#[derive(Clone, Copy)]
pub struct Along {
    pub number: u32,
    pub place: u64,
    pub second: u64,
    pub pen: Pen,
    pub groups: u64,
    pub since: u64,
    pub held: Holding,
    pub bytes: usize,
    pub times: usize,
}

// ---- One group

// One time a group, where the plan has frame time; how many there are then.
fn put_time(plan: Plan, group: &[u8], at: usize, times: &mut [u64]) -> usize
    requires { Shape plan × (length group.now ≡ 3 * group_words plan) × (at + times_needed plan 1 ≤ length times.old) }
    ensures { (result ≡ at + times_needed plan 1) × (times.new ≡ laid at (cond plan.frame_time (group_time plan group.now 0 ∷ []) []) times.old) }
{
    if plan.frame_time {
        times[at] = group_read::group_time(group, plan);
        return at + 1;
    }
    at
}

// A group is refused: what came before it stays, and nothing of it is handed out.
fn stopped(along: Along, took: Took) -> Along
    ensures { result ≡ stopped_by along took }
{
    let pen = along.pen;
    let held = along.held;
    Along {
        number: took.number,
        place: took.place,
        second: took.second,
        pen: pen,
        groups: along.groups,
        since: along.since,
        held: held,
        bytes: along.bytes,
        times: along.times,
    }
}

// A group is taken: its whole bytes and its time go behind what is written, and its last bits wait for the next group's.
fn put_group(
    plan: Plan,
    group: &[u8],
    along: Along,
    took: Took,
    out: &[u8],
    log: &mut [u8],
    times: &mut [u64],
) -> Along
    requires shape { Shape plan × (length group.now ≡ 3 * group_words plan) × (along.groups < 2 ^ 41) × (took.pen.bits / 8 ≤ length out.now) }
    requires bits_in_bounds { (along.bytes + took.pen.bits / 8 ≤ length log.old) × (along.times + times_needed plan 1 ≤ length times.old) }
    ensures { (result ≡ gone_on plan along took) × (log.new ≡ laid along.bytes (take (took.pen.bits / 8) out.now) log.old) × (times.new ≡ laid along.times (cond plan.frame_time (group_time plan group.now 0 ∷ []) []) times.old) }
{
    let at = along.bytes;
    let more = took.pen.bits / 8;
    let end = at + more;
    copy(&mut log[at..end], out, more);
    let entries = put_time(plan, group, along.times, times);
    let held = took.held;
    Along {
        number: 0,
        place: 0,
        second: 0,
        pen: Pen {
            bits: took.pen.bits % 8,
            last: took.pen.last,
        },
        groups: along.groups + 1,
        since: took.since,
        held: held,
        bytes: end,
        times: entries,
    }
}

// The group is taken whole or not at all. Its log is built in `out`, behind the bits not yet a byte.
pub fn on_group(
    kinds: [Kind; 16],
    plan: Plan,
    count: usize,
    group: &[u8],
    along: Along,
    table: &mut [u64],
    row: &mut [u32],
    out: &mut [u8],
    log: &mut [u8],
    times: &mut [u64],
) -> Along
    requires ready { Ready plan kinds along table.old × (along.number ≡ 0) × Rooms plan count row.old out.old × (length group.now ≡ group_size plan) × ((along.groups + 1) * group_size plan ≤ most_bytes) }
    requires takes { Takes (feed_bytes (working (work_of plan kinds along table.old)) group.now) along log.old times.old }
    ensures { Goes plan kinds (feed_bytes (working (work_of plan kinds along table.old)) group.now) along result table.new log.old log.new times.old times.new }
{
    let took = take_group(
        kinds,
        plan,
        count,
        group,
        along.groups,
        along.held,
        along.since,
        along.pen,
        table,
        row,
        out,
    );
    if took.number != 0 {
        return stopped(along, took);
    }
    put_group(plan, group, along, took, out, log, times)
}

// ---- The groups of a piece

// So many groups straight from the piece, from `first` on, as far as there is no fault.
pub fn on_piece(
    kinds: [Kind; 16],
    plan: Plan,
    count: usize,
    piece: &[u8],
    first: usize,
    groups: usize,
    start: Along,
    table: &mut [u64],
    row: &mut [u32],
    out: &mut [u8],
    log: &mut [u8],
    times: &mut [u64],
) -> Along
    requires shape { Shape plan × Ready plan kinds start table.old × Rooms plan count row.old out.old × (first + groups * group_size plan ≤ length piece.now) × (length piece.now ≤ 4096) }
    requires plan_bound { (count_in (reached plan kinds start table.old) + groups * group_size plan ≤ most_bytes) × Takes (feed_bytes (reached plan kinds start table.old) (take (groups * group_size plan) (drop first piece.now))) start log.old times.old }
    ensures { Goes plan kinds (feed_bytes (reached plan kinds start table.old) (take (groups * group_size plan) (drop first piece.now))) start result table.new log.old log.new times.old times.new }
{
    let size = 3 * group_words(plan);
    let mut along = start;
    let mut index: usize = 0;
    while index < groups {
        if along.number != 0 {
            return along;
        }
        let begin = first + index * size;
        let end = begin + size;
        along = on_group(
            kinds,
            plan,
            count,
            &piece[begin..end],
            along,
            table,
            row,
            out,
            log,
            times,
        );
        index += 1;
    }
    along
}
