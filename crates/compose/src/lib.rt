// Composing (document 01, "Groups" and "Answers by number"): from a log and its frame times to the bytes of the groups.
#![tactic(auto)]

ghost use Rattle.std.specs.Prelude.{true, ◌≡◌, ℕ, min, ◌+◌, ◌*◌, ◌<◌, ◌≤◌, get_or, length};
ghost use Rattle.format.specs.Answer.{Made, over, refusal};
ghost use Rattle.format.specs.Compose.{capture_of, compose_words, composed, first_late, groups_for};
ghost use Rattle.format.specs.Plan.{group_words, legal, times_needed};
ghost use Rattle.format.specs.Time.{time_end};
ghost use Rattle.format.specs.Laws.Limits.{Shape, most_dealt};
ghost use Rattle.group_write.specs.Writing.{Unsent};
ghost use Rattle.compose.specs.Laid.{compose_laid};

use format::{Answer, Kind, Plan};
use group_write::write_group;
use log_bits::bits_before;
use log_read::Tally;
use log_words::lay;
use notices::first_open;
use plan::{group_words, groups_for, legal, slots};

// The index of the first frame time that is too late, or how many there are.
fn first_late(times: &[u64]) -> usize
    ensures { result ≡ first_late 0 times.now }
{
    let mut index = 0;
    while index < times.len() {
        if 42949672960000 <= times[index] {
            return index;
        }
        index += 1;
    }
    index
}

// The frame time of a group; 0 where frame time is off and none is lent.
fn time_of(times: &[u64], group: usize) -> u64
    ensures { result ≡ get_or times.now group 0 }
{
    if group < times.len() { times[group] } else { 0 }
}

// Where a group's words end: with its share, or with the last of all.
fn share_end(from: usize, share: usize, words: usize) -> usize
    requires { (from ≤ 15420) × (share ≤ most_dealt) }
    ensures { result ≡ min (from + share) words }
{
    let end = from + share;
    if end < words { end } else { words }
}

// Every group, each in its own part of the output.
fn write_groups(plan: Plan, words: &[u32], times: &[u64], groups: usize, out: &mut [u8])
    requires shape { Shape plan × (length words.now ≤ 15420) × Unsent plan words.now × ((g : ℕ) → get_or times.now g 0 < time_end) }
    requires groups_value { (groups ≡ groups_for plan (length words.now)) × (groups * (3 * group_words plan) ≤ length out.old) }
    ensures { out.new ≡ over (capture_of plan times.now words.now) out.old }
{
    let share = slots(plan);
    let size = 3 * group_words(plan);
    let mut group = 0;
    while group < groups {
        let start = group * size;
        let end = start + size;
        let from = group * share;
        let to = share_end(from, share, words.len());
        let time = time_of(times, group);
        write_group(&mut out[start..end], plan, time, &words[from..to]);
        group += 1;
    }
}

// How many frame times are needed: "one 64-bit number a group, none if frame time is off".
fn times_needed(plan: Plan, groups: usize) -> usize
    ensures { result ≡ times_needed plan groups }
{
    if plan.frame_time {
        return groups;
    }
    0
}

fn refusal(number: u32, place: usize) -> Answer
    ensures { result ≡ refusal number place 0 }
{
    Answer {
        number,
        place: place as u64,
        second: 0,
        bytes: 0,
        times: 0,
    }
}

// Of a log's words: "then 5, number before size; then 6". Nothing is written before the last refusal.
fn compose_words(plan: Plan, words: &[u32], times: &[u64], out: &mut [u8]) -> Answer
    requires { Shape plan × (length words.now ≤ 15420) × Unsent plan words.now }
    ensures { Made (compose_words plan times.now (length out.old) words.now) result out.old out.new }
{
    let groups = groups_for(plan, words.len());
    let needed = times_needed(plan, groups);
    if times.len() != needed {
        return refusal(5, needed);
    }
    let late = first_late(times);
    if late != times.len() {
        return refusal(5, late);
    }
    let bytes = groups * (3 * group_words(plan));
    if out.len() < bytes {
        return refusal(6, bytes);
    }
    write_groups(plan, words, times, groups, out);
    Answer {
        number: 0,
        place: 0,
        second: 0,
        bytes: bytes as u64,
        times: 0,
    }
}

// Of a log's words, laid: an open notice is 15 at its first bit, "before 5" (K2); then as above.
fn compose_laid(
    plan: Plan,
    kinds: [Kind; 16],
    words: &[u32],
    times: &[u64],
    out: &mut [u8],
) -> Answer
    requires { Shape plan × (length words.now ≤ 15420) × Unsent plan words.now }
    ensures { Made (compose_laid plan kinds times.now (length out.old) words.now) result out.old out.new }
{
    let open = first_open(kinds, false, words);
    if open != 0 {
        let before = (open - 1) as usize;
        return refusal(15, bits_before(kinds, &words[..before]));
    }
    compose_words(plan, words, times, out)
}

// "the items in order, each for 2, 3, 4", then as above. The row has room for the words of any log of this length.
fn compose_in(
    plan: Plan,
    kinds: [Kind; 16],
    log: &[u8],
    times: &[u64],
    out: &mut [u8],
    row: &mut [u32],
) -> Answer
    requires { (legal plan kinds ≡ true) × (length log.now ≤ 32768) × (length log.now * 8 + 85 ≤ 17 * length row.old) }
    ensures { Made (composed plan kinds log.now times.now (length out.old)) result out.old out.new }
{
    match lay(kinds, log, row) {
        Tally::Items { items: _, words } => compose_laid(plan, kinds, &row[..words], times, out),
        Tally::Fault { number, place } => refusal(number, place),
    }
}

// No long row is cleared for a short log.
fn compose_tiny(plan: Plan, kinds: [Kind; 16], log: &[u8], times: &[u64], out: &mut [u8]) -> Answer
    requires { (legal plan kinds ≡ true) × (length log.now ≤ 40) }
    ensures { Made (composed plan kinds log.now times.now (length out.old)) result out.old out.new }
{
    let mut row = [0u32; 24];
    compose_in(plan, kinds, log, times, out, &mut row)
}

fn compose_small(plan: Plan, kinds: [Kind; 16], log: &[u8], times: &[u64], out: &mut [u8]) -> Answer
    requires { (legal plan kinds ≡ true) × (length log.now ≤ 512) }
    ensures { Made (composed plan kinds log.now times.now (length out.old)) result out.old out.new }
{
    let mut row = [0u32; 256];
    compose_in(plan, kinds, log, times, out, &mut row)
}

fn compose_middle(
    plan: Plan,
    kinds: [Kind; 16],
    log: &[u8],
    times: &[u64],
    out: &mut [u8],
) -> Answer
    requires { (legal plan kinds ≡ true) × (length log.now ≤ 4096) }
    ensures { Made (composed plan kinds log.now times.now (length out.old)) result out.old out.new }
{
    let mut row = [0u32; 2048];
    compose_in(plan, kinds, log, times, out, &mut row)
}

fn compose_large(plan: Plan, kinds: [Kind; 16], log: &[u8], times: &[u64], out: &mut [u8]) -> Answer
    requires { (legal plan kinds ≡ true) × (length log.now ≤ 32768) }
    ensures { Made (composed plan kinds log.now times.now (length out.old)) result out.old out.new }
{
    let mut row = [0u32; 15426];
    compose_in(plan, kinds, log, times, out, &mut row)
}

// "Composing checks 1; the log's length; the items in order", then as above.
pub fn compose(plan: Plan, kinds: [Kind; 16], log: &[u8], times: &[u64], out: &mut [u8]) -> Answer
    ensures { Made (composed plan kinds log.now times.now (length out.old)) result out.old out.new }
{
    if legal(plan, kinds) {
        if log.len() <= 40 {
            return compose_tiny(plan, kinds, log, times, out);
        }
        if log.len() <= 512 {
            return compose_small(plan, kinds, log, times, out);
        }
        if log.len() <= 4096 {
            return compose_middle(plan, kinds, log, times, out);
        }
        if log.len() <= 32768 {
            return compose_large(plan, kinds, log, times, out);
        }
        return refusal(2, 0);
    }
    refusal(1, 0)
}
