// A reading's walk over the groups of a capture (document 01, "Groups" and "Answers by number"): the log of their items, the
// earliest open notice and the earliest misplaced fill, or the first refusal from 9 to 13.
#![tactic(auto)]

ghost use Rattle.std.specs.Prelude.{◌≡◌, ◌*◌, ◌≤◌, ◌<◌, ◌^◌, length};
ghost use Rattle.format.specs.Plan.{group_words, slots, stored_at};
ghost use Rattle.format.specs.Laws.Limits.{Shape};
ghost use Rattle.group_read.specs.Row.{dealt_count};
ghost use Rattle.read_groups.specs.End.{Ended};
ghost use Rattle.read_groups.specs.Groups.{broken_at, Walked};

use capture_parts::stored_place;
use data_put::put_step;
use data_run::{Pass, on_row, start_pass};
use format::{Kind, Plan};
use notices::{Noted, at_end, has_arinc};

// A reading over the groups: number 0, what is carried then and the earliest open notice, or the number and both places of what it
// stops at.
#[derive(Clone, Copy)]
struct Walk {
    pass: Pass,
    number: u32,
    place: u64,
    second: u64,
    notice: u64,
}

// What the groups bring: a refusal's number and both places, or number 0, the length of the log, and the earliest open notice and the
// earliest misplaced fill, each told by its number among the data words, one up.
#[derive(Clone, Copy)]
pub struct Outcome {
    pub number: u32,
    pub place: u64,
    pub second: u64,
    pub bytes: usize,
    pub notice: u64,
    pub misplaced: u64,
}

// A bad word, by its number one up, and the first word of the item that it broke, by its number.
fn broken(plan: Plan, count: usize, start: Pass, bad: u64, first: u64) -> Walk
    requires { Shape plan × (count ≡ slots plan) × (1 ≤ bad) × (bad < 2 ^ 32) × (first < 2 ^ 32) }
    ensures { result ≡ broken_at plan start bad first }
{
    let place = stored_place(plan, count, bad - 1);
    let second = stored_place(plan, count, first);
    Walk {
        pass: start,
        number: 13,
        place: place,
        second: second,
        notice: 0,
    }
}

// "group by group": its faults as stored and of its time words, and then its data words, as they are dealt into the row.
fn over_groups(
    kinds: [Kind; 16],
    plan: Plan,
    count: usize,
    capture: &[u8],
    groups: usize,
    row: &mut [u32],
    out: &mut [u8],
) -> Walk
    requires shape { Shape plan × (count ≡ slots plan) × (0 < groups → dealt_count plan ≤ length row.old) }
    requires capture_len { (length capture.now ≡ groups * (3 * group_words plan)) × (length capture.now ≤ 1048576) }
    ensures { Walked kinds plan capture.now groups out.old result out.new }
{
    let size = plan.tracks * plan.words;
    let first = group_read::lead(plan);
    let behind = first + count;
    let start = start_pass();
    let arinc = has_arinc(kinds);
    let mut table = [0u64; 64];
    let mut noted = Noted {
        found: 0,
        clear: true,
    };
    let mut pass = start;
    let mut g: usize = 0;
    let mut from: u64 = 0;
    while g < groups {
        let begin = g * (3 * size);
        let end = begin + 3 * size;
        let fault = group_read::deal(&capture[begin..end], plan, row);
        if fault.number != 0 {
            let place = g * size + fault.place;
            return Walk {
                pass: start,
                number: fault.number,
                place: place as u64,
                second: 0,
                notice: 0,
            };
        }
        pass = on_row(
            pass,
            kinds,
            plan.parity,
            plan.fill_bus,
            &row[first..behind],
            from,
            out,
        );
        if pass.bad != 0 {
            return broken(plan, count, start, pass.bad, pass.since);
        }
        noted = notices::note_row(
            arinc,
            kinds,
            plan.parity,
            &row[first..behind],
            from,
            &mut table,
            noted,
        );
        from += count as u64;
        g += 1;
    }
    let notice = at_end(noted.clear, &table, noted.found);
    Walk {
        pass: pass,
        number: 0,
        place: 0,
        second: 0,
        notice: notice,
    }
}

// No large row is cleared for a small capture.
fn walk_groups(
    kinds: [Kind; 16],
    plan: Plan,
    count: usize,
    capture: &[u8],
    groups: usize,
    out: &mut [u8],
) -> Walk
    requires shape { Shape plan × (count ≡ slots plan) }
    requires capture_len { (length capture.now ≡ groups * (3 * group_words plan)) × (length capture.now ≤ 1048576) }
    ensures { Walked kinds plan capture.now groups out.old result out.new }
{
    if capture.len() <= 768 {
        let mut row = [0u32; 256];
        return over_groups(kinds, plan, count, capture, groups, &mut row, out);
    }
    if capture.len() <= 1884 {
        let mut row = [0u32; 628];
        return over_groups(kinds, plan, count, capture, groups, &mut row, out);
    }
    let mut row = [0u32; 2048];
    over_groups(kinds, plan, count, capture, groups, &mut row, out)
}

// The groups, then the cut item.
pub fn read_groups(
    kinds: [Kind; 16],
    plan: Plan,
    count: usize,
    capture: &[u8],
    groups: usize,
    out: &mut [u8],
) -> Outcome
    requires shape { Shape plan × (count ≡ slots plan) }
    requires capture_len { (length capture.now ≡ groups * (3 * group_words plan)) × (length capture.now ≤ 1048576) }
    ensures { Ended kinds plan capture.now groups result out.new }
{
    let walk = walk_groups(kinds, plan, count, capture, groups, out);
    if walk.number != 0 {
        return Outcome {
            number: walk.number,
            place: walk.place,
            second: walk.second,
            bytes: 0,
            notice: 0,
            misplaced: 0,
        };
    }
    let pass = walk.pass;
    let step = data_word::finish(pass.held);
    if step.bad {
        let first = stored_place(plan, count, pass.since);
        return Outcome {
            number: 13,
            place: first,
            second: first,
            bytes: 0,
            notice: 0,
            misplaced: 0,
        };
    }
    let pen = put_step(pass.pen, out, step);
    let bytes = pen.close(out);
    Outcome {
        number: 0,
        place: 0,
        second: 0,
        bytes: bytes,
        notice: walk.notice,
        misplaced: pass.fills.misplaced,
    }
}
