// One group of a capture as it arrives (K4): "the items complete before the refused group" are handed out, so a group is taken whole
// or not at all.
#![tactic(auto)]

ghost use Rattle.std.specs.Prelude.{◌≡◌, true, ◌+◌, ◌*◌, ◌%◌, ◌/◌, ◌≤◌, ◌<◌, ◌^◌, length};
ghost use Rattle.format.specs.Plan.{group_words, slots, lead};
ghost use Rattle.format.specs.Laws.Limits.{Shape};
ghost use Rattle.stream_rules.specs.Stream.{group_size, most_bytes, stored_of, take_group, waits_fit};
ghost use Rattle.data_word.specs.Holding.{Sane};
ghost use Rattle.data_items.specs.Row.{Words};
ghost use Rattle.group_read.specs.Row.{dealt_count};
ghost use Rattle.stream_group.specs.Took.{TookBy, carried, from_number, row_brings, stops_by};

use data_run::fill::Fills;
use data_run::{Pass, on_row};
use data_word::Holding;
use format::{Kind, Plan};
use log_write::Pen;

// What a group brings: a refusal's number and both places, or number 0, what is held then, the place of its first word, and the log
// with the group's items.
#[derive(Clone, Copy)]
pub struct Took {
    pub number: u32,
    pub place: u64,
    pub second: u64,
    pub held: Holding,
    pub since: u64,
    pub pen: Pen,
}

// The group is not taken.
fn stops(number: u32, place: u64, second: u64, held: Holding, pen: Pen) -> Took
    ensures { result ≡ stops_by number place second held pen }
{
    Took {
        number: number,
        place: place,
        second: second,
        held: held,
        since: 0,
        pen: pen,
    }
}

// Where a word stands, told by its number among the group's data words, from 1 on; 0 is the first word of what was held before. The
// group's first stored word is `at`.
fn place_from(plan: Plan, at: u64, since: u64, number: u64) -> u64
    requires { Shape plan × (number ≤ slots plan) × (at < 2 ^ 40) }
    ensures { result ≡ from_number plan at since number }
{
    if number == 0 {
        return since;
    }
    let dealt = group_read::lead(plan) + (number as usize - 1);
    at + group_read::place_of(plan, dealt) as u64
}

// The stored place of the word of this number, of which each group counts 2,048 in dealt order.
pub fn stored_of(plan: Plan, number: u64) -> u64
    requires { Shape plan × (1 ≤ number % 2048) × (number % 2048 ≤ dealt_count plan) × (number < 2 ^ 52) }
    ensures { result ≡ stored_of plan number }
{
    let dealt = (number % 2048) as usize - 1;
    let size = (plan.tracks * plan.words) as u64;
    number / 2048 * size + group_read::place_of(plan, dealt) as u64
}

// The data words of the group `index`: a bad word is 13, "15 last".
fn take_row(
    kinds: [Kind; 16],
    plan: Plan,
    row: &[u32],
    index: u64,
    held: Holding,
    since: u64,
    pen: Pen,
    table: &mut [u64],
    out: &mut [u8],
) -> Took
    requires shape { Shape plan × Words row.now × (length row.now ≡ slots plan) × Sane held × (pen.bits < 8) }
    requires table_len { (length table.old ≡ 64) × (waits_fit plan kinds index 0 table.old ≡ true) × ((index + 1) * group_size plan ≤ most_bytes) }
    ensures { TookBy (row_brings plan kinds index (carried held since table.old) row.now) pen out.old result table.new out.new }
{
    let at = index * (plan.tracks * plan.words) as u64;
    let start = Pass {
        held: held,
        since: 0,
        pen: pen,
        fills: Fills {
            first: 0,
            misplaced: 0,
        },
        bad: 0,
    };
    let pass = on_row(start, kinds, plan.parity, plan.fill_bus, row, 1, out);
    if pass.bad != 0 {
        return stops(
            13,
            place_from(plan, at, since, pass.bad - 1),
            place_from(plan, at, since, pass.since),
            held,
            pen,
        );
    }
    let arinc = notices::has_arinc(kinds);
    let from = index * 2048 + group_read::lead(plan) as u64;
    let shown = notices::watch_row(arinc, kinds, plan.parity, row, from, table);
    if shown != 0 {
        return stops(15, stored_of(plan, shown), 0, held, pen);
    }
    let held = pass.held;
    let pen = pass.pen;
    Took {
        number: 0,
        place: 0,
        second: 0,
        held: held,
        since: place_from(plan, at, since, pass.since),
        pen: pen,
    }
}

// The group `index`, by its own bytes: its faults as stored and of its time words, then its data words.
pub fn take_group(
    kinds: [Kind; 16],
    plan: Plan,
    count: usize,
    group: &[u8],
    index: u64,
    held: Holding,
    since: u64,
    pen: Pen,
    table: &mut [u64],
    row: &mut [u32],
    out: &mut [u8],
) -> Took
    requires shape { Shape plan × (count ≡ slots plan) × (length group.now ≡ 3 * group_words plan) × (dealt_count plan ≤ length row.old) × Sane held × (pen.bits < 8) }
    requires table_len { (length table.old ≡ 64) × (waits_fit plan kinds index 0 table.old ≡ true) × ((index + 1) * group_size plan ≤ most_bytes) }
    ensures { TookBy (take_group plan kinds group.now index (carried held since table.old)) pen out.old result table.new out.new }
{
    let fault = group_read::deal(group, plan, row);
    if fault.number != 0 {
        let at = index * (plan.tracks * plan.words) as u64;
        return stops(fault.number, at + fault.place as u64, 0, held, pen);
    }
    let first = group_read::lead(plan);
    let behind = first + count;
    take_row(
        kinds,
        plan,
        &row[first..behind],
        index,
        held,
        since,
        pen,
        table,
        out,
    )
}
