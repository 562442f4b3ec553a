// A row of data words, one after the other: what is carried over them, and what each does to it.
#![tactic(auto)]

pub mod fill;

ghost use Rattle.std.specs.Prelude.{◌≡◌, false, true, ◌+◌, ◌*◌, ◌≤◌, ◌<◌, ◌^◌, length, get_or};
ghost use Rattle.format.specs.Lawful.{buses};
ghost use Rattle.format.specs.Word.{fill, sent};
ghost use Rattle.format.specs.Reader.{counted, run};
ghost use Rattle.data_word.specs.Holding.{held_of, Sane};
ghost use Rattle.data_items.specs.Row.{Words};
ghost use Rattle.data_put.specs.Put.{Strings};
ghost use Rattle.data_run.specs.Fills.{fills_in, all_fill};
ghost use Rattle.data_run.specs.Pass.{FromPass, PastFill, RanTo, Sound, items_pass, least_of, pass_out, start_pass, step_pass, word_out, word_pass};

use crate::fill::{Fills, is_odd_fill, on_data, on_fill};
use data_items::Taken;
use data_put::put_step;
use data_word::{Holding, Step};
use format::Kind;
use log_write::Pen;

// What is carried from word to word: what is held and the number of its first word, the log so far, the fill so far, and the number
// of a bad word, one up, or 0 if none came. Behind a bad word `since` is the number of the first word of the item that it broke, or
// its own if it broke none. A word's number is its place among the data words in dealt order.
#[derive(Clone, Copy)]
pub struct Pass {
    pub held: Holding,
    pub since: u64,
    pub pen: Pen,
    pub fills: Fills,
    pub bad: u64,
}

// Before the first word.
pub fn start_pass() -> Pass
    ensures { result ≡ start_pass }
{
    Pass {
        held: data_word::nothing(),
        since: 0,
        pen: Pen::start(),
        fills: Fills {
            first: 0,
            misplaced: 0,
        },
        bad: 0,
    }
}

// A data word that was fed.
fn on_step(pass: Pass, number: u64, step: Step, out: &mut [u8]) -> Pass
    requires { Sound pass × (pass.pen.bits < 2 ^ 60) × (number < 2 ^ 40) × (step.bad ≡ false → Strings step × Sane step.held) }
    ensures { (result ≡ step_pass number pass step) × (out.new ≡ pass_out out.old pass step) }
{
    let fills = pass.fills;
    if step.bad {
        let held = pass.held;
        let pen = pass.pen;
        let since = data_word::begun(held, pass.since, number);
        let bad = number + 1;
        return Pass {
            held: held,
            since: since,
            pen: pen,
            fills: fills,
            bad: bad,
        };
    }
    let held = step.held;
    let pen = put_step(pass.pen, out, step);
    let since = data_word::since(held, pass.since, number);
    Pass {
        held: held,
        since: since,
        pen: pen,
        fills: on_data(fills),
        bad: 0,
    }
}

// One data word, the word i of its row, told by its number.
fn on_word(
    pass: Pass,
    kinds: [Kind; 16],
    parity: bool,
    code: u32,
    i: usize,
    number: u64,
    word: u32,
    out: &mut [u8],
) -> Pass
    requires { Sound pass × (pass.pen.bits < 2 ^ 60) × (number < 2 ^ 40) × (word < 2 ^ 24) }
    ensures { (result ≡ word_pass kinds parity code i number word pass) × (out.new ≡ word_out kinds parity word pass out.old) }
{
    let bus = word::bus_of(parity, word);
    let held = pass.held;
    if word::is_fill(word) {
        let pen = pass.pen;
        let fills = on_fill(pass.fills, number, is_odd_fill(code, i, bus));
        return Pass {
            held: held,
            since: pass.since,
            pen: pen,
            fills: fills,
            bad: 0,
        };
    }
    let step = data_word::feed(
        held,
        kinds,
        bus,
        word::label_of(word),
        word::information_of(word),
    );
    on_step(pass, number, step, out)
}

// Four words of the plan's fill.
fn are_fill(blank: u32, one: u32, two: u32, three: u32, four: u32) -> bool
    ensures { result ≡ all_fill blank one two three four }
{
    if one != blank {
        return false;
    }
    if two != blank {
        return false;
    }
    if three != blank {
        return false;
    }
    four == blank
}

// The word i, or the first one behind it that is other than fill that changes nothing: the plan's own, as it is sent, not the first
// of all, nor the first word of its row. What that is as it is sent is worked out where it is needed, once or twice a row: carried
// through the loop over the row it slows the reading of items down.
fn past_fill(parity: bool, code: u32, fills: Fills, row: &[u32], i: usize) -> usize
    requires { (i ≤ length row.now) × (length row.now < 2 ^ 40) × (code < buses parity) }
    ensures { PastFill (sent parity (fill code)) row.now fills i result }
{
    let mut slot = i;
    if fills.first == 0 {
        return slot;
    }
    if slot == 0 {
        return slot;
    }
    let blank = word::fill(parity, code);
    while slot + 4 <= row.len() {
        if are_fill(
            blank,
            row[slot],
            row[slot + 1],
            row[slot + 2],
            row[slot + 3],
        ) {
            slot += 4;
        } else {
            break;
        }
    }
    while slot < row.len() {
        if row[slot] != blank {
            break;
        }
        slot += 1;
    }
    slot
}

fn least(a: usize, b: usize) -> usize
    ensures { result ≡ least_of a b }
{
    if a <= b { a } else { b }
}

// Items taken whole from the word i on, if nothing is held, as far as there is room for them.
fn items_from(
    pass: Pass,
    kinds: [Kind; 16],
    parity: bool,
    row: &[u32],
    i: usize,
    out: &mut [u8],
) -> Taken
    requires { Words row.now × (i ≤ length row.now) × (length row.now < 2 ^ 40) × (pass.pen.bits < 2 ^ 59) }
    ensures { FromPass kinds parity row.now pass i out.old result out.new }
{
    let held = pass.held;
    let pen = pass.pen;
    let from = Taken { slot: i, pen: pen };
    if held.awaits == 0 {
        let end = least(row.len(), i + pen.words_in(out.len()));
        return data_items::take(kinds, parity, &row[..end], from, out);
    }
    from
}

// Items that were taken, from a row whose first word has the number `from`.
fn on_items(pass: Pass, taken: Taken, from: u64) -> Pass
    requires { (1 ≤ taken.slot) × (from + taken.slot < 2 ^ 41) }
    ensures { result ≡ items_pass pass taken from }
{
    let held = pass.held;
    let pen = taken.pen;
    let since = from + taken.slot as u64 - 1;
    Pass {
        held: held,
        since: since,
        pen: pen,
        fills: on_data(pass.fills),
        bad: 0,
    }
}

// A row of data words, the first of them the number `from`, up to a bad word; the plan's fill is on the bus `code`.
pub fn on_row(
    pass: Pass,
    kinds: [Kind; 16],
    parity: bool,
    code: u32,
    row: &[u32],
    from: u64,
    out: &mut [u8],
) -> Pass
    requires { Sound pass × Words row.now × (pass.pen.bits ≤ 128 * from) × (from + length row.now < 2 ^ 40) × (code < buses parity) }
    ensures ran_to { RanTo pass out.old (run kinds parity (counted from row.now) (held_of pass.held) pass.since) (fills_in parity code 0 (counted from row.now) pass.fills) result out.new }
    ensures bits_bound { result.bad ≡ 0 → result.pen.bits ≤ 128 * (from + length row.now) }
{
    let mut pass = pass;
    let mut i: usize = 0;
    while i < row.len() {
        let past = past_fill(parity, code, pass.fills, row, i);
        if i < past {
            i = past;
            continue;
        }
        let taken = items_from(pass, kinds, parity, row, i, out);
        if i < taken.slot {
            pass = on_items(pass, taken, from);
            i = taken.slot;
            continue;
        }
        pass = on_word(pass, kinds, parity, code, i, from + i as u64, row[i], out);
        if pass.bad != 0 {
            return pass;
        }
        i += 1;
    }
    pass
}
