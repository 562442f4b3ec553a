// The salvage of a row of data words (document 02, K10), one after the other: nothing is refused for its words.
#![tactic(auto)]

ghost use Rattle.std.specs.Prelude.{◌≡◌, List, ℕ, ◌+◌, ◌<◌, ◌≤◌, ◌^◌, length};
ghost use Rattle.format.specs.Plan.{slots};
ghost use Rattle.format.specs.Laws.Limits.{Shape};
ghost use Rattle.salvage_rules.specs.Salvage.{held_words};
ghost use Rattle.data_items.specs.Row.{Words};
ghost use Rattle.data_put.specs.Put.{Strings};
ghost use Rattle.data_word.specs.Holding.{held_of, Sane};
ghost use Rattle.salvage_run.specs.Tape.{base_words_of, drop_group, drop_held, let_go, Low, on_row, on_word, places_of, put, put_all, put_at, shifted, Sound, start_pass, tape, try_start};

use capture_parts::stored_place;
use data_put::put_step;
pub use data_word::Holding;
use data_word::Step;
use format::{Kind, Plan};
use log_write::Pen;

// The numbers of the last four data words; an item that is held has at most four. A word's number is its place among the data words
// in dealt order.
#[derive(Clone, Copy)]
pub struct Last {
    pub first: u64,
    pub second: u64,
    pub third: u64,
    pub fourth: u64,
}

// What is carried from word to word: what is held, the last words, the log so far, and how many entries the report has.
#[derive(Clone, Copy)]
pub struct Pass {
    pub held: Holding,
    pub last: Last,
    pub pen: Pen,
    pub entries: usize,
}

pub fn start_pass() -> Pass
    ensures { result ≡ start_pass }
{
    Pass {
        held: data_word::nothing(),
        last: Last {
            first: 0,
            second: 0,
            third: 0,
            fourth: 0,
        },
        pen: Pen::start(),
        entries: 0,
    }
}

// A number is put where there is room for it: so what a salvage would write can be counted with no room at all.
pub fn put_at(row: &mut [u64], at: usize, number: u64)
    ensures { row.new ≡ put_at row.old at number }
{
    if at < row.len() {
        row[at] = number;
    }
}

// The words of a command, or of an ARINC word.
fn base_words(base: u64) -> usize
    ensures { (result ≡ base_words_of base) × (result ≤ 2) }
{
    if base < 4294967296 { 1 } else { 2 }
}

// How many words are held.
fn held_words(held: Holding) -> usize
    requires { Sane held }
    ensures { result ≡ held_words (held_of held) }
{
    let base = held.base;
    let awaits = held.awaits;
    if awaits == 0 {
        return 0;
    }
    match awaits % 16 {
        7 => base_words(base),
        6 => base_words(base) + 1,
        5 => base_words(base) + 2,
        _ => 1,
    }
}

// The last words, so many of them, are reported.
fn lose_last(
    last: Last,
    words: usize,
    plan: Plan,
    count: usize,
    at: usize,
    report: &mut [u64],
) -> usize
    requires { Shape plan × (count ≡ slots plan) × Low (2 ^ 32) last × (words ≤ 4) × (at < 2 ^ 60) }
    ensures { (result ≡ at + words) × (report.new ≡ put_all report.old at (places_of plan words last)) }
{
    let numbers = [last.first, last.second, last.third, last.fourth];
    let mut index = 4 - words;
    let mut entries = at;
    while index < 4 {
        put_at(report, entries, stored_place(plan, count, numbers[index]));
        entries += 1;
        index += 1;
    }
    entries
}

// What is held is dropped: all its words are reported.
fn drop_held(pass: Pass, plan: Plan, count: usize, report: &mut [u64]) -> Pass
    requires { Shape plan × (count ≡ slots plan) × Sane pass.held × Low (2 ^ 32) pass.last × (pass.entries < 2 ^ 60) }
    ensures { (out : List ℕ) → tape result out report.new ≡ drop_held plan (tape pass out report.old) }
{
    let last = pass.last;
    let pen = pass.pen;
    let words = held_words(pass.held);
    let entries = lose_last(last, words, plan, count, pass.entries, report);
    Pass {
        held: data_word::nothing(),
        last: last,
        pen: pen,
        entries: entries,
    }
}

// A step's items are put, and what it holds is held; these are the last words then.
fn put_items(pass: Pass, step: Step, last: Last, out: &mut [u8]) -> Pass
    requires { (pass.pen.bits < 2 ^ 60) × Strings step }
    ensures { (report : List ℕ) → tape result out.new report ≡ put step last (tape pass out.old report) }
{
    let held = step.held;
    let entries = pass.entries;
    let pen = put_step(pass.pen, out, step);
    Pass {
        held: held,
        last: last,
        pen: pen,
        entries: entries,
    }
}

// No word continues what is held: an item that is finished is put, the words of one that is not are reported.
pub fn let_go(pass: Pass, plan: Plan, count: usize, out: &mut [u8], report: &mut [u64]) -> Pass
    requires { Shape plan × (count ≡ slots plan) × Sane pass.held × Low (2 ^ 32) pass.last × (pass.entries < 2 ^ 60) × (pass.pen.bits < 2 ^ 60) }
    ensures { tape result out.new report.new ≡ let_go plan (tape pass out.old report.old) }
{
    let step = data_word::finish(pass.held);
    if step.bad {
        return drop_held(pass, plan, count, report);
    }
    let last = pass.last;
    put_items(pass, step, last, out)
}

// "is tried as a start; if it starts nothing it is dropped too": a word while nothing is held.
fn try_start(
    pass: Pass,
    kinds: [Kind; 16],
    plan: Plan,
    count: usize,
    number: u64,
    word: u32,
    out: &mut [u8],
    report: &mut [u64],
) -> Pass
    requires { Shape plan × (count ≡ slots plan) × (number < 2 ^ 32) × (word < 2 ^ 24) × (pass.entries < 2 ^ 61) × (pass.pen.bits < 2 ^ 60) }
    ensures { tape result out.new report.new ≡ try_start kinds plan number word (tape pass out.old report.old) }
{
    let last = pass.last;
    let step = data_word::feed(
        data_word::nothing(),
        kinds,
        word::bus_of(plan.parity, word),
        word::label_of(word),
        word::information_of(word),
    );
    if step.bad {
        let entries = pass.entries;
        let pen = pass.pen;
        put_at(report, entries, stored_place(plan, count, number));
        return Pass {
            held: data_word::nothing(),
            last: last,
            pen: pen,
            entries: entries + 1,
        };
    }
    put_items(pass, step, next(last, number), out)
}

// One word more.
fn next(last: Last, number: u64) -> Last
    ensures { result ≡ shifted last number }
{
    Last {
        first: last.second,
        second: last.third,
        third: last.fourth,
        fourth: number,
    }
}

// "A word that cannot continue the unfinished item drops that item's words and is tried as a start".
fn on_word(
    pass: Pass,
    kinds: [Kind; 16],
    plan: Plan,
    count: usize,
    number: u64,
    word: u32,
    out: &mut [u8],
    report: &mut [u64],
) -> Pass
    requires { Shape plan × (count ≡ slots plan) × Sound number pass × (number < 2 ^ 31) × (word < 2 ^ 24) }
    ensures { tape result out.new report.new ≡ on_word kinds plan number word (tape pass out.old report.old) }
{
    let last = pass.last;
    let step = data_word::feed(
        pass.held,
        kinds,
        word::bus_of(plan.parity, word),
        word::label_of(word),
        word::information_of(word),
    );
    if step.bad {
        let free = let_go(pass, plan, count, out, report);
        return try_start(free, kinds, plan, count, number, word, out, report);
    }
    put_items(pass, step, next(last, number), out)
}

// The words of a row, the first of them the number `from`; fill is dropped.
pub fn on_row(
    pass: Pass,
    kinds: [Kind; 16],
    plan: Plan,
    count: usize,
    row: &[u32],
    from: u64,
    out: &mut [u8],
    report: &mut [u64],
) -> Pass
    requires { Shape plan × (count ≡ slots plan) × Sound from pass × Words row.now × (from + length row.now < 2 ^ 31) }
    ensures report_after { tape result out.new report.new ≡ on_row kinds plan from row.now (tape pass out.old report.old) }
    ensures sound { Sound (from + length row.now) result }
{
    let mut pass = pass;
    let mut i: usize = 0;
    while i < row.len() {
        let word = row[i];
        if word::is_fill(word) {
            i += 1;
            continue;
        }
        pass = on_word(pass, kinds, plan, count, from + i as u64, word, out, report);
        i += 1;
    }
    pass
}

// "Nothing is joined across a dropped group, and a command or ARINC word that is the last data before one, its tag not yet seen, is
// dropped as well": the words of what is held are reported, and then the group by its fault and index.
pub fn drop_group(
    pass: Pass,
    plan: Plan,
    count: usize,
    number: u32,
    index: usize,
    report: &mut [u64],
) -> Pass
    requires { Shape plan × (count ≡ slots plan) × Sane pass.held × Low (2 ^ 32) pass.last × (pass.entries < 2 ^ 60) × (index < 2 ^ 32) }
    ensures { (out : List ℕ) → tape result out report.new ≡ drop_group plan number index (tape pass out report.old) }
{
    let free = drop_held(pass, plan, count, report);
    let held = free.held;
    let last = free.last;
    let pen = free.pen;
    let entries = free.entries;
    put_at(report, entries, number as u64 * 0x100000000 + index as u64);
    Pass {
        held: held,
        last: last,
        pen: pen,
        entries: entries + 1,
    }
}
