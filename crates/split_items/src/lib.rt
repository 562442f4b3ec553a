// The second half of a reading in two operations (document 02, K3): it "turns such words into a log".
#![tactic(auto)]

ghost use Rattle.std.specs.Prelude.{◌≡◌, ◌≤◌, ◌<◌, ◌^◌, length};
ghost use Rattle.format.specs.Laws.Limits.{Shape};
ghost use Rattle.capture_rules.specs.Split.{items_read};
ghost use Rattle.split_items.specs.Numbers.{LowFront, any_large};
ghost use Rattle.split_items.specs.Items.{GivenLog, Room, RunsTo, items_of};

use capture_parts::refusal;
use data_put::put_step;
use data_run::{on_row, start_pass};
use format::{Answer, Kind, Plan};
use log_close::give;
use log_write::Pen;
use notices::first_open;
use plan::legal;

// What the words bring: number 0 and the log so far, or the number and both places of what stops them.
#[derive(Clone, Copy)]
struct Run {
    number: u32,
    place: u64,
    second: u64,
    pen: Pen,
}

// Whether a number is above 24 bits: a look without branches.
fn any_large(words: &[u32]) -> bool
    requires { length words.now < 2 ^ 31 }
    ensures { result ≡ any_large words.now }
{
    let mut large: u32 = 0;
    let mut i: usize = 0;
    while i < words.len() {
        large += (0xffffff < words[i]) as u32;
        i += 1;
    }
    large != 0
}

// The first number above 24 bits, or how many there are.
fn first_large(words: &[u32]) -> usize
    ensures { LowFront words.now result }
{
    let mut i: usize = 0;
    while i < words.len() {
        if 0xffffff < words[i] {
            return i;
        }
        i += 1;
    }
    i
}

// How many words stand before the first number above 24 bits.
fn low_front(words: &[u32]) -> usize
    requires { length words.now < 2 ^ 31 }
    ensures { LowFront words.now result }
{
    if any_large(words) {
        return first_large(words);
    }
    words.len()
}

fn stops(place: u64, second: u64, pen: Pen) -> Run
    ensures { result ≡ record { number = 13; place = place; second = second; pen = pen } }
{
    Run {
        number: 13,
        place: place,
        second: second,
        pen: pen,
    }
}

// The words in one row, as those of a group; "13 (also for a number above 24 bits)", in its turn; then the cut item.
fn run_words(plan: Plan, kinds: [Kind; 16], words: &[u32], out: &mut [u8]) -> Run
    requires { Shape plan × (length words.now ≤ 349525) }
    ensures { RunsTo kinds plan.parity words.now result out.new }
{
    let low = low_front(words);
    let start = start_pass();
    let pass = on_row(
        start,
        kinds,
        plan.parity,
        plan.fill_bus,
        &words[..low],
        0,
        out,
    );
    let held = pass.held;
    let pen = pass.pen;
    if pass.bad != 0 {
        return stops(pass.bad - 1, pass.since, pen);
    }
    if low < words.len() {
        let here = low as u64;
        return stops(here, data_word::begun(held, pass.since, here), pen);
    }
    let step = data_word::finish(held);
    if step.bad {
        return stops(pass.since, pass.since, pen);
    }
    let end = put_step(pen, out, step);
    Run {
        number: 0,
        place: 0,
        second: 0,
        pen: end,
    }
}

// "15, 6" behind the words; `built` is where the log is built, and has room for every log that is not refused.
fn items_by(
    plan: Plan,
    kinds: [Kind; 16],
    words: &[u32],
    built: &mut [u8],
    log: &mut [u8],
) -> Answer
    requires { Shape plan × (length words.now ≤ 349525) × Room (length words.now) (length built.old) }
    ensures { GivenLog (items_of kinds plan.parity words.now (length log.old)) result log.old log.new }
{
    let run = run_words(plan, kinds, words, built);
    if run.number != 0 {
        return refusal(run.number, run.place, run.second);
    }
    let notice = first_open(kinds, plan.parity, words);
    if notice != 0 {
        return refusal(15, notice - 1, 0);
    }
    give(run.pen, built, log)
}

// No large array is cleared for a few words.
fn items_of(plan: Plan, kinds: [Kind; 16], words: &[u32], log: &mut [u8]) -> Answer
    requires { Shape plan × (length words.now ≤ 349525) }
    ensures { GivenLog (items_of kinds plan.parity words.now (length log.old)) result log.old log.new }
{
    if words.len() <= 256 {
        let mut built = [0u8; 4120];
        return items_by(plan, kinds, words, &mut built, log);
    }
    let mut built = [0u8; 32776];
    items_by(plan, kinds, words, &mut built, log)
}

// Places count the words given; of the plan only kinds and parity matter, but the whole of it is judged.
pub fn read_items(plan: Plan, kinds: [Kind; 16], words: &[u32], log: &mut [u8]) -> Answer
    ensures { GivenLog (items_read plan kinds words.now (length log.old)) result log.old log.new }
{
    if !legal(plan, kinds) {
        return refusal(1, 0, 0);
    }
    let count = words.len();
    if 349525 < count {
        return refusal(8, count as u64, 0);
    }
    items_of(plan, kinds, words, log)
}
