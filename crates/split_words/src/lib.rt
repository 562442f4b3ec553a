// The first half of a reading in two operations (document 02, K3): it "undoes frames and tracks and hands out data slots in dealt
// order, fill included, with the frame times".
#![tactic(auto)]

ghost use Rattle.std.specs.Prelude.{◌≡◌, ◌*◌, ◌%◌, ◌/◌, ◌≤◌, ◌<◌, length};
ghost use Rattle.format.specs.Answer.{Given, over};
ghost use Rattle.format.specs.Group.{none};
ghost use Rattle.format.specs.Plan.{group_words, slots, times_needed};
ghost use Rattle.format.specs.Read.{slots_from, unless_found};
ghost use Rattle.format.specs.Laws.Limits.{Shape};
ghost use Rattle.format.specs.Laws.Reader.Slots.{words_in};
ghost use Rattle.capture_rules.specs.Split.{groups_fault, words_read, words_roomed};
ghost use Rattle.group_read.specs.Row.{dealt_count};
ghost use Rattle.split_words.specs.Fault.{FirstFault};

use capture_parts::{earlier, groups_in, is_whole, refusal, short_of, times_of, write_times};
use format::{Answer, Kind, Plan};
use group_read::Fault;
use plan::{legal, slots};

// The first fault of 9 to 12 in any of n groups, each dealt into the row.
fn first_fault(plan: Plan, capture: &[u8], n: usize, row: &mut [u32]) -> Fault
    requires shape { Shape plan × (0 < n → dealt_count plan ≤ length row.old) }
    requires capture_len { (length capture.now ≡ n * (3 * group_words plan)) × (length capture.now ≤ 1048576) }
    ensures { FirstFault (groups_fault plan capture.now n 0) result }
{
    let size = plan.tracks * plan.words;
    let mut g: usize = 0;
    while g < n {
        let begin = g * (3 * size);
        let end = begin + 3 * size;
        let fault = group_read::deal(&capture[begin..end], plan, row);
        if fault.number != 0 {
            return Fault {
                number: fault.number,
                place: g * size + fault.place,
            };
        }
        g += 1;
    }
    Fault {
        number: 0,
        place: 0,
    }
}

fn copy_words(to: &mut [u32], from: &[u32])
    requires { length to.old ≡ length from.now }
    ensures { to.new ≡ from.now }
{
    let mut i: usize = 0;
    while i < from.len() {
        to[i] = from[i];
        i += 1;
    }
}

// The data slots of n groups without a fault, each group's in its own part.
fn write_words(plan: Plan, capture: &[u8], n: usize, row: &mut [u32], words: &mut [u32])
    requires shape { Shape plan × (0 < n → dealt_count plan ≤ length row.old) × (n * slots plan ≤ length words.old) }
    requires capture_len { (length capture.now ≡ n * (3 * group_words plan)) × (length capture.now ≤ 1048576) × (groups_fault plan capture.now n 0 ≡ none) }
    ensures { words.new ≡ over (words_in (slots_from plan capture.now n 0)) words.old }
{
    let size = plan.tracks * plan.words;
    let count = slots(plan);
    let first = group_read::lead(plan);
    let behind = first + count;
    let mut g: usize = 0;
    while g < n {
        let begin = g * (3 * size);
        let end = begin + 3 * size;
        group_read::deal(&capture[begin..end], plan, row);
        let from = g * count;
        let to = from + count;
        copy_words(&mut words[from..to], &row[first..behind]);
        g += 1;
    }
}

// "9 to 12, then 6 for its word room (place in words), then 7": nothing is written before all that is judged.
fn words_by(
    plan: Plan,
    capture: &[u8],
    row: &mut [u32],
    words: &mut [u32],
    times: &mut [u64],
) -> Answer
    requires shape { Shape plan × (length capture.now ≤ 1048576) × (length capture.now % (3 * group_words plan) ≡ 0) }
    requires plan_in_bounds { 0 < length capture.now / (3 * group_words plan) → dealt_count plan ≤ length row.old }
    ensures { Given (unless_found (groups_fault plan capture.now (length capture.now / (3 * group_words plan)) 0) (words_roomed plan capture.now (length capture.now / (3 * group_words plan)) (length words.old) (length times.old))) result words.old words.new times.old times.new }
{
    let n = groups_in(plan, capture.len());
    let fault = first_fault(plan, capture, n, row);
    if fault.number != 0 {
        return refusal(fault.number, fault.place as u64, 0);
    }
    let count = n * slots(plan);
    let need = times_of(plan, n);
    let words_short = short_of(6, count, words.len());
    let times_short = short_of(7, need, times.len());
    let number = earlier(words_short, times_short);
    if number == 6 {
        return refusal(6, count as u64, 0);
    }
    if number == 7 {
        return refusal(7, need as u64, 0);
    }
    write_words(plan, capture, n, row, words);
    write_times(capture, plan, need, times);
    Answer {
        number: 0,
        place: 0,
        second: 0,
        bytes: count as u64,
        times: need as u64,
    }
}

// No large row is cleared for a small capture.
fn words_of(plan: Plan, capture: &[u8], words: &mut [u32], times: &mut [u64]) -> Answer
    requires { Shape plan × (length capture.now ≤ 1048576) × (length capture.now % (3 * group_words plan) ≡ 0) }
    ensures { Given (unless_found (groups_fault plan capture.now (length capture.now / (3 * group_words plan)) 0) (words_roomed plan capture.now (length capture.now / (3 * group_words plan)) (length words.old) (length times.old))) result words.old words.new times.old times.new }
{
    if capture.len() <= 1884 {
        let mut row = [0u32; 628];
        return words_by(plan, capture, &mut row, words, times);
    }
    let mut row = [0u32; 2048];
    words_by(plan, capture, &mut row, words, times)
}

// The words as stored, bit 1 included; the length that is answered for them counts words.
pub fn read_words(
    plan: Plan,
    kinds: [Kind; 16],
    capture: &[u8],
    words: &mut [u32],
    times: &mut [u64],
) -> Answer
    ensures { Given (words_read plan kinds capture.now (length words.old) (length times.old)) result words.old words.new times.old times.new }
{
    let length = capture.len();
    if !legal(plan, kinds) {
        return refusal(1, 0, 0);
    }
    if 1048576 < length {
        return refusal(8, length as u64, 0);
    }
    if !is_whole(plan, length) {
        return refusal(8, length as u64, 0);
    }
    words_of(plan, capture, words, times)
}
