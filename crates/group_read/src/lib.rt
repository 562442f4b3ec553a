// One group as read, from its own bytes: its first fault, its frame time, and its words dealt into a lent row.
#![tactic(auto)]

ghost use Rattle.std.specs.Prelude.{◌≡◌, true, not, ◌&&◌, ◌||◌, ◌+◌, ◌*◌, ◌≤◌, ◌<◌, ◌^◌, length, eqb};
ghost use Rattle.format.specs.Word.{word_of, word_at, is_odd, sent};
ghost use Rattle.format.specs.Plan.{lead, rows, group_words, place_of};
ghost use Rattle.format.specs.Group.{none, unless, time_fault, time_info, group_time};
ghost use Rattle.format.specs.Laws.Limits.{Shape};
ghost use Rattle.crc.specs.Sum.{Small, check_of_sum};
ghost use Rattle.group_read.specs.Faults.{fault_of, earlier_fault, is_time_word, number_unless, earlier_number, last_number, even_place};
ghost use Rattle.group_read.specs.Row.{dealt_count, Deals};

use crc::Sum;
use format::{Plan, Time};
use narrow;

// Number 0 at place 0: no fault.
#[derive(Clone, Copy)]
pub struct Fault {
    pub number: u32,
    pub place: usize,
}

// The time words in front of a group's data.
pub fn lead(plan: Plan) -> usize
    ensures { result ≡ lead plan }
{
    if plan.frame_time { 3 } else { 0 }
}

// The rows that are dealt: all but the sync word and, with CRC, the last.
fn dealt_rows(plan: Plan) -> usize
    requires { Shape plan }
    ensures { result ≡ rows plan }
{
    if plan.crc {
        plan.words - 2
    } else {
        plan.words - 1
    }
}

// Where a dealt word stands in its group: "word 2 of track 1, of track 2, and so on, then word 3".
pub fn place_of(plan: Plan, dealt: usize) -> usize
    requires { Shape plan × (dealt < dealt_count plan) }
    ensures { (result ≡ place_of plan dealt) × (result < group_words plan) }
{
    narrow::remainder(dealt, plan.tracks) * plan.words + narrow::quotient(dealt, plan.tracks) + 1
}

// The stored word at a place of the group.
fn stored_word(group: &[u8], place: usize) -> u32
    requires { 3 * (place + 1) ≤ length group.now }
    ensures { (result ≡ word_at group.now place) × (result < 2 ^ 24) }
{
    word::word_at(group, 3 * place)
}

fn no_fault() -> Fault
    ensures { result ≡ fault_of none }
{
    Fault {
        number: 0,
        place: 0,
    }
}

fn earlier(first: Fault, then: Fault) -> Fault
    ensures { result ≡ earlier_fault first then }
{
    if first.number == 0 { then } else { first }
}

// "frame time word: bus, label or micro wrong": right are bus 0, this label, and information below `end`.
fn is_time_word(parity: bool, word: u32, label: u32, end: u32) -> bool
    ensures { result ≡ is_time_word parity word label end }
{
    if word::bus_of(parity, word) != 0 {
        return false;
    }
    if word::label_of(word) != label {
        return false;
    }
    word::information_of(word) < end
}

fn time_word_fault(group: &[u8], parity: bool, place: usize, label: u32, end: u32) -> Fault
    requires { 3 * (place + 1) ≤ length group.now }
    ensures { result ≡ fault_of (unless (is_time_word parity (word_at group.now place) label end) 12 place) }
{
    if is_time_word(parity, stored_word(group, place), label, end) {
        return no_fault();
    }
    Fault { number: 12, place }
}

fn time_fault(group: &[u8], plan: Plan) -> Fault
    requires { Shape plan × (length group.now ≡ 3 * group_words plan) }
    ensures { result ≡ fault_of (time_fault plan group.now 0) }
{
    if plan.frame_time {
        let high = time_word_fault(group, plan.parity, place_of(plan, 0), 7, 0x10000);
        let low = time_word_fault(group, plan.parity, place_of(plan, 1), 6, 0x10000);
        let micro = time_word_fault(group, plan.parity, place_of(plan, 2), 5, 10000);
        return earlier(high, earlier(low, micro));
    }
    no_fault()
}

fn time_information(group: &[u8], plan: Plan, dealt: usize) -> u16
    requires { Shape plan × (length group.now ≡ 3 * group_words plan) × (dealt < 3) }
    ensures { result ≡ time_info plan group.now 0 dealt }
{
    word::information_of(stored_word(group, place_of(plan, dealt))) as u16
}

// The frame time of a group.
pub fn group_time(group: &[u8], plan: Plan) -> u64
    requires { Shape plan × (length group.now ≡ 3 * group_words plan) }
    ensures { result ≡ group_time plan group.now 0 }
{
    word::time_number(Time {
        high: time_information(group, plan, 0),
        low: time_information(group, plan, 1),
        micro: time_information(group, plan, 2),
    })
}

fn parity_number(parity: bool, word: u32) -> u32
    requires { word < 2 ^ 24 }
    ensures { result ≡ number_unless (not parity || is_odd word) 10 }
{
    if parity {
        if word::is_odd(word) { 0 } else { 10 }
    } else {
        0
    }
}

fn check_number(parity: bool, label: u32, check: u32, word: u32) -> u32
    requires { (label ≤ 7) × (check < 2 ^ 16) }
    ensures { result ≡ number_unless (eqb word (sent parity (word_of 0 label check))) 11 }
{
    if word == word::sent(parity, word::join(0, label, check)) {
        0
    } else {
        11
    }
}

fn earlier_number(first: u32, then: u32) -> u32
    ensures { result ≡ earlier_number first then }
{
    if first == 0 { then } else { first }
}

// "11 after 10 for a CRC word", which is the last of a frame, the words before it having this sum; 0 without CRC.
fn last_number(group: &[u8], plan: Plan, place: usize, sum: Sum) -> u32
    requires { (plan.crc_label ≤ 7) × Small sum × (3 * (place + 1) ≤ length group.now) }
    ensures { result ≡ last_number plan.parity plan.crc plan.crc_label (check_of_sum sum) (word_at group.now place) }
{
    if plan.crc {
        let word = stored_word(group, place);
        let even = parity_number(plan.parity, word);
        let check = check_number(plan.parity, plan.crc_label, sum.check(), word);
        return earlier_number(even, check);
    }
    0
}

// Neither of two words has a fault of parity.
fn are_odd(parity: bool, one: u32, two: u32) -> bool
    requires { (one < 2 ^ 24) × (two < 2 ^ 24) }
    ensures { result ≡ (not parity || is_odd one && is_odd two) }
{
    if parity {
        word::is_odd(one) && word::is_odd(two)
    } else {
        true
    }
}

// Which of two words is even, where one is: the first, or the one behind it.
fn even_place(parity: bool, one: u32, place: usize) -> usize
    requires { (one < 2 ^ 24) × (place < 2 ^ 32) }
    ensures { result ≡ even_place parity one place }
{
    if parity_number(parity, one) == 0 {
        place + 1
    } else {
        place
    }
}

// "each word as stored (9 for a frame's first word, 10 for any other, 11 after 10 for a CRC word), then 12"; and the words, each
// loaded once, stand in the row as they are dealt, two a step. Where there is a fault, that part of the row is work room.
pub fn deal(group: &[u8], plan: Plan, row: &mut [u32]) -> Fault
    requires { Shape plan × (length group.now ≡ 3 * group_words plan) × (dealt_count plan ≤ length row.old) }
    ensures { Deals plan group.now row.old result row.new }
{
    let words = plan.words;
    let tracks = plan.tracks;
    let rows = dealt_rows(plan);
    let mut track: usize = 0;
    let fault = 'scan: loop {
        if track == tracks {
            break 'scan time_fault(group, plan);
        }
        let first = track * words;
        let sync = stored_word(group, first);
        if sync != word::sync() {
            break 'scan Fault {
                number: 9,
                place: first,
            };
        }
        let mut sum = Sum::start().with_one(plan.crc, sync);
        let mut slot = track;
        let mut position: usize = 1;
        while position < rows {
            let place = first + position;
            let one = stored_word(group, place);
            let two = stored_word(group, place + 1);
            if !are_odd(plan.parity, one, two) {
                break 'scan Fault {
                    number: 10,
                    place: even_place(plan.parity, one, place),
                };
            }
            sum = sum.with_two(plan.crc, one, two);
            row[slot] = one;
            row[slot + tracks] = two;
            slot += 2 * tracks;
            position += 2;
        }
        if position <= rows {
            let word = stored_word(group, first + position);
            let number = parity_number(plan.parity, word);
            if number != 0 {
                break 'scan Fault {
                    number,
                    place: first + position,
                };
            }
            sum = sum.with_one(plan.crc, word);
            row[slot] = word;
        }
        let last = first + (words - 1);
        let number = last_number(group, plan, last, sum);
        if number != 0 {
            break 'scan Fault {
                number,
                place: last,
            };
        }
        track += 1;
    };
    fault
}
