// Times moved by a signed number of microseconds (document 02, K9): a time, a tag, and all items of a log, put.
#![tactic(auto)]

ghost use Rattle.std.specs.Prelude.{◌≡◌, true, ◌+◌, ◌*◌, ◌/◌, ◌%◌, ◌<◌, ◌≤◌, ◌^◌, pos, ◌+ℤ◌, length};
ghost use Rattle.format.specs.Log.{on_no_plan, parsed};
ghost use Rattle.format.specs.Time.{time_end};
ghost use Rattle.log_close.specs.Made.{StandsIn};
ghost use Rattle.log_put.specs.Put.{Fits};
ghost use Rattle.log_rules.specs.Shift.{in_limits};
ghost use Rattle.log_move.specs.Moved.{judged, MovesOn, moved_number, moved_packed, moved_row, number_of, tag_number, time_number};

use log_put::{Put, Spot, put_packed};
use log_read::{Tally, parse};
use log_walk::{Piece, data_in, in_time, piece_at, window_in};
use log_write::{Packed, Pen};
use word::time_parts;

// "at most 31,622,400,000,000 either way"
pub fn in_limits(by: i64) -> bool
    ensures { result ≡ in_limits by }
{
    if by < -31622400000000 {
        return false;
    }
    by <= 31622400000000
}

// The sum, as a signed number.
fn sum(time: u64, by: i64) -> i64
    requires { (time < 74572072960000) × (in_limits by ≡ true) }
    ensures { result ≡ pos time +ℤ by }
{
    time as i64 + by
}

// "would fall below zero or reach 42,949,672,960,000": that number then.
fn time_of(sum: i64) -> u64
    ensures { result ≡ number_of sum }
{
    if sum < 0 {
        return 42949672960000;
    }
    if sum < 42949672960000 {
        return sum as u64;
    }
    42949672960000
}

// A time moved; any number, also one that is no time. 42,949,672,960,000 where it cannot be moved.
pub fn moved_by(time: u64, by: i64) -> u64
    requires { in_limits by ≡ true }
    ensures { result ≡ moved_number by time }
{
    if 74572072960000 <= time {
        return 42949672960000;
    }
    time_of(sum(time, by))
}

// The time of an item's tag, moved; 0 where it has none.
fn moved_tag(item: Packed, by: i64) -> u64
    requires { (in_limits by ≡ true) × Fits item }
    ensures { result ≡ tag_number by item }
{
    if item.behind_bits != 46 {
        return 0;
    }
    moved_by(10000 * (item.behind / 16384) + item.behind % 16384, by)
}

// The bits of a tag.
fn time_number(time: u64) -> u64
    requires { time < time_end }
    ensures { (result ≡ time_number time) × (result < 2 ^ 46) }
{
    let parts = time_parts(time);
    (parts.high as u64 * 65536 + parts.low as u64) * 16384 + parts.micro as u64
}

// An item with its tag's time replaced, if it has a tag.
fn with_time(piece: Packed, time: u64) -> Packed
    requires { time < time_end }
    ensures { result ≡ moved_packed time piece }
{
    if piece.behind_bits != 46 {
        return piece;
    }
    Packed {
        first: piece.first,
        first_bits: piece.first_bits,
        behind: time_number(time),
        behind_bits: 46,
    }
}

// What is refused by 17 at a place, unless the log has a fault of its own: "2, 4 as in composing" come first.
pub fn judged(log: &[u8], place: usize) -> Put
    ensures { result ≡ judged (parsed on_no_plan log.now) place }
{
    match parse(log) {
        Tally::Items { .. } => Put::Fault { number: 17, place },
        Tally::Fault { number, place } => Put::Fault { number, place },
    }
}

// From a spot on the data words that stand far from the log's end: they have no tag, and come in runs.
fn put_data(log: &[u8], from: Spot, built: &mut [u8]) -> Spot
    requires { (length log.now ≤ 32768) × (length log.now + 8 ≤ length built.old) × (from.pen.bits ≤ from.at) × (from.at ≤ length log.now * 8) }
    ensures { MovesOn log.now built.old from built.new result }
{
    let mut at = from.at;
    let mut to = from.pen;
    let stop = log.len() * 8;
    while at + 128 <= stop {
        let w = window_in(log, at);
        if w >> 60 != 3 {
            break;
        }
        to = put_packed(to, built, data_in(log, at, w));
        at += 25;
    }
    Spot { at, pen: to }
}

// All items of a log with their tags moved, put; or its first fault, or 17 for the first tag that cannot be moved.
pub fn put_moved(log: &[u8], by: i64, built: &mut [u8]) -> Put
    requires { (in_limits by ≡ true) × (length log.now ≤ 32768 → length log.now + 8 ≤ length built.old) }
    ensures { StandsIn (moved_row by (parsed on_no_plan log.now)) (length log.now * 8) built.new result }
{
    if 32768 < log.len() {
        return Put::Fault {
            number: 2,
            place: 0,
        };
    }
    let mut at: usize = 0;
    let mut to = Pen::start();
    loop {
        match piece_at(log, at) {
            Piece::Item(item) => {
                if !in_time(item) {
                    return Put::Fault {
                        number: 4,
                        place: at,
                    };
                }
                let time = moved_tag(item, by);
                if 42949672960000 <= time {
                    return judged(log, at);
                }
                to = put_packed(to, built, with_time(item, time));
                at += (item.first_bits + item.behind_bits) as usize;
                let here = put_data(log, Spot { at, pen: to }, built);
                at = here.at;
                to = here.pen;
            }
            Piece::End => return Put::All(to),
            Piece::Wrong => return Put::Fault {
                number: 2,
                place: at,
            },
        }
    }
}
