// The items of a log on some buses, put behind what is written: for whatever makes a log of logs.
#![tactic(auto)]

ghost use Rattle.std.specs.Prelude.{◌≡◌, ◌+◌, ◌*◌, ◌/◌, ◌≤◌, ◌<◌, ◌^◌, length};
ghost use Rattle.format.specs.Log.{on_no_plan, parsed};
ghost use Rattle.log_rules.specs.Pick.{in_set};
ghost use Rattle.log_put.specs.Put.{Fits, Picking, PutsPacked, PutsPicked, Told};

use log_walk::{Piece, bus_in, data_in, in_time, item_in, piece_at, window_in};
use log_write::{Packed, Pen};

// The items of a log are put, or its first fault.
#[derive(Clone, Copy)]
pub enum Put {
    All(Pen),
    Fault { number: u32, place: usize },
}

// Where putting a log's items stands: at a bit of the log, and behind what is written.
#[derive(Clone, Copy)]
pub struct Spot {
    pub at: usize,
    pub pen: Pen,
}

// Whether a bus is one of the set: bit c of the number for code c.
fn in_set(buses: u16, bus: u8) -> bool
    requires { bus < 16 }
    ensures { result ≡ in_set buses bus }
{
    (buses >> bus as u32) % 2 == 1
}

// An item's bits more, where there is room for them.
pub fn put_packed(pen: Pen, built: &mut [u8], item: Packed) -> Pen
    requires { (pen.bits < 2 ^ 61) × Fits item × ((pen.bits + item.first_bits) / 8 + 8 ≤ length built.old) }
    ensures { PutsPacked item built.old pen built.new result }
{
    let first = pen.put_in(built, item.first, item.first_bits);
    if item.behind_bits == 0 {
        return first;
    }
    first.put_in(built, item.behind, item.behind_bits)
}

// An item on the buses is put, another is passed over.
fn put_if(pen: Pen, built: &mut [u8], buses: u16, item: Packed) -> Pen
    requires { (pen.bits < 2 ^ 61) × Fits item × ((pen.bits + item.first_bits) / 8 + 8 ≤ length built.old) }
    ensures { PutsPicked buses item built.old pen built.new result }
{
    if in_set(buses, bus_in(item)) {
        return put_packed(pen, built, item);
    }
    pen
}

// From a place on, the items that stand far from the log's end, as long as they are good: nothing is told here.
fn put_run(log: &[u8], buses: u16, from: Spot, built: &mut [u8]) -> Spot
    requires { (length log.now ≤ 32768) × (length log.now + 8 ≤ length built.old) × Picking log.now buses built.old from.at from.pen }
    ensures { (from.at ≤ result.at) × Picking log.now buses built.new result.at result.pen }
{
    let mut at = from.at;
    let mut to = from.pen;
    let stop = log.len() * 8;
    while at + 128 <= stop {
        let w = window_in(log, at);
        let kind = w >> 60;
        if kind == 3 {
            to = put_if(to, built, buses, data_in(log, at, w));
            at += 25;
            continue;
        }
        if kind == 0 {
            break;
        }
        if 8 < kind {
            break;
        }
        let item = item_in(log, at, w);
        if !in_time(item) {
            break;
        }
        to = put_if(to, built, buses, item);
        at += (item.first_bits + item.behind_bits) as usize;
    }
    Spot { at, pen: to }
}

// Every item of a log is looked at, for 2 and 4, and those on the buses are put.
pub fn put_items(log: &[u8], buses: u16, built: &mut [u8]) -> Put
    requires { length log.now ≤ 32768 → length log.now + 8 ≤ length built.old }
    ensures { Told (parsed on_no_plan log.now) buses (length log.now * 8) built.new result }
{
    if 32768 < log.len() {
        return Put::Fault {
            number: 2,
            place: 0,
        };
    }
    let mut spot = Spot {
        at: 0,
        pen: Pen::start(),
    };
    loop {
        let here = put_run(log, buses, spot, built);
        let at = here.at;
        let pen = here.pen;
        match piece_at(log, at) {
            Piece::Item(item) => {
                if !in_time(item) {
                    return Put::Fault {
                        number: 4,
                        place: at,
                    };
                }
                spot = Spot {
                    at: at + (item.first_bits + item.behind_bits) as usize,
                    pen: put_if(pen, built, buses, item),
                };
            }
            Piece::End => return Put::All(pen),
            Piece::Wrong => return Put::Fault {
                number: 2,
                place: at,
            },
        }
    }
}
