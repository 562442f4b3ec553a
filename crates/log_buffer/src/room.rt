// The buffer as numbers: an item arrives, a group leaves.
ghost use Rattle.std.specs.Prelude.{◌≡◌, cond, ◌+◌, ◌≤◌, ◌<◌, eqb, leb};
ghost use Rattle.log_buffer.specs.Level.{Holdable, arrived_by, left_by, missed_by, need_by, taken_by};

use crate::{Level, Load};

// "its words, and one more for a mark if items were lost since the last mark"
fn need(unmarked: u32, words: u32) -> u32
    requires { words ≤ 5 }
    ensures { (result ≡ need_by unmarked words) × (result ≤ 6) }
{
    if unmarked == 0 {
        return words;
    }
    words + 1
}

// "If they fit in the free room"
pub fn fits(level: Level, words: u32, capacity: u32) -> bool
    requires { (words ≤ 5) × Holdable level }
    ensures { result ≡ leb (level.held + need_by level.unmarked words) capacity }
{
    level.held + need(level.unmarked, words) <= capacity
}

// "the mark .. and the item go in"
fn taken(level: Level, words: u32) -> Level
    requires { (words ≤ 5) × Holdable level }
    ensures { result ≡ taken_by level words }
{
    Level {
        sent: level.sent,
        lost: level.lost,
        held: level.held + need(level.unmarked, words),
        unmarked: 0,
        bus: 0,
    }
}

// The mark's bus is that of the first lost item.
fn first_bus(unmarked: u32, old: u8, new: u8) -> u8
    ensures { result ≡ cond (eqb unmarked 0) new old }
{
    if unmarked == 0 {
        return new;
    }
    old
}

// "otherwise the item is lost whole"
fn missed(level: Level, bus: u8) -> Level
    requires { Holdable level }
    ensures { result ≡ missed_by level bus }
{
    Level {
        sent: level.sent,
        lost: level.lost + 1,
        held: level.held,
        unmarked: level.unmarked + 1,
        bus: first_bus(level.unmarked, level.bus, bus),
    }
}

pub fn arrived(level: Level, load: Load, stored: bool) -> Level
    requires { (load.words ≤ 5) × Holdable level }
    ensures { result ≡ arrived_by level load stored }
{
    if stored {
        return taken(level, load.words);
    }
    missed(level, load.bus)
}

fn least(a: u32, b: u32) -> u32
    ensures { (result ≡ cond (leb a b) a b) × (result ≤ a) }
{
    if a <= b {
        return a;
    }
    b
}

// "A group takes the oldest words, as many as there are up to its slots, and that room is used again."
pub fn left(level: Level, slots: u32) -> Level
    requires { Holdable level }
    ensures { result ≡ left_by slots level }
{
    let words = least(level.held, slots);
    Level {
        sent: level.sent + words,
        lost: level.lost,
        held: level.held - words,
        unmarked: level.unmarked,
        bus: level.bus,
    }
}
