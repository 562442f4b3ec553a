// One event of the replay (document 02, K13): an item arrives and is stored or lost, or a group leaves.
#![tactic(auto)]

ghost use Rattle.std.specs.Prelude.{◌≡◌, ◌≤◌, ◌<◌, ◌^◌, length};
ghost use Rattle.log_buffer.specs.Level.{Holdable};
ghost use Rattle.log_store.specs.Store.{Puts, Turns, mark_of};

use format::Item;
use log_buffer::{Level, arrived, fits, left, load_of};
use log_read::{Cursor, Found};
use log_write::Pen;

// Where the replay stands: the next item, the buffer, and the log of what was stored.
#[derive(Clone, Copy)]
pub struct State {
    pub at: Cursor,
    pub level: Level,
    pub pen: Pen,
}

// "the mark (bus of the first lost item, word = number lost)"
fn mark(level: Level) -> Item
    requires { level.unmarked < 2 ^ 16 }
    ensures { result ≡ mark_of level }
{
    Item::Overflow {
        bus: level.bus,
        word: level.unmarked as u16,
    }
}

// What is stored, a mark first if items were lost since the last one.
fn put(pen: Pen, built: &mut [u8], level: Level, item: Item, stored: bool) -> Pen
    requires { (pen.bits < 2 ^ 60) × (level.unmarked < 2 ^ 16) }
    ensures { Puts level item stored built.old pen built.new result }
{
    if !stored {
        return pen;
    }
    if level.unmarked == 0 {
        return pen.put_item(built, item);
    }
    let first = mark(level);
    let marked = pen.put_item(built, first);
    marked.put_item(built, item)
}

// 0: "next item arrives"; 1: "a group leaves".
pub fn turn(
    log: &[u8],
    event: u8,
    capacity: u32,
    slots: u32,
    state: State,
    built: &mut [u8],
) -> State
    requires { (length log.now ≤ 32768) × Holdable state.level × (state.pen.bits < 2 ^ 60) }
    ensures { Turns log.now event capacity slots built.old state built.new result }
{
    let at = state.at;
    let level = state.level;
    let pen = state.pen;
    if event != 0 {
        return State {
            at,
            level: left(level, slots),
            pen,
        };
    }
    match at.item(log) {
        Found::Has(item, next) => {
            let load = load_of(item);
            let stored = fits(level, load.words, capacity);
            State {
                at: next,
                level: arrived(level, load, stored),
                pen: put(pen, built, level, item, stored),
            }
        }
        Found::End => state,
        Found::Wrong => state,
    }
}
