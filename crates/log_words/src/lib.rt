// The words of a log's items (document 01, "Items and their words"), put into a row as the log is parsed.
#![tactic(auto)]

ghost use Rattle.std.specs.Prelude.{◌+◌, ◌*◌, ◌≤◌, length};
ghost use Rattle.log_words.specs.Row.{LaysLog};

use crate::item::lay_item;
use format::Kind;
use log_read::{Cursor, Tally};

mod item;
mod put;

// "the items in order, each for 2, 3, 4"; the row begins with their words, all of them or those up to the first fault.
// The cursor is filled at one place, and the end mark is looked at last: of all items it is the rarest.
pub fn lay(kinds: [Kind; 16], log: &[u8], words: &mut [u32]) -> Tally
    requires { (length log.now ≤ 32768) × (length log.now * 8 + 85 ≤ 17 * length words.old) }
    ensures { LaysLog kinds log.now words.old words.new result }
{
    let total = log.len() * 8;
    let mut at = Cursor { at: 0, ahead: 0 };
    let mut items: usize = 0;
    let mut count: usize = 0;
    loop {
        let from = at.filled(log);
        let head = from.head();
        let laid = lay_item(words, log, kinds[head.bus as usize], head, count);
        if laid.number != 0 {
            if from.ends(total) {
                return Tally::Items {
                    items,
                    words: count,
                };
            }
            return Tally::Fault {
                number: laid.number as u32,
                place: at.at,
            };
        }
        at = Cursor {
            at: laid.at,
            ahead: 0,
        };
        count = laid.count;
        items += 1;
    }
}
