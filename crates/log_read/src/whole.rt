// A whole log parsed.
ghost use Rattle.std.specs.Prelude.{◌≡◌, length};
ghost use Rattle.format.specs.Item.{item_words};
ghost use Rattle.format.specs.Log.{on_no_plan, parsed};
ghost use Rattle.log_read.specs.Tally.{tallied_of};

use crate::faults::fault_of;
use crate::{Cursor, Found, Tally};
use format::{Item, Response, Tag};

// How many words an item has.
fn words_of(item: Item) -> usize
    ensures { result ≡ length (item_words item) }
{
    match item {
        Item::Command { tag, .. } => match tag {
            Tag::Untagged => 1,
            Tag::At(_) => 4,
        },
        Item::Status { response, .. } => match response {
            Response::Untimed => 1,
            Response::After(_) => 2,
        },
        Item::Data { .. } => 1,
        Item::BusError { .. } => 1,
        Item::Arinc { tag, .. } => match tag {
            Tag::Untagged => 2,
            Tag::At(_) => 5,
        },
        Item::Notice { .. } => 1,
        Item::User { .. } => 1,
        Item::Overflow { .. } => 1,
    }
}

// The whole log with no plan: its length, then the items in order, each for 2 and 4.
pub fn parse(log: &[u8]) -> Tally
    ensures { result ≡ tallied_of (parsed on_no_plan log.now) }
{
    if 32768 < log.len() {
        return Tally::Fault {
            number: 2,
            place: 0,
        };
    }
    let mut at = Cursor { at: 0, ahead: 0 };
    let mut items: usize = 0;
    let mut words: usize = 0;
    loop {
        match at.item(log) {
            Found::Has(item, next) => {
                let number = fault_of(item);
                if number != 0 {
                    return Tally::Fault {
                        number,
                        place: at.at,
                    };
                }
                items += 1;
                words += words_of(item);
                at = next;
            }
            Found::End => return Tally::Items { items, words },
            Found::Wrong => return Tally::Fault {
                number: 2,
                place: at.at,
            },
        }
    }
}
