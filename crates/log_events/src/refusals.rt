// What refuses a replay before it begins: 2, 4, 19.
ghost use Rattle.std.specs.Prelude.{◌≡◌, ◌≤◌, length};
ghost use Rattle.format.specs.Log.{items, on_no_plan, parsed};
ghost use Rattle.log_rules.specs.Items.{items_of};
ghost use Rattle.log_rules.specs.Replay.{first_mark};
ghost use Rattle.log_events.specs.Refused.{first_of, judged_by, refused_by, verdict_of};

use crate::Verdict;
use crate::events::in_bounds;
use log_buffer::load_of;
use log_read::{Cursor, Found, Tally, parse};

// "first for a mark in the log (its first bit)"
fn first_mark(log: &[u8]) -> Verdict
    requires log_len_bound { length log.now ≤ 32768 }
    requires log_value { parsed on_no_plan log.now ≡ items (items_of (parsed on_no_plan log.now)) }
    ensures { result ≡ verdict_of (first_mark 0 (items_of (parsed on_no_plan log.now))) }
{
    let mut at = Cursor { at: 0, ahead: 0 };
    loop {
        let place = at.at;
        match at.item(log) {
            Found::Has(item, next) => {
                if load_of(item).mark {
                    return Verdict::Not { number: 19, place };
                }
                at = next;
            }
            Found::End => return Verdict::May,
            Found::Wrong => return Verdict::May,
        }
    }
}

// "then for a limit broken, an event of neither kind or more arrivals than items (place 0)"
fn first_of(mark: Verdict, bounded: bool) -> Verdict
    ensures { result ≡ first_of mark bounded }
{
    if bounded {
        return mark;
    }
    match mark {
        Verdict::May => Verdict::Not {
            number: 19,
            place: 0,
        },
        Verdict::Not { number, place } => Verdict::Not { number, place },
    }
}

fn judge(log: &[u8], events: &[u8], capacity: u32, slots: u32, count: usize) -> Verdict
    requires log_len_bound { length log.now ≤ 32768 }
    requires log_value { parsed on_no_plan log.now ≡ items (items_of (parsed on_no_plan log.now)) }
    ensures { result ≡ verdict_of (judged_by events.now capacity slots (items_of (parsed on_no_plan log.now)) count) }
{
    let mark = first_mark(log);
    first_of(mark, in_bounds(events, capacity, slots, count))
}

pub fn refused_by(log: &[u8], events: &[u8], capacity: u32, slots: u32) -> Verdict
    ensures { result ≡ verdict_of (refused_by events.now capacity slots (parsed on_no_plan log.now)) }
{
    match parse(log) {
        Tally::Items { items, .. } => judge(log, events, capacity, slots, items),
        Tally::Fault { number, place } => Verdict::Not { number, place },
    }
}
