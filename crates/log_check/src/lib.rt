// The one_bus test profile (document 02, K11): "a yes or the first item that breaks it".
#![tactic(auto)]

ghost use Rattle.std.specs.Prelude.{◌≡◌, ◌≤◌, [], length};
ghost use Rattle.format.specs.Answer.{refusal};
ghost use Rattle.format.specs.Log.{items, on_no_plan, parsed};
ghost use Rattle.log_rules.specs.Items.{items_of};
ghost use Rattle.log_rules.specs.Profile.{Judged, first_break, profile_answer};
ghost use Rattle.log_check.specs.Role.{nothing_seen};

mod item;
mod rules;

use format::Answer;
use item::role_of;
use log_read::{Cursor, Found, Tally, parse};
use rules::{after, passes};

// What the rules see of an item: its bus; whether it may stand anywhere (0), nowhere (1), is a command without a tag (2) or with
// one (3); a command's side and tag.
#[derive(Clone, Copy)]
pub struct Role {
    pub bus: u8,
    pub kind: u8,
    pub side: bool,
    pub time: u64,
}

// What the rules see of the items before: whether there are none; the bus of the last; whether it is a tagged command on A, on B;
// the last tag.
#[derive(Clone, Copy)]
pub struct Seen {
    pub first: bool,
    pub bus: u8,
    pub a: bool,
    pub b: bool,
    pub last: u64,
}

// No item yet.
fn nothing() -> Seen
    ensures { result ≡ nothing_seen }
{
    Seen {
        first: true,
        bus: 0,
        a: false,
        b: false,
        last: 0,
    }
}

fn answer(number: u32, place: usize) -> Answer
    ensures { result ≡ refusal number place 0 }
{
    Answer {
        number,
        place: place as u64,
        second: 0,
        bytes: 0,
        times: 0,
    }
}

// The items of a log that has no other fault, one by one.
fn judge(log: &[u8]) -> Answer
    requires log_len_bound { length log.now ≤ 32768 }
    requires log_value { parsed on_no_plan log.now ≡ items (items_of (parsed on_no_plan log.now)) }
    ensures { result ≡ profile_answer (first_break [] 0 (items_of (parsed on_no_plan log.now))) }
{
    let mut at = Cursor { at: 0, ahead: 0 };
    let mut seen = nothing();
    loop {
        let place = at.at;
        match at.item(log) {
            Found::Has(item, next) => {
                let role = role_of(item);
                if !passes(seen, role) {
                    return answer(18, place);
                }
                seen = after(seen, role);
                at = next;
            }
            Found::End => return answer(0, 0),
            Found::Wrong => return answer(0, 0),
        }
    }
}

// "Refusals: 2, 4 as in composing; then 18".
pub fn profile(log: &[u8]) -> Answer
    ensures { Judged log.now result }
{
    let tally = parse(log);
    match tally {
        Tally::Items { .. } => judge(log),
        Tally::Fault { number, place } => answer(number, place),
    }
}
