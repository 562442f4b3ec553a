// A log looked at from its front to its end, for whatever needs to know only that it is good, and where its items end.
#![tactic(auto)]

ghost use Rattle.std.specs.Prelude.{◌≡◌, ◌≤◌, length};
ghost use Rattle.format.specs.Log.{on_no_plan, parsed};
ghost use Rattle.log_pass.specs.Pass.{Passing, pass_of};

use log_walk::{Piece, data_in, in_time, item_in, piece_at, window_in};

// The bit behind the last item of a log, or its first fault.
#[derive(Clone, Copy)]
pub enum Passed {
    All(usize),
    Fault { number: u32, place: usize },
}

// From a place on, the items that stand far from the log's end, as long as they are good: nothing is told here.
fn pass_run(log: &[u8], from: usize) -> usize
    requires { (length log.now ≤ 32768) × Passing log.now from }
    ensures { (from ≤ result) × Passing log.now result }
{
    let mut at = from;
    let stop = log.len() * 8;
    while at + 128 <= stop {
        let w = window_in(log, at);
        let kind = w >> 60;
        if kind == 3 {
            at += 25;
            continue;
        }
        if kind == 0 {
            break;
        }
        if 8 < kind {
            break;
        }
        let item = item_in(log, at, w);
        if !in_time(item) {
            break;
        }
        at += (item.first_bits + item.behind_bits) as usize;
    }
    at
}

// Every item of a log is looked at, for 2 and 4.
pub fn pass(log: &[u8]) -> Passed
    ensures { result ≡ pass_of (parsed on_no_plan log.now) }
{
    if 32768 < log.len() {
        return Passed::Fault {
            number: 2,
            place: 0,
        };
    }
    let mut from: usize = 0;
    loop {
        let at = pass_run(log, from);
        match piece_at(log, at) {
            Piece::Item(item) => {
                if !in_time(item) {
                    return Passed::Fault {
                        number: 4,
                        place: at,
                    };
                }
                from = at + (item.first_bits + item.behind_bits) as usize;
            }
            Piece::End => return Passed::All(at),
            Piece::Wrong => return Passed::Fault {
                number: 2,
                place: at,
            },
        }
    }
}
