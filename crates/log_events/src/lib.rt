// What refuses a replay (document 02, K13) before it begins: 2 and 4, a mark in the log, a limit, the row of events.
#![tactic(auto)]

mod events;
mod refusals;

pub use refusals::refused_by;

// May a log be replayed, or what refuses it.
#[derive(Clone, Copy)]
pub enum Verdict {
    May,
    Not { number: u32, place: usize },
}
