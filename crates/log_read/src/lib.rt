// The house log (document 01, "The house log"): fields taken at a bit cursor, items read, and a whole log parsed.
#![tactic(auto)]

mod bits;
mod faults;
mod fields;
mod item;
mod whole;

use format::Item;
pub use whole::parse;

// A bit cursor, by value: `at` bits of the log are behind it, and `ahead` begins with the next ones, highest first.
#[derive(Clone, Copy)]
pub struct Cursor {
    pub at: usize,
    pub ahead: u64,
}

// A field, and the cursor behind it.
#[derive(Clone, Copy)]
pub struct Took {
    pub field: u32,
    pub next: Cursor,
}

// The fields of an item, as the table has them: its kind and bus.
#[derive(Clone, Copy)]
pub struct Head {
    pub kind: u32,
    pub bus: u32,
    pub next: Cursor,
}

// Of a data word, a bus error, and a user word (its bit says which label).
#[derive(Clone, Copy)]
pub struct Sided {
    pub side: u32,
    pub word: u32,
    pub next: Cursor,
}

// Of a command (its mark says that a tag follows) and a status (that a response time follows).
#[derive(Clone, Copy)]
pub struct Marked {
    pub side: u32,
    pub mark: u32,
    pub word: u32,
    pub next: Cursor,
}

// Of an ARINC word.
#[derive(Clone, Copy)]
pub struct Channelled {
    pub channel: u32,
    pub mark: u32,
    pub word: u32,
    pub next: Cursor,
}

// Of an ARINC error notice.
#[derive(Clone, Copy)]
pub struct Noticed {
    pub channel: u32,
    pub diagnostics: u32,
    pub next: Cursor,
}

// Of a tag.
#[derive(Clone, Copy)]
pub struct Tagged {
    pub high: u32,
    pub low: u32,
    pub micro: u32,
    pub next: Cursor,
}

// What stands at a place: an item and the place behind it (nothing is ahead there yet), the end of the log, or neither.
#[derive(Clone, Copy)]
pub enum Found {
    Has(Item, Cursor),
    End,
    Wrong,
}

// A whole log: how many items it has and how many words they have, or its first fault.
#[derive(Clone, Copy)]
pub enum Tally {
    Items { items: usize, words: usize },
    Fault { number: u32, place: usize },
}
