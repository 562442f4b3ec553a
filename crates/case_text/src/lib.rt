// What the two programs of cases have in common: a digest of what was lent for a call, and the words and numbers of a line.
#![tactic(auto)]

mod digest;
mod numbers;
mod words;

pub use digest::{digest_of, folded};
pub use numbers::{digits, number};
pub use words::Words;
