// What is asked for of a call, and what is said of it: its answer, a digest of what was lent for it, and `differs` where it is not as
// asked for.

use crate::case::{BYTES, Fields, TIMES};
use case_text::digest_of;
use format::Answer;
use std::alloc::{AllocError, Global};
use std::fmt;

pub(crate) fn unless(good: bool) -> &'static str {
    if good { "" } else { " differs" }
}

// A number, a place, a second place and two lengths.
#[derive(Clone, Copy)]
pub(crate) struct Shown(pub(crate) Answer);

impl fmt::Display for Shown {
    fn fmt<W: fmt::Write>(&self, f: &mut fmt::Formatter<W>) -> fmt::Result {
        let Answer {
            number,
            place,
            second,
            bytes,
            times,
        } = self.0;
        write!(f, " {number} {place} {second} {bytes} {times}")
    }
}

// NUMBER VALUE MADE, or NUMBER PLACE MADE
#[derive(Drop)]
pub(crate) struct Asked {
    alloc: Global,
    pub(crate) number: u64,
    pub(crate) value: u64,
    made: Vec<u8>,
}

// ENTRIES ROW, eight bytes an entry
#[derive(Drop)]
pub(crate) struct Row {
    entries: u64,
    bytes: Vec<u8>,
}

impl Asked {
    pub(crate) fn new(asked: &mut Fields<'_>) -> Result<Asked, AllocError> {
        Ok(Asked {
            alloc: asked.alloc,
            number: asked.number(),
            value: asked.number(),
            made: asked.run(BYTES)?,
        })
    }

    // "On success: number 0, place 0 and the lengths written": so many bytes. "A refusal returns number, place and lengths 0."
    pub(crate) fn is_answer(&self, a: &Answer) -> bool {
        if u64::from(a.number) != self.number {
            false
        } else if a.number == 0 {
            a.place == 0 && a.bytes == self.value
        } else {
            a.place == self.value && a.bytes == 0 && a.times == 0
        }
    }

    // Whether so many bytes were written, and these.
    pub(crate) fn is_made(&self, bytes: u64, out: &[u8]) -> bool {
        bytes == self.made.len() as u64 && out.starts_with(&self.made)
    }
}

impl Row {
    pub(crate) fn new(asked: &mut Fields<'_>) -> Result<Row, AllocError> {
        Ok(Row {
            entries: asked.number(),
            bytes: asked.run(TIMES)?,
        })
    }

    // Whether so many entries were counted, and the row begins with these.
    fn is_begun(&self, entries: u64, row: &[u8]) -> bool {
        entries == self.entries && row.starts_with(&self.bytes)
    }

    // Whether it also holds no byte more.
    pub(crate) fn is_whole(&self, entries: u64, row: &[u8]) -> bool {
        self.is_begun(entries, row) && row.len() == self.bytes.len()
    }

    // The row's digest, and whether it is as asked for.
    pub(crate) fn say(
        &self,
        reply: &mut String,
        entries: u64,
        row: &[u8],
    ) -> Result<(), AllocError> {
        write!(
            reply,
            " {}{}",
            digest_of(row),
            unless(self.is_begun(entries, row))
        )
    }
}

// A call that gives back bytes: its answer, and what it wrote into what was lent for it. `second` is asked for as the second place.
pub(crate) fn made(
    name: &str,
    asked: &Asked,
    answer: &Answer,
    second: u64,
    bytes: u64,
    out: &[u8],
) -> Result<String, AllocError> {
    Ok(format!(in asked.alloc;
        "{name}{} {}{}{}",
        Shown(*answer),
        digest_of(out),
        unless(answer.second == second && asked.is_answer(answer)),
        unless(asked.is_made(bytes, out)),
    )?)
}
