// A case's line: its fields, each behind a space. A run of bytes is hexadecimal: 80*3,00 is 80 80 80 00, and what is no digit in one, as
// the - of no bytes, is passed over. What would stand past the end of the room for a run is not written.

use case_text::{Words, digits};
use std::alloc::{AllocError, Global};

// Rooms for so many bytes, words or entries.
pub(crate) const BYTES: usize = 40000;

pub(crate) const STATE: usize = 8000;

pub(crate) const EVENTS: usize = 65600;

pub(crate) const TIMES: usize = 1024;

pub(crate) const KINDS: usize = 32;

pub(crate) const WORDS: usize = 10000;

pub(crate) const REPORT: usize = 128;

// The fields of a call, or those of the answer that is asked for.
#[derive(Drop)]
pub(crate) struct Fields<'a> {
    pub(crate) alloc: Global,
    words: Words<'a>,
}

// The whole plan of a call: seven numbers and the kinds.
#[derive(Drop)]
pub(crate) struct Plan {
    pub(crate) words: u32,
    pub(crate) tracks: u32,
    pub(crate) frame_time: u32,
    pub(crate) crc: u32,
    pub(crate) parity: u32,
    pub(crate) crc_label: u32,
    pub(crate) fill_bus: u32,
    pub(crate) kinds: Vec<u8>,
}

// A run as it is read.
#[derive(Drop)]
struct Run {
    bytes: Vec<u8>,
    // A byte's first digit, where the second has not come yet.
    high: Option<u8>,
    room: usize,
}

impl Run {
    fn put_digit(&mut self, digit: u8) -> Result<(), AllocError> {
        match self.high.take() {
            Some(high) => self.bytes.push(high << 4 | digit)?,
            None if self.bytes.len() < self.room.min(65536) => self.high = Some(digit),
            None => (),
        }
        Ok(())
    }

    fn put(&mut self, digits: &[u8]) -> Result<(), AllocError> {
        for &digit in digits {
            match digit {
                b'0'..=b'9' => self.put_digit(digit - b'0')?,
                b'A'..=b'F' => self.put_digit(digit - b'A' + 10)?,
                _ => (),
            }
        }
        Ok(())
    }

    // The bytes from a place on so often, as far as the room goes; each turn doubles what is there. A run of 65536 bytes or more is cut to
    // its first ones, as many as it has more than 65536.
    fn repeat(&mut self, from: usize, often: u64) -> Result<(), AllocError> {
        self.high = None;
        let len = self.bytes.len();
        let more = often.saturating_sub(1).min(self.room as u64) as usize;
        let all = len.saturating_sub(from).saturating_mul(more);
        let mut left = all.min(self.room.saturating_sub(len));
        for _ in 0..usize::BITS {
            let size = self.bytes.len().saturating_sub(from).min(left);
            if size == 0 {
                break;
            }
            self.bytes.extend_from_within(from..from + size)?;
            left -= size;
        }
        let len = self.bytes.len() % 65536;
        self.bytes.truncate(len);
        Ok(())
    }
}

fn run_of(alloc: Global, word: &[u8], room: usize) -> Result<Vec<u8>, AllocError> {
    let mut run = Run {
        bytes: Vec::new(alloc),
        high: None,
        room,
    };
    for part in word.split(|&byte| byte == b',') {
        let from = run.bytes.len();
        for (n, piece) in part.split(|&byte| byte == b'*').enumerate() {
            if n == 0 {
                run.put(piece)?;
            } else {
                run.repeat(from, digits(piece, 10))?;
                let number = piece
                    .iter()
                    .take_while(|byte| byte.is_ascii_digit())
                    .count();
                run.put(&piece[number..])?;
            }
        }
    }
    Ok(run.bytes)
}

impl<'a> Fields<'a> {
    // Those behind the first word.
    pub(crate) fn new(alloc: Global, text: &'a [u8]) -> Fields<'a> {
        let mut words = Words { rest: text };
        words.word();
        Fields { alloc, words }
    }

    pub(crate) fn word(&mut self) -> &'a [u8] {
        self.words.word()
    }

    pub(crate) fn number(&mut self) -> u64 {
        self.words.number()
    }

    pub(crate) fn small(&mut self) -> u32 {
        self.words.small()
    }

    pub(crate) fn size(&mut self) -> usize {
        self.words.size()
    }

    pub(crate) fn run(&mut self, room: usize) -> Result<Vec<u8>, AllocError> {
        run_of(self.alloc, self.words.word(), room)
    }

    // So many bytes to be lent for what is made, or all of a room if there are fewer: none of them is 0.
    pub(crate) fn room(&mut self, room: usize) -> Result<Vec<u8>, AllocError> {
        vec![in self.alloc; 0xA5; self.words.size().min(room)]
    }

    pub(crate) fn plan(&mut self) -> Result<Plan, AllocError> {
        Ok(Plan {
            words: self.small(),
            tracks: self.small(),
            frame_time: self.small(),
            crc: self.small(),
            parity: self.small(),
            crc_label: self.small(),
            fill_bus: self.small(),
            kinds: self.run(KINDS)?,
        })
    }
}
