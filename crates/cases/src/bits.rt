// What cases are made of: a log by bits, and a capture by words.

ghost use Rattle.std.specs.Prelude.{◌≤◌};

use std::alloc::{AllocError, Global};

// A log has room for so many bytes; bits past its end are not written.
pub(crate) const LOG: usize = 32769;

// And for so many bits.
const FULL: u32 = 262152;

// Bytes that are written bit by bit, most significant first.
#[derive(Drop)]
pub(crate) struct Bits {
    // Behind the bits that are written they are zeros.
    pub(crate) bytes: Vec<u8>,
    // So many bits are written.
    written: u32,
    ghost in_room: { written ≤ 262152 },
}

impl Bits {
    pub(crate) fn new(alloc: Global) -> Bits {
        Bits {
            bytes: Vec::new(alloc),
            written: 0,
        }
    }

    fn put_bit(&mut self, one: bool) -> Result<(), AllocError> {
        if FULL <= self.written {
            return Ok(());
        }
        let at = (self.written / 8) as usize;
        if self.bytes.len() <= at {
            self.bytes.push(0)?;
        }
        if let Some(byte) = self.bytes.get_mut(at) {
            *byte |= u8::from(one) << (7 - self.written % 8);
        }
        self.written += 1;
        Ok(())
    }

    // The low bits of a number; a full log takes none, however many are asked for.
    pub(crate) fn put(&mut self, width: u32, value: u64) -> Result<(), AllocError>
        requires { width ≤ 64 }
    {
        if FULL <= self.written {
            return Ok(());
        }
        for bit in (0..width).rev() {
            self.put_bit(value >> bit & 1 == 1)?;
        }
        Ok(())
    }

    // Zeros behind what is written, to so many bytes or more, so that they can be lent.
    pub(crate) fn lengthen(&mut self, size: usize) -> Result<(), AllocError> {
        if self.bytes.len() < size {
            self.bytes.resize(size, 0)?;
        }
        Ok(())
    }

    // A log's bytes, ended.
    pub(crate) fn ended(mut self) -> Result<Vec<u8>, AllocError> {
        self.put(4, 0)?;
        let len = self.written.div_ceil(8) as usize;
        self.bytes.truncate(len);
        Ok(self.bytes)
    }
}

// So many bytes, or all if there are fewer.
pub(crate) fn front(bytes: &[u8], size: usize) -> &[u8] {
    &bytes[..size.min(bytes.len())]
}

// The word at a place, or 0 where none stands whole.
pub(crate) fn word_at(capture: &[u8], place: usize) -> u32 {
    let from = capture.len().min(place.saturating_mul(3));
    match &capture[from..] {
        &[first, second, third, ..] => u32::from_be_bytes([0, first, second, third]),
        _ => 0,
    }
}

// A word of three bytes.
pub(crate) fn word_bytes(word: u32) -> [u8; 3] {
    let [_, first, second, third] = word.to_be_bytes();
    [first, second, third]
}

// Nothing past the end: where the new bytes cross it, only the first of them.
fn put_bytes(bytes: &mut [u8], place: usize, new: &[u8]) {
    let from = bytes.len().min(place.saturating_mul(new.len()));
    for (byte, &new) in bytes[from..].iter_mut().zip(new) {
        *byte = new;
    }
}

pub(crate) fn put_word(capture: &mut [u8], place: usize, word: u32) {
    put_bytes(capture, place, &word_bytes(word));
}

// A frame time.
pub(crate) fn put_time(times: &mut [u8], index: usize, time: u64) {
    put_bytes(times, index, &time.to_be_bytes());
}
