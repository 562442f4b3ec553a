// Pseudo-random captures: composed ones damaged, and noise.

ghost use Rattle.std.specs.Prelude.{◌<◌};

use crate::bits::{put_word, word_at, word_bytes};
use crate::draws::Draws;
use crate::plans::Plan;
use std::alloc::{AllocError, Global};

pub(crate) const SYNC: u32 = 0xFAF320;

fn odd_parity(bits: u32) -> u32 {
    if bits.count_ones() % 2 == 0 {
        bits ^ 0x800000
    } else {
        bits
    }
}

// Often what fill, a micro or a response has.
fn shaped(information: u32, shape: u32) -> u32
    requires { information < 65536 }
    ensures { result < 65536 }
{
    match shape {
        0 => 0xAAAA,
        1 => information % 12000,
        _ => information,
    }
}

impl Plan {
    fn fill_bits(&self) -> u32 {
        self.label_or_usual().fill_bus % 16 * 0x100000 + 0x01AAAA
    }

    fn with_parity(&self, bits: u32) -> u32 {
        if self.parity == 1 {
            odd_parity(bits)
        } else {
            bits
        }
    }

    // The plan's fill.
    pub(crate) fn fill(&self) -> u32 {
        self.with_parity(self.fill_bits())
    }
}

impl Draws {
    // The plan's fill, or a word that is often lawful on a used bus; on bus 0 if none is used.
    fn bits(&mut self, plan: &Plan) -> u32 {
        let bus = self.bus(plan).unwrap_or(0);
        let label = self.below(16);
        let information = self.below(65536);
        let shape = self.below(4);
        if self.one_in(3) {
            return plan.fill_bits();
        }
        bus % 16 * 0x100000 + label * 0x10000 + shaped(information, shape)
    }

    fn word(&mut self, plan: &Plan) -> u32 {
        let bits = self.bits(plan);
        plan.with_parity(bits)
    }

    // A word drawn, noise, fill on bus 0, a bit turned, another word, or another label.
    fn damaged(&mut self, plan: &Plan, old: u32, other: u32) -> u32 {
        match self.below(6) {
            0 => self.word(plan),
            1 => self.below(0x1000000),
            2 => 0x01AAAA,
            3 => old ^ (1 << self.below(24)),
            4 => other,
            _ => old ^ 0x030000,
        }
    }

    // Often one of the first three: sync, and a frame time's words where there is one.
    fn word_place(&mut self, words: usize) -> usize {
        if self.one_in(6) {
            return self.below(3) as usize;
        }
        self.place(words)
    }

    fn damage_once(&mut self, plan: &Plan, capture: &mut [u8]) {
        let words = capture.len() / 3;
        let place = self.word_place(words);
        let other = self.word_place(words);
        let word = self.damaged(plan, word_at(capture, place), word_at(capture, other));
        put_word(capture, place, word);
    }

    // With faults, one to three damages, if there is a word.
    pub(crate) fn damage(&mut self, plan: &Plan, capture: &mut [u8]) {
        if self.faults && 3 <= capture.len() {
            for _ in 0..1 + self.below(3) {
                self.damage_once(plan, capture);
            }
        }
    }

    // Sync, three drawn words, and fill.
    fn noise_word(&mut self, plan: &Plan, position: u32) -> u32 {
        match position {
            0 => SYNC,
            1..=3 => self.word(plan),
            _ => plan.fill(),
        }
    }

    // One to eight frames of a plan without frame time and CRC.
    pub(crate) fn noise(&mut self, alloc: Global, plan: &Plan) -> Result<Vec<u8>, AllocError> {
        let mut capture = Vec::new(alloc);
        for _ in 0..1 + self.below(8) {
            for position in 0..plan.words {
                let word = self.noise_word(plan, position);
                capture.extend_from_slice(&word_bytes(word))?;
            }
        }
        Ok(capture)
    }
}
