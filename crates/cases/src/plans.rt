// A plan by its numbers, as C lends them, and the calls: composing and both readings. What is lent for an answer holds A5.

use case_text::{digest_of, folded};
use format::Answer;
use std::alloc::{AllocError, Global};
use std::fmt;

// K5: the CRC word's label and the fill bus code, for the functions that take the whole plan.
#[derive(Clone, Copy)]
pub(crate) struct Label {
    pub(crate) crc: u32,
    pub(crate) fill_bus: u32,
}

#[derive(Clone, Copy)]
pub(crate) struct Plan {
    pub(crate) words: u32,
    pub(crate) tracks: u32,
    pub(crate) frame_time: u32,
    pub(crate) crc: u32,
    pub(crate) parity: u32,
    // None: the functions that take none are called.
    pub(crate) label: Option<Label>,
    pub(crate) kinds: [u8; 16],
    // So many of the kinds are lent.
    pub(crate) kinds_len: usize,
}

#[derive(Clone, Copy)]
pub(crate) enum Reading {
    Plain,
    Closed,
}

// An answer, and the digests of the lent buffers: out and 0, or log and times.
#[derive(Clone, Copy)]
pub(crate) struct Outcome {
    pub(crate) answer: Answer,
    first: u64,
    second: u64,
}

impl Plan {
    // Of no used bus.
    pub(crate) fn new(words: u32, tracks: u32, frame_time: u32, crc: u32, parity: u32) -> Plan {
        Plan {
            words,
            tracks,
            frame_time,
            crc,
            parity,
            label: None,
            kinds: [0; 16],
            kinds_len: 16,
        }
    }

    // 3 and 0 of a plan without.
    pub(crate) fn label_or_usual(&self) -> Label {
        self.label.unwrap_or(Label {
            crc: 3,
            fill_bus: 0,
        })
    }

    // 0 of a bus that there is not.
    pub(crate) fn kind_at(&self, bus: u32) -> u8 {
        self.kinds.get(bus as usize).copied().unwrap_or(0)
    }

    fn lent_kinds(&self) -> &[u8] {
        &self.kinds[..self.kinds_len.min(16)]
    }

    fn answer_of_composing(&self, log: &[u8], times: &[u8], out: &mut [u8]) -> Answer {
        match self.label {
            None => vinculampe::vin_compose(
                self.words,
                self.tracks,
                self.frame_time,
                self.crc,
                self.parity,
                self.lent_kinds(),
                log,
                times,
                out,
            ),
            Some(label) => vinculampe::vin_compose_full(
                self.words,
                self.tracks,
                self.frame_time,
                self.crc,
                self.parity,
                label.crc,
                label.fill_bus,
                self.lent_kinds(),
                log,
                times,
                out,
            ),
        }
    }

    pub(crate) fn compose(&self, log: &[u8], times: &[u8], out: &mut [u8]) -> Outcome {
        out.fill(0xA5);
        let answer = self.answer_of_composing(log, times, out);
        Outcome {
            answer,
            first: digest_of(out),
            second: 0,
        }
    }

    fn answer_of_reading(
        &self,
        reading: Reading,
        capture: &[u8],
        log: &mut [u8],
        times: &mut [u8],
    ) -> Answer {
        match (reading, self.label) {
            (Reading::Plain, None) => vinculampe::vin_read(
                self.words,
                self.tracks,
                self.frame_time,
                self.crc,
                self.parity,
                self.lent_kinds(),
                capture,
                log,
                times,
            ),
            (Reading::Closed, None) => vinculampe::vin_read_closed(
                self.words,
                self.tracks,
                self.frame_time,
                self.crc,
                self.parity,
                self.lent_kinds(),
                capture,
                log,
                times,
            ),
            (Reading::Plain, Some(label)) => vinculampe::vin_read_full(
                self.words,
                self.tracks,
                self.frame_time,
                self.crc,
                self.parity,
                label.crc,
                label.fill_bus,
                self.lent_kinds(),
                capture,
                log,
                times,
            ),
            (Reading::Closed, Some(label)) => vinculampe::vin_read_closed_full(
                self.words,
                self.tracks,
                self.frame_time,
                self.crc,
                self.parity,
                label.crc,
                label.fill_bus,
                self.lent_kinds(),
                capture,
                log,
                times,
            ),
        }
    }

    // Into so many bytes of log and times.
    pub(crate) fn read(
        &self,
        alloc: Global,
        reading: Reading,
        capture: &[u8],
        log_len: usize,
        times_len: usize,
    ) -> Result<Outcome, AllocError> {
        let mut log = vec![in alloc; 0xA5; log_len]?;
        let mut times = vec![in alloc; 0xA5; times_len]?;
        let answer = self.answer_of_reading(reading, capture, &mut log, &mut times);
        Ok(Outcome {
            answer,
            first: digest_of(&log),
            second: digest_of(&times),
        })
    }
}

impl Outcome {
    pub(crate) fn fold_into(&self, digest: u64) -> u64 {
        let answer = self.answer;
        [
            u64::from(answer.number),
            answer.place,
            answer.second,
            answer.bytes,
            answer.times,
            self.first,
            self.second,
        ]
        .iter()
        .fold(digest, |digest, &value| folded(digest, value))
    }
}

impl fmt::Display for Outcome {
    fn fmt<W: fmt::Write>(&self, f: &mut fmt::Formatter<W>) -> fmt::Result {
        let Answer {
            number,
            place,
            second,
            bytes,
            times,
        } = self.answer;
        let digests = (self.first, self.second);
        write!(
            f,
            " {number} {place} {second} {bytes} {times} {} {}",
            digests.0, digests.1
        )
    }
}
