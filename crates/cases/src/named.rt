// The named cases, line by line. The log, the times, the capture and the plan stay until a line changes them.

use crate::bits::{Bits, LOG, front, put_time, put_word};
use crate::captures::SYNC;
use crate::lines::{Asked, Line};
use crate::plans::{Outcome, Plan, Reading};
use std::alloc::{AllocError, Global};
use std::io;

#[derive(Drop)]
struct Bench {
    alloc: Global,
    plan: Plan,
    log: Bits,
    times: Vec<u8>,
    capture: Vec<u8>,
}

// "On success: number 0, place 0 and the lengths written": so many bytes. "A refusal returns number, place and lengths 0."
fn is_asked(outcome: &Outcome, asked: Asked) -> bool {
    let answer = outcome.answer;
    if u64::from(answer.number) != asked.number || answer.second != asked.second {
        return false;
    }
    if answer.number == 0 {
        answer.place == 0 && answer.bytes == asked.value
    } else {
        answer.place == asked.value && answer.bytes == 0 && answer.times == 0
    }
}

// A call's letter, its answer, and `differs` where that is not as it must be.
fn say(rt: &impl Print, letter: char, outcome: &Outcome, asked: Asked) -> io::Result<()> {
    print!(rt; " {letter}{outcome}")?;
    if !is_asked(outcome, asked) {
        print!(rt; " differs")?;
    }
    Ok(())
}

// Its bytes may be no text.
fn say_name(rt: &impl Print, name: &[u8]) -> io::Result<()> {
    rt.write_all(name)?;
    rt.write_all(b":")
}

impl Bench {
    fn new(alloc: Global) -> Result<Bench, AllocError> {
        Ok(Bench {
            alloc,
            plan: Plan::new(0, 0, 0, 0, 0),
            log: Bits::new(alloc),
            times: vec![in alloc; 0; 1024]?,
            capture: vec![in alloc; 0; 32768]?,
        })
    }

    fn put_items(&mut self, count: usize, width: u32, value: u64) -> Result<(), AllocError> {
        let mut value = value;
        for _ in 0..count {
            self.log.put(width.min(64), value)?;
            value = value % 0x8000000000000000 + 1;
        }
        Ok(())
    }

    fn put_fill(&mut self, words: usize, all: usize) {
        let fill = self.plan.fill();
        for place in 0..all {
            let starts_frame = words != 0 && place % words == 0;
            put_word(
                &mut self.capture,
                place,
                if starts_frame { SYNC } else { fill },
            );
        }
    }

    fn put_words(&mut self, count: usize, place: usize, word: u32) {
        let (mut place, mut word) = (place, word);
        for _ in 0..count {
            put_word(&mut self.capture, place, word);
            place = place % 65536 + 1;
            word = word % 0x1000000 + 1;
        }
    }

    fn put_four(&mut self, words: [u32; 4]) {
        for (n, word) in words.into_iter().enumerate() {
            put_word(&mut self.capture, n + 1, word);
        }
    }

    fn turn(&mut self, byte: usize, bits: u8) {
        if let Some(old) = self.capture.get_mut(byte) {
            *old ^= bits;
        }
    }

    // So many bytes of the log, zeros behind its items.
    fn compose(&mut self, log: usize, times: usize, out: usize) -> Result<Outcome, AllocError> {
        self.log.lengthen(log.min(LOG))?;
        let room = out.min(self.capture.len());
        Ok(
            self.plan.compose(
                front(&self.log.bytes, log),
                front(&self.times, times),
                &mut self.capture[..room],
            ),
        )
    }

    fn read(
        &self,
        reading: Reading,
        capture: usize,
        log: usize,
        times: usize,
    ) -> Result<Outcome, AllocError> {
        let capture = front(&self.capture, capture);
        let (log, times) = (log.min(LOG), times.min(self.times.len()));
        self.plan.read(self.alloc, reading, capture, log, times)
    }

    fn run(&mut self, rt: &impl Print, line: Line<'_>) -> io::Result<()> {
        match line {
            Line::Name(name) => say_name(rt, name)?,
            Line::End => rt.write_all(b"\n")?,
            Line::Comment => (),
            Line::Plan(plan) => self.plan = plan,
            Line::KindsLent(count) => self.plan.kinds_len = count,
            Line::Label(label) => self.plan.label = Some(label),
            Line::NoItems => self.log = Bits::new(self.alloc),
            Line::Items {
                count,
                width,
                value,
            } => self.put_items(count, width, value)?,
            Line::Time { index, time } => put_time(&mut self.times, index, time),
            Line::Fill { words, all } => self.put_fill(words, all),
            Line::Words { count, place, word } => self.put_words(count, place, word),
            Line::Four(words) => self.put_four(words),
            Line::Turn { byte, bits } => self.turn(byte, bits),
            Line::Compose {
                log,
                times,
                out,
                asked,
            } => {
                let composed = self.compose(log, times, out)?;
                say(rt, 'c', &composed, asked)?;
            }
            Line::Read {
                capture,
                log,
                times,
                plain,
                closed,
            } => {
                let read = self.read(Reading::Plain, capture, log, times)?;
                say(rt, 'r', &read, plain)?;
                let read = self.read(Reading::Closed, capture, log, times)?;
                say(rt, 'x', &read, closed)?;
            }
            // It is no case: it is told.
            Line::Unknown => rt.write_all(b" unknown")?,
        }
        Ok(())
    }
}

pub(crate) fn named_cases(rt: &impl Print, alloc: Global, text: &[u8]) -> io::Result<()> {
    let mut bench = Bench::new(alloc)?;
    for line in text.split_inclusive(|&byte| byte == b'\n') {
        let line = line.strip_suffix(b"\n").unwrap_or(line);
        bench.run(rt, Line::from(line))?;
    }
    Ok(())
}
