// The lines of the named cases: a line's first letter says what is to be done, its numbers stand behind a space each, and behind the
// last one whatever explains the line. A number that is not there is 0.

use crate::plans::{Label, Plan};
use case_text::Words;

// The answer that a call is to give: number 0 and the bytes written, or a refusal's number and place; and a second place, 0 of all
// answers but 13 (K8).
#[derive(Clone, Copy)]
pub(crate) struct Asked {
    pub(crate) number: u64,
    pub(crate) value: u64,
    pub(crate) second: u64,
}

#[derive(Clone, Copy)]
pub(crate) enum Line<'a> {
    // =NAME
    Name(&'a [u8]),
    // an empty line
    End,
    // #
    Comment,
    // p WORDS TRACKS FRAME_TIME CRC PARITY KINDS: a plan; KINDS has a hexadecimal digit a bus
    Plan(Plan),
    // k LENGTH: the plan with only so many kinds lent
    KindsLent(usize),
    // y LABEL BUS: the whole plan, with a label and a fill bus code
    Label(Label),
    // l: a log of zeros
    NoItems,
    // i COUNT WIDTH VALUE: so many runs of bits behind the log's others, each a number one greater than the one before
    Items {
        count: usize,
        width: u32,
        value: u64,
    },
    // t INDEX TIME: a frame time
    Time {
        index: usize,
        time: u64,
    },
    // f WORDS ALL: the capture's first words, frames of a sync word and the plan's fill
    Fill {
        words: usize,
        all: usize,
    },
    // n COUNT PLACE WORD: so many words from a place on, each one greater than the one before
    Words {
        count: usize,
        place: usize,
        word: u32,
    },
    // w WORD WORD WORD WORD: the words at places 1 to 4
    Four([u32; 4]),
    // v BYTE BITS: the byte's bits that are ones in BITS turned
    Turn {
        byte: usize,
        bits: u8,
    },
    // c LOG TIMES OUT NUMBER VALUE: composes so many bytes of log and times into the capture's first OUT
    Compose {
        log: usize,
        times: usize,
        out: usize,
        asked: Asked,
    },
    // r CAPTURE LOG TIMES NUMBER VALUE SECOND NUMBER VALUE SECOND: both readings of so many bytes of capture into so many of log and
    // times; the plain one's answer, and the closed one's
    Read {
        capture: usize,
        log: usize,
        times: usize,
        plain: Asked,
        closed: Asked,
    },
    // a letter that says nothing
    Unknown,
}

fn next_plan(words: &mut Words<'_>) -> Plan {
    let mut plan = Plan::new(
        words.small(),
        words.small(),
        words.small(),
        words.small(),
        words.small(),
    );
    let mut digits = words.number();
    for kind in plan.kinds.iter_mut().rev() {
        *kind = (digits % 16) as u8;
        digits /= 16;
    }
    plan
}

fn next_asked(words: &mut Words<'_>) -> Asked {
    Asked {
        number: words.number(),
        value: words.number(),
        second: words.number(),
    }
}

fn compose(words: &mut Words<'_>) -> Line<'static> {
    Line::Compose {
        log: words.size(),
        times: words.size(),
        out: words.size(),
        asked: Asked {
            number: words.number(),
            value: words.number(),
            second: 0,
        },
    }
}

fn read(words: &mut Words<'_>) -> Line<'static> {
    Line::Read {
        capture: words.size(),
        log: words.size(),
        times: words.size(),
        plain: next_asked(words),
        closed: next_asked(words),
    }
}

fn made(letter: u8, words: &mut Words<'_>) -> Line<'static> {
    match letter {
        b'l' => Line::NoItems,
        b'i' => Line::Items {
            count: words.size(),
            width: (words.number() % 65) as u32,
            value: words.number(),
        },
        b't' => Line::Time {
            index: words.size(),
            time: words.number(),
        },
        b'f' => Line::Fill {
            words: words.size(),
            all: words.size(),
        },
        b'n' => Line::Words {
            count: words.size(),
            place: words.size(),
            word: words.small(),
        },
        b'w' => Line::Four([words.small(), words.small(), words.small(), words.small()]),
        b'v' => Line::Turn {
            byte: words.size(),
            bits: (words.number() % 256) as u8,
        },
        _ => Line::Unknown,
    }
}

impl<'a> From<&'a [u8]> for Line<'a> {
    fn from(line: &'a [u8]) -> Line<'a> {
        let Some((&letter, behind)) = line.split_first() else {
            return Line::End;
        };
        let mut words = Words { rest: line };
        words.word();
        match letter {
            b'=' => Line::Name(behind),
            b'#' => Line::Comment,
            b'p' => Line::Plan(next_plan(&mut words)),
            b'k' => Line::KindsLent(words.size()),
            b'y' => Line::Label(Label {
                crc: words.small(),
                fill_bus: words.small(),
            }),
            b'c' => compose(&mut words),
            b'r' => read(&mut words),
            _ => made(letter, &mut words),
        }
    }
}
