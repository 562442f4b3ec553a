// replay LOG EVENTS CAPACITY SLOTS ROOM -> NUMBER VALUE MADE SENT LOST HELD

use crate::answers::{Asked, unless};
use crate::case::{BYTES, EVENTS, Fields};
use case_text::digest_of;
use log_rules::Replayed;
use std::alloc::AllocError;

// "words sent, items lost, words held"
#[derive(Clone, Copy, PartialEq, Eq)]
struct Counts {
    sent: u64,
    lost: u64,
    held: u64,
}

impl Counts {
    fn new(asked: &mut Fields<'_>) -> Counts {
        Counts {
            sent: asked.number(),
            lost: asked.number(),
            held: asked.number(),
        }
    }
}

// Done, so many bytes and counts; a refusal's place, and every length and count 0.
fn is_asked(a: &Replayed, asked: &Asked, counts: Counts) -> bool {
    let given = Counts {
        sent: a.sent,
        lost: a.lost,
        held: a.held,
    };
    if u64::from(a.number) != asked.number || a.second != 0 {
        return false;
    }
    if a.number == 0 {
        a.place == 0 && a.bytes == asked.value && given == counts
    } else {
        let none = Counts {
            sent: 0,
            lost: 0,
            held: 0,
        };
        a.place == asked.value && a.bytes == 0 && given == none
    }
}

pub(crate) fn replay(
    fields: &mut Fields<'_>,
    asked: &mut Fields<'_>,
) -> Result<String, AllocError> {
    let log = fields.run(BYTES)?;
    let events = fields.run(EVENTS)?;
    let capacity = fields.small();
    let slots = fields.small();
    let mut out = fields.room(BYTES)?;
    let answer = vinculampe::vin_replay(&log, &events, capacity, slots, &mut out);
    let what = Asked::new(asked)?;
    let counts = Counts::new(asked);
    let Replayed {
        number,
        place,
        second,
        bytes,
        sent,
        lost,
        held,
    } = answer;
    Ok(format!(in fields.alloc;
        "replay {number} {place} {second} {bytes} {sent} {lost} {held} {}{}{}",
        digest_of(&out),
        unless(is_asked(&answer, &what, counts)),
        unless(what.is_made(bytes, &out)),
    )?)
}
