// slots PLAN CAPTURE WORDS TIMES -> NUMBER VALUE MADE SECOND ENTRIES ROW

use crate::answers::{Asked, Row, made};
use crate::case::{BYTES, Fields, TIMES, WORDS};
use std::alloc::{AllocError, Global};

// Four bytes a word.
fn bytes_of_words(alloc: Global, words: &[u32]) -> Result<Vec<u8>, AllocError> {
    let mut bytes = Vec::new(alloc);
    for word in words {
        bytes.extend_from_slice(&word.to_be_bytes())?;
    }
    Ok(bytes)
}

pub(crate) fn slots(fields: &mut Fields<'_>, asked: &mut Fields<'_>) -> Result<String, AllocError> {
    let plan = fields.plan()?;
    let capture = fields.run(BYTES)?;
    let room = fields.size().min(WORDS);
    let mut words = vec![in fields.alloc; 0xA5A5A5A5; room]?;
    let mut times = fields.room(TIMES)?;
    let answer = vinculampe::vin_read_words(
        plan.words,
        plan.tracks,
        plan.frame_time,
        plan.crc,
        plan.parity,
        plan.crc_label,
        plan.fill_bus,
        &plan.kinds,
        &capture,
        &mut words,
        &mut times,
    );
    let what = Asked::new(asked)?;
    let second = asked.number();
    let row = Row::new(asked)?;
    let bytes = bytes_of_words(fields.alloc, &words)?;
    let mut reply = made(
        "slots",
        &what,
        &answer,
        second,
        answer.bytes.saturating_mul(4),
        &bytes,
    )?;
    row.say(&mut reply, answer.times, &times)?;
    Ok(reply)
}
