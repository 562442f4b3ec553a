// items PLAN WORDS ROOM -> NUMBER VALUE MADE SECOND

use crate::answers::{Asked, made};
use crate::case::{BYTES, Fields, WORDS};
use std::alloc::{AllocError, Global};

// Of four bytes each.
fn words_of(alloc: Global, bytes: &[u8]) -> Result<Vec<u32>, AllocError> {
    let mut words = Vec::new(alloc);
    for word in bytes.chunks_exact(4).take(WORDS) {
        if let &[first, second, third, last] = word {
            words.push(u32::from_be_bytes([first, second, third, last]))?;
        }
    }
    Ok(words)
}

pub(crate) fn items(fields: &mut Fields<'_>, asked: &mut Fields<'_>) -> Result<String, AllocError> {
    let plan = fields.plan()?;
    let words = words_of(fields.alloc, &fields.run(BYTES)?)?;
    let mut out = fields.room(BYTES)?;
    let answer = vinculampe::vin_read_items(
        plan.words,
        plan.tracks,
        plan.frame_time,
        plan.crc,
        plan.parity,
        plan.crc_label,
        plan.fill_bus,
        &plan.kinds,
        &words,
        &mut out,
    );
    let what = Asked::new(asked)?;
    let second = asked.number();
    made("items", &what, &answer, second, answer.bytes, &out)
}
