// shift MICROSECONDS LOG TIMES ROOM -> NUMBER VALUE MADE ENTRIES ROW

use crate::answers::{Asked, Row, made, unless};
use crate::case::{BYTES, Fields, TIMES};
use case_text::{digest_of, digits};
use std::alloc::AllocError;

// The greatest or the least number where there is none so great or small.
fn signed(word: &[u8]) -> i64 {
    match word {
        [b'-', rest @ ..] => 0i64.saturating_sub_unsigned(digits(rest, 10)),
        _ => i64::try_from(digits(word, 10)).unwrap_or(i64::MAX),
    }
}

pub(crate) fn shift(fields: &mut Fields<'_>, asked: &mut Fields<'_>) -> Result<String, AllocError> {
    let microseconds = signed(fields.word());
    let log = fields.run(BYTES)?;
    let mut times = fields.run(TIMES)?;
    let mut out = fields.room(BYTES)?;
    let answer = vinculampe::vin_shift(&log, microseconds, &mut times, &mut out);
    let mut reply = made("shift", &Asked::new(asked)?, &answer, 0, answer.bytes, &out)?;
    let row = Row::new(asked)?;
    write!(
        reply,
        " {}{}",
        digest_of(&times),
        unless(row.is_whole(answer.times, &times))
    )?;
    Ok(reply)
}
