// join FIRST SECOND ROOM -> NUMBER VALUE MADE

use crate::answers::{Asked, made};
use crate::case::{BYTES, Fields};
use std::alloc::AllocError;

pub(crate) fn join(fields: &mut Fields<'_>, asked: &mut Fields<'_>) -> Result<String, AllocError> {
    let first = fields.run(BYTES)?;
    let second = fields.run(BYTES)?;
    let mut out = fields.room(BYTES)?;
    let answer = vinculampe::vin_join(&first, &second, &mut out);
    made("join", &Asked::new(asked)?, &answer, 0, answer.bytes, &out)
}
