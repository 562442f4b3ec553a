// pick BUSES LOG ROOM -> NUMBER VALUE MADE

use crate::answers::{Asked, made};
use crate::case::{BYTES, Fields};
use std::alloc::AllocError;

pub(crate) fn pick(fields: &mut Fields<'_>, asked: &mut Fields<'_>) -> Result<String, AllocError> {
    let buses = (fields.number() % 65536) as u16;
    let log = fields.run(BYTES)?;
    let mut out = fields.room(BYTES)?;
    let answer = vinculampe::vin_pick(&log, buses, &mut out);
    made("pick", &Asked::new(asked)?, &answer, 0, answer.bytes, &out)
}
