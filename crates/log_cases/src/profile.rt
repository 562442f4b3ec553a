// profile LOG -> NUMBER VALUE -

use crate::answers::{Asked, made};
use crate::case::{BYTES, Fields};
use std::alloc::AllocError;

pub(crate) fn profile(
    fields: &mut Fields<'_>,
    asked: &mut Fields<'_>,
) -> Result<String, AllocError> {
    let log = fields.run(BYTES)?;
    let answer = vinculampe::vin_profile(&log);
    made(
        "profile",
        &Asked::new(asked)?,
        &answer,
        0,
        answer.bytes,
        &[],
    )
}
