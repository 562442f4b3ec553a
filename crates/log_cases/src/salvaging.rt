// salvage PLAN CAPTURE LOG TIMES REPORT -> NUMBER VALUE MADE SECOND ENTRIES ROW NAMED LOST

use crate::answers::{Asked, Row, Shown, unless};
use crate::case::{BYTES, Fields, REPORT, TIMES};
use case_text::digest_of;
use format::Answer;
use std::alloc::{AllocError, Global};

// Eight bytes an entry.
fn bytes_of_entries(alloc: Global, entries: &[u64]) -> Result<Vec<u8>, AllocError> {
    let mut bytes = Vec::new(alloc);
    for entry in entries {
        bytes.extend_from_slice(&entry.to_be_bytes())?;
    }
    Ok(bytes)
}

pub(crate) fn salvage(
    fields: &mut Fields<'_>,
    asked: &mut Fields<'_>,
) -> Result<String, AllocError> {
    let plan = fields.plan()?;
    let capture = fields.run(BYTES)?;
    let mut log = fields.room(BYTES)?;
    let mut times = fields.room(TIMES)?;
    let room = fields.size().min(REPORT);
    let mut report = vec![in fields.alloc; 0xA5A5A5A5A5A5A5A5; room]?;
    let salvaged = vinculampe::vin_salvage(
        plan.words,
        plan.tracks,
        plan.frame_time,
        plan.crc,
        plan.parity,
        plan.crc_label,
        plan.fill_bus,
        &plan.kinds,
        &capture,
        &mut log,
        &mut times,
        &mut report,
    );
    let answer = Answer {
        number: salvaged.number,
        place: salvaged.place,
        second: salvaged.second,
        bytes: salvaged.bytes,
        times: salvaged.times,
    };
    let what = Asked::new(asked)?;
    let second = asked.number();
    let row = Row::new(asked)?;
    let lost = Row::new(asked)?;
    // A refusal names nothing.
    let named = answer.number == 0 || salvaged.entries == 0;
    let mut reply = format!(in fields.alloc;
        "salvage{} {} {}{}{}",
        Shown(answer),
        salvaged.entries,
        digest_of(&log),
        unless(answer.second == second && what.is_answer(&answer) && named),
        unless(what.is_made(answer.bytes, &log)),
    )?;
    row.say(&mut reply, answer.times, &times)?;
    let report = bytes_of_entries(fields.alloc, &report)?;
    lost.say(&mut reply, salvaged.entries, &report)?;
    Ok(reply)
}
