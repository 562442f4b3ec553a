// cut PLAN CAPTURE FIRST LOG TIMES -> NUMBER PLACE MADE SECOND ENTRIES ROW
// add STATE PIECE LOG TIMES -> NUMBER PLACE MADE SECOND ENTRIES ROW
// end STATE LOG -> NUMBER PLACE MADE SECOND

use crate::answers::{Asked, Row, Shown, unless};
use crate::case::{BYTES, Fields, STATE, TIMES};
use case_text::digest_of;
use format::Answer;
use std::alloc::AllocError;

// The answer asked for, and the log: a refusal may have both.
#[derive(Drop)]
struct Handed {
    what: Asked,
    second: u64,
}

impl Handed {
    fn new(asked: &mut Fields<'_>) -> Result<Handed, AllocError> {
        Ok(Handed {
            what: Asked::new(asked)?,
            second: asked.number(),
        })
    }

    fn is_answer(&self, a: &Answer) -> bool {
        u64::from(a.number) == self.what.number
            && a.place == self.what.value
            && a.second == self.second
    }

    fn say(
        &self,
        reply: &mut String,
        a: &Answer,
        bytes: u64,
        log: &[u8],
    ) -> Result<(), AllocError> {
        write!(
            reply,
            " {}{}{}",
            digest_of(log),
            unless(self.is_answer(a)),
            unless(self.what.is_made(bytes, log))
        )
    }
}

// So many bytes of a room behind those that are used.
fn behind(room: &mut [u8], used: u64, size: usize) -> &mut [u8] {
    let from = room.len().min(used as usize);
    let end = room.len().min(from.saturating_add(size));
    &mut room[from..end]
}

// A capture's first bytes fed, then the rest. What the calls hand out stands one behind the other, each with the rooms that the line
// says.
pub(crate) fn cut(fields: &mut Fields<'_>, asked: &mut Fields<'_>) -> Result<String, AllocError> {
    let plan = fields.plan()?;
    let capture = fields.run(BYTES)?;
    let first_len = fields.size();
    let log_len = fields.size();
    let times_len = fields.size();
    let mut log = vec![in fields.alloc; 0xA5; BYTES]?;
    let mut times = vec![in fields.alloc; 0xA5; TIMES]?;
    let mut state = vec![in fields.alloc; 0; 7168]?;
    let opened = vinculampe::vin_stream_open(
        plan.words,
        plan.tracks,
        plan.frame_time,
        plan.crc,
        plan.parity,
        plan.crc_label,
        plan.fill_bus,
        &plan.kinds,
        &mut state,
    );
    let (front, rest) = capture.split_at(first_len.min(capture.len()));
    let first = vinculampe::vin_stream_feed(
        &mut state,
        front,
        behind(&mut log, 0, log_len),
        behind(&mut times, 0, times_len),
    );
    let second = vinculampe::vin_stream_feed(
        &mut state,
        rest,
        behind(&mut log, first.bytes, log_len),
        behind(&mut times, first.times.saturating_mul(8), times_len),
    );
    let fed = first.bytes.saturating_add(second.bytes);
    let closed = vinculampe::vin_stream_close(&mut state, behind(&mut log, fed, log_len));
    let calls = [opened, first, second, closed];
    let end = calls.iter().find(|a| a.number != 0).unwrap_or(&closed);
    let handed = Handed::new(asked)?;
    let row = Row::new(asked)?;
    let mut reply = format!(in fields.alloc;
        "cut{}{}{}{}",
        Shown(opened),
        Shown(first),
        Shown(second),
        Shown(closed),
    )?;
    handed.say(&mut reply, end, fed.saturating_add(closed.bytes), &log)?;
    row.say(&mut reply, first.times.saturating_add(second.times), &times)?;
    Ok(reply)
}

pub(crate) fn added(fields: &mut Fields<'_>, asked: &mut Fields<'_>) -> Result<String, AllocError> {
    let mut state = fields.run(STATE)?;
    let piece = fields.run(STATE)?;
    let mut log = fields.room(BYTES)?;
    let mut times = fields.room(TIMES)?;
    let answer = vinculampe::vin_stream_feed(&mut state, &piece, &mut log, &mut times);
    let handed = Handed::new(asked)?;
    let row = Row::new(asked)?;
    let mut reply = format!(in fields.alloc; "add{}", Shown(answer))?;
    handed.say(&mut reply, &answer, answer.bytes, &log)?;
    row.say(&mut reply, answer.times, &times)?;
    write!(reply, " {}", digest_of(&state))?;
    Ok(reply)
}

pub(crate) fn ended(fields: &mut Fields<'_>, asked: &mut Fields<'_>) -> Result<String, AllocError> {
    let mut state = fields.run(STATE)?;
    let mut log = fields.room(BYTES)?;
    let answer = vinculampe::vin_stream_close(&mut state, &mut log);
    let handed = Handed::new(asked)?;
    let mut reply = format!(in fields.alloc; "end{}", Shown(answer))?;
    handed.say(&mut reply, &answer, answer.bytes, &log)?;
    write!(reply, " {}", digest_of(&state))?;
    Ok(reply)
}
