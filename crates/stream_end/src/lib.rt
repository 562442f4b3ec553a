// The close of a capture as it arrives (document 02, K4), where no part of a group waits: the cut item, the earliest notice without its
// word, or the log's last bytes.
#![tactic(auto)]

ghost use Rattle.std.specs.Prelude.{◌≡◌, ◌≤◌, length};
ghost use Rattle.stream_end.specs.End.{Ends, Last, Puts, Whole};

use capture_parts::refusal;
use data_put::put_step;
use data_start::Step;
use data_word::Holding;
use format::{Answer, Plan};
use log_close::copy;
use log_write::Pen;
use notices::{at_end, is_clear};
use stream_group::stored_of;

// "On an accepting close" the item that was held is complete: it is written behind the bits not yet a byte, then the end mark.
fn put_end(pen: Pen, step: Step, log: &mut [u8]) -> Answer
    requires { Last pen step × (7 ≤ length log.old) }
    ensures { Puts pen step result log.old log.new }
{
    let mut out = [0u8; 16];
    let last = put_step(pen, &mut out, step);
    let bytes = last.close(&mut out);
    copy(log, &out, bytes);
    Answer {
        number: 0,
        place: 0,
        second: 0,
        bytes: bytes as u64,
        times: 0,
    }
}

// "at the close the earliest": 13 comes before 15. At most seven bytes are written, and only where nothing is refused.
pub fn end_log(
    plan: Plan,
    groups: u64,
    held: Holding,
    since: u64,
    pen: Pen,
    table: &[u64],
    log: &mut [u8],
) -> Answer
    requires { Whole plan groups held since pen table.now log.old }
    ensures { Ends plan held since pen table.now result log.old log.new }
{
    let step = data_word::finish(held);
    if step.bad {
        return refusal(13, since, since);
    }
    let notice = at_end(is_clear(table), table, 0);
    if notice != 0 {
        return refusal(15, stored_of(plan, notice), 0);
    }
    put_end(pen, step, log)
}
