// The close of a capture as it arrives (document 02, K4).
#![tactic(auto)]

ghost use Rattle.std.specs.Prelude.{◌≡◌, length};
ghost use Rattle.stream_calls.specs.Calls.{Closes};
ghost use Rattle.stream_close.specs.Closing.{Closable, Shuts};

use capture_parts::refusal;
use format::Answer;
use log_write::Pen;
use plan::group_words;
use stream_calls::within;
use stream_end::end_log;
use stream_state::{Loaded, load, notices_at, store_closed};

// What the close of an open state answers and writes: the fault that is repeated, "8 .. at the close for a part group, before 13 (place:
// bytes so far)", or the end of the log.
fn close_on(found: Loaded, table: &[u64], log: &mut [u8]) -> Answer
    requires { Closable found table.now (length log.old) }
    ensures { Shuts found table.now result log.old log.new }
{
    if found.stage == 2 {
        return refusal(found.number, found.place, found.second);
    }
    let plan = found.stand.plan;
    let held = found.stand.held;
    let groups = found.stand.groups;
    let waiting = found.stand.waiting;
    if waiting != 0 {
        let count = groups * (3 * group_words(plan) as u64) + waiting as u64;
        return refusal(8, count, 0);
    }
    let pen = Pen {
        bits: found.stand.left as usize,
        last: found.stand.last as u64,
    };
    end_log(plan, groups, held, found.stand.since, pen, table, log)
}

// An open state is closed then, whatever is answered.
pub fn close(state: &mut [u8], log: &mut [u8]) -> Answer
    ensures { Closes state.old result state.new log.old log.new }
{
    let found = load(state);
    if !within(found.stage, 0, log.len()) {
        return refusal(16, 0, 0);
    }
    let mut table = [0u64; 64];
    notices_at(state, &mut table);
    let answer = close_on(found, &table, log);
    store_closed(state);
    answer
}
