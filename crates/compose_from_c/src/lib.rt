// Composing from what C hands over (document 01, "Programs"): the numbers that name a plan, kinds and times as bytes.
#![tactic(auto)]

ghost use Rattle.std.specs.Prelude.{◌≡◌, length};
ghost use Rattle.format.specs.Answer.{Made};
ghost use Rattle.compose_from_c.specs.Composing.{TimesPut, composed_bytes, composed_from};

use compose::compose;
use format::{Answer, Kind, Plan};
use from_c::{kinds_from, named, plan_from, times_from, unnamed};

// The times that the bytes say, and how many. No log needs more than 126, so all 127 entries are a wrong number of them whatever the
// log: that is answered for a run that is not whole eights, and for a longer one.
fn times_row(times: &[u8], row: &mut [u64]) -> usize
    requires { length row.old ≡ 127 }
    ensures { TimesPut times.now row.new result }
{
    if times.len() % 8 != 0 {
        return 127;
    }
    if 1008 < times.len() {
        return 127;
    }
    times_from(times, row);
    times.len() / 8
}

// Composing is called at one place: to clear a row that is not needed costs less than one call more.
fn compose_bytes(plan: Plan, kinds: [Kind; 16], log: &[u8], times: &[u8], out: &mut [u8]) -> Answer
    ensures { Made (composed_bytes plan kinds log.now times.now (length out.old)) result out.old out.new }
{
    let mut row = [0u64; 127];
    let number = times_row(times, &mut row);
    compose(plan, kinds, log, &row[..number], out)
}

// The plan, the kinds and the times that the numbers and bytes name, composed.
pub fn compose_from(
    words: u32,
    tracks: u32,
    frame_time: u32,
    crc: u32,
    parity: u32,
    crc_label: u32,
    fill_bus: u32,
    kinds: &[u8],
    log: &[u8],
    times: &[u8],
    out: &mut [u8],
) -> Answer
    ensures { Made (composed_from words tracks frame_time crc parity crc_label fill_bus kinds.now log.now times.now (length out.old))
        result out.old out.new }
{
    if named(frame_time, crc, parity, kinds) {
        let plan = plan_from(words, tracks, frame_time, crc, parity, crc_label, fill_bus);
        return compose_bytes(plan, kinds_from(kinds), log, times, out);
    }
    unnamed()
}
