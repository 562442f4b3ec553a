// Vinculampe's entry points (document 01, "Programs"): composing and both readings, and what is done with logs alone (document 02).
// The functions `vin_*` are those that `vinculampe_c` gives to C under the same names.
#![tactic(auto)]

pub mod full;
pub mod salvaging;
pub mod split;
pub mod streaming;

ghost use Rattle.std.specs.Prelude.{false, true, length};
ghost use Rattle.format.specs.Answer.{Made};
ghost use Rattle.compose_from_c.specs.Composing.{composed_from};
ghost use Rattle.from_c.specs.Numbers.{times_from};
ghost use Rattle.log_rules.specs.Pick.{joined, picked};
ghost use Rattle.log_rules.specs.Profile.{Judged};
ghost use Rattle.log_rules.specs.Replay.{Replays, replayed};
ghost use Rattle.log_rules.specs.Shift.{shifted};
ghost use Rattle.log_shift.specs.Shifted.{Shifted};
ghost use Rattle.read_from_c.specs.Reading.{GivenBytes, reading_from};

pub use crate::full::{vin_compose_full, vin_read_closed_full, vin_read_full};
pub use crate::salvaging::vin_salvage;
pub use crate::split::{vin_read_items, vin_read_words};
pub use crate::streaming::{vin_stream_close, vin_stream_feed, vin_stream_open};
pub use compose::compose;
use compose_from_c::compose_from;
use format::Answer;
pub use log_check::profile;
pub use log_edit::{join, pick};
pub use log_replay::replay;
use log_rules::Replayed;
pub use log_shift::shift;
pub use read::{read, read_closed};
use read_from_c::read_from;
pub use salvage::salvage;
pub use split_items::read_items;
pub use split_words::read_words;
pub use stream::{feed, open};
pub use stream_close::close;

// What a plan without its last two lines means: the functions without `full` take no label and no code.
const CRC_LABEL: u32 = 3;

const FILL_BUS: u32 = 0;

pub fn vin_compose(
    words: u32,
    tracks: u32,
    frame_time: u32,
    crc: u32,
    parity: u32,
    kinds: &[u8],
    log: &[u8],
    times: &[u8],
    out: &mut [u8],
) -> Answer
    ensures { Made (composed_from words tracks frame_time crc parity 3 0 kinds.now log.now times.now (length out.old))
        result out.old out.new }
{
    compose_from(
        words, tracks, frame_time, crc, parity, CRC_LABEL, FILL_BUS, kinds, log, times, out,
    )
}

pub fn vin_read(
    words: u32,
    tracks: u32,
    frame_time: u32,
    crc: u32,
    parity: u32,
    kinds: &[u8],
    capture: &[u8],
    log: &mut [u8],
    times: &mut [u8],
) -> Answer
    ensures { GivenBytes (reading_from false words tracks frame_time crc parity 3 0 kinds.now capture.now (length log.old) (length times.old))
        result log.old log.new times.old times.new }
{
    read_from(
        false, words, tracks, frame_time, crc, parity, CRC_LABEL, FILL_BUS, kinds, capture, log,
        times,
    )
}

pub fn vin_read_closed(
    words: u32,
    tracks: u32,
    frame_time: u32,
    crc: u32,
    parity: u32,
    kinds: &[u8],
    capture: &[u8],
    log: &mut [u8],
    times: &mut [u8],
) -> Answer
    ensures { GivenBytes (reading_from true words tracks frame_time crc parity 3 0 kinds.now capture.now (length log.old) (length times.old))
        result log.old log.new times.old times.new }
{
    read_from(
        true, words, tracks, frame_time, crc, parity, CRC_LABEL, FILL_BUS, kinds, capture, log,
        times,
    )
}

pub fn vin_pick(log: &[u8], buses: u16, out: &mut [u8]) -> Answer
    ensures { Made (picked log.now buses (length out.old)) result out.old out.new }
{
    pick(log, buses, out)
}

pub fn vin_join(first: &[u8], second: &[u8], out: &mut [u8]) -> Answer
    ensures { Made (joined first.now second.now (length out.old)) result out.old out.new }
{
    join(first, second, out)
}

pub fn vin_profile(log: &[u8]) -> Answer
    ensures { Judged log.now result }
{
    profile(log)
}

pub fn vin_replay(log: &[u8], events: &[u8], capacity: u32, slots: u32, out: &mut [u8]) -> Replayed
    ensures { Replays (replayed log.now events.now capacity slots (length out.old)) result out.old out.new }
{
    replay(log, events, capacity, slots, out)
}

pub fn vin_shift(log: &[u8], microseconds: i64, times: &mut [u8], out: &mut [u8]) -> Answer
    ensures { Shifted (shifted log.now (times_from times.old) microseconds (length out.old)) result out.old out.new times.old times.new }
{
    shift(log, microseconds, times, out)
}
