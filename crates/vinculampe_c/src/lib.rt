// The entry points to be called from C (documents 01 and 02): each calls the function of its name in `vinculampe`, with the same clauses.
#![tactic(auto)]

pub mod full;
pub mod salvaging;
pub mod split;
pub mod streaming;

ghost use Rattle.std.specs.Prelude.{false, true, length};
ghost use Rattle.format.specs.Answer.{Made};
ghost use Rattle.compose_from_c.specs.Composing.{composed_from};
ghost use Rattle.from_c.specs.Numbers.{times_from};
ghost use Rattle.log_rules.specs.Pick.{joined, picked};
ghost use Rattle.log_rules.specs.Profile.{Judged};
ghost use Rattle.log_rules.specs.Replay.{Replays, replayed};
ghost use Rattle.log_rules.specs.Shift.{shifted};
ghost use Rattle.log_shift.specs.Shifted.{Shifted};
ghost use Rattle.read_from_c.specs.Reading.{GivenBytes, reading_from};

use format::Answer;
use log_rules::Replayed;

#[unsafe(no_mangle)]
pub extern "C" fn vin_compose(
    words: u32,
    tracks: u32,
    frame_time: u32,
    crc: u32,
    parity: u32,
    kinds: &[u8],
    log: &[u8],
    times: &[u8],
    out: &mut [u8],
) -> Answer
    ensures { Made (composed_from words tracks frame_time crc parity 3 0 kinds.now log.now times.now (length out.old))
        result out.old out.new }
{
    vinculampe::vin_compose(
        words, tracks, frame_time, crc, parity, kinds, log, times, out,
    )
}

#[unsafe(no_mangle)]
pub extern "C" fn vin_read(
    words: u32,
    tracks: u32,
    frame_time: u32,
    crc: u32,
    parity: u32,
    kinds: &[u8],
    capture: &[u8],
    log: &mut [u8],
    times: &mut [u8],
) -> Answer
    ensures { GivenBytes (reading_from false words tracks frame_time crc parity 3 0 kinds.now capture.now (length log.old) (length times.old))
        result log.old log.new times.old times.new }
{
    vinculampe::vin_read(
        words, tracks, frame_time, crc, parity, kinds, capture, log, times,
    )
}

#[unsafe(no_mangle)]
pub extern "C" fn vin_read_closed(
    words: u32,
    tracks: u32,
    frame_time: u32,
    crc: u32,
    parity: u32,
    kinds: &[u8],
    capture: &[u8],
    log: &mut [u8],
    times: &mut [u8],
) -> Answer
    ensures { GivenBytes (reading_from true words tracks frame_time crc parity 3 0 kinds.now capture.now (length log.old) (length times.old))
        result log.old log.new times.old times.new }
{
    vinculampe::vin_read_closed(
        words, tracks, frame_time, crc, parity, kinds, capture, log, times,
    )
}

#[unsafe(no_mangle)]
pub extern "C" fn vin_pick(log: &[u8], buses: u16, out: &mut [u8]) -> Answer
    ensures { Made (picked log.now buses (length out.old)) result out.old out.new }
{
    vinculampe::vin_pick(log, buses, out)
}

#[unsafe(no_mangle)]
pub extern "C" fn vin_join(first: &[u8], second: &[u8], out: &mut [u8]) -> Answer
    ensures { Made (joined first.now second.now (length out.old)) result out.old out.new }
{
    vinculampe::vin_join(first, second, out)
}

#[unsafe(no_mangle)]
pub extern "C" fn vin_profile(log: &[u8]) -> Answer
    ensures { Judged log.now result }
{
    vinculampe::vin_profile(log)
}

#[unsafe(no_mangle)]
pub extern "C" fn vin_replay(
    log: &[u8],
    events: &[u8],
    capacity: u32,
    slots: u32,
    out: &mut [u8],
) -> Replayed
    ensures { Replays (replayed log.now events.now capacity slots (length out.old)) result out.old out.new }
{
    vinculampe::vin_replay(log, events, capacity, slots, out)
}

#[unsafe(no_mangle)]
pub extern "C" fn vin_shift(
    log: &[u8],
    microseconds: i64,
    times: &mut [u8],
    out: &mut [u8],
) -> Answer
    ensures { Shifted (shifted log.now (times_from times.old) microseconds (length out.old)) result out.old out.new times.old times.new }
{
    vinculampe::vin_shift(log, microseconds, times, out)
}
