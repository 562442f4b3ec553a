// A capture as it arrives, from what C hands over (document 02, K4): the numbers that name a plan, kinds and times as bytes.
#![tactic(auto)]

ghost use Rattle.std.specs.Prelude.{◌≡◌, length};
ghost use Rattle.stream_from_c.specs.Streaming.{FeedsBytes, OpensFrom};

use format::{Answer, Kind};
use from_c::{kinds_from, named, plan_from, put_times};
use read_from_c::least;
use stream::{feed, open};

// A plan that is not named is opened as one that is not legal.
pub fn open_from(
    words: u32,
    tracks: u32,
    frame_time: u32,
    crc: u32,
    parity: u32,
    crc_label: u32,
    fill_bus: u32,
    kinds: &[u8],
    state: &mut [u8],
) -> Answer
    ensures { OpensFrom words tracks frame_time crc parity crc_label fill_bus kinds.now state.old result state.new }
{
    if named(frame_time, crc, parity, kinds) {
        let plan = plan_from(words, tracks, frame_time, crc, parity, crc_label, fill_bus);
        return open(plan, kinds_from(kinds), state);
    }
    let none = plan_from(0, 0, 0, 0, 0, 0, 0);
    open(none, [Kind::Unused; 16], state)
}

// By way of a row: a call fills eleven groups at most.
fn feed_by(
    state: &mut [u8],
    piece: &[u8],
    log: &mut [u8],
    times: &mut [u8],
    row: &mut [u64],
) -> Answer
    requires { length row.old ≡ 16 }
    ensures { FeedsBytes state.old piece.now result state.new log.old log.new times.old times.new }
{
    let entries = least(times.len() / 8, row.len());
    let answer = feed(state, piece, log, &mut row[..entries]);
    put_times(row, answer.times as usize, times);
    answer
}

pub fn feed_from(state: &mut [u8], piece: &[u8], log: &mut [u8], times: &mut [u8]) -> Answer
    ensures { FeedsBytes state.old piece.now result state.new log.old log.new times.old times.new }
{
    let mut row = [0u64; 16];
    feed_by(state, piece, log, times, &mut row)
}
