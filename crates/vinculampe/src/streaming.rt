// The entry points over bytes of a capture as it arrives (document 02, K4): an opening, a feeding and a closing call on 7,168 lent bytes.

ghost use Rattle.stream_calls.specs.Calls.{Closes};
ghost use Rattle.stream_from_c.specs.Streaming.{FeedsBytes, OpensFrom};

use format::Answer;
use stream_close::close;
use stream_from_c::{feed_from, open_from};

pub fn vin_stream_open(
    words: u32,
    tracks: u32,
    frame_time: u32,
    crc: u32,
    parity: u32,
    crc_label: u32,
    fill_bus: u32,
    kinds: &[u8],
    state: &mut [u8],
) -> Answer
    ensures { OpensFrom words tracks frame_time crc parity crc_label fill_bus kinds.now state.old result state.new }
{
    open_from(
        words, tracks, frame_time, crc, parity, crc_label, fill_bus, kinds, state,
    )
}

pub fn vin_stream_feed(state: &mut [u8], piece: &[u8], log: &mut [u8], times: &mut [u8]) -> Answer
    ensures { FeedsBytes state.old piece.now result state.new log.old log.new times.old times.new }
{
    feed_from(state, piece, log, times)
}

pub fn vin_stream_close(state: &mut [u8], log: &mut [u8]) -> Answer
    ensures { Closes state.old result state.new log.old log.new }
{
    close(state, log)
}
