// The entry points from C of a capture as it arrives (document 02, K4): an opening, a feeding and a closing call on 7,168 lent bytes.

ghost use Rattle.stream_calls.specs.Calls.{Closes};
ghost use Rattle.stream_from_c.specs.Streaming.{FeedsBytes, OpensFrom};

use format::Answer;

#[unsafe(no_mangle)]
pub extern "C" fn vin_stream_open(
    words: u32,
    tracks: u32,
    frame_time: u32,
    crc: u32,
    parity: u32,
    crc_label: u32,
    fill_bus: u32,
    kinds: &[u8],
    state: &mut [u8],
) -> Answer
    ensures { OpensFrom words tracks frame_time crc parity crc_label fill_bus kinds.now state.old result state.new }
{
    vinculampe::vin_stream_open(
        words, tracks, frame_time, crc, parity, crc_label, fill_bus, kinds, state,
    )
}

#[unsafe(no_mangle)]
pub extern "C" fn vin_stream_feed(
    state: &mut [u8],
    piece: &[u8],
    log: &mut [u8],
    times: &mut [u8],
) -> Answer
    ensures { FeedsBytes state.old piece.now result state.new log.old log.new times.old times.new }
{
    vinculampe::vin_stream_feed(state, piece, log, times)
}

#[unsafe(no_mangle)]
pub extern "C" fn vin_stream_close(state: &mut [u8], log: &mut [u8]) -> Answer
    ensures { Closes state.old result state.new log.old log.new }
{
    vinculampe::vin_stream_close(state, log)
}
