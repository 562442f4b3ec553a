// The entry points from C that take the whole plan: the CRC word's label and the fill bus code behind `parity` (document 02, K5).

ghost use Rattle.std.specs.Prelude.{false, true, length};
ghost use Rattle.format.specs.Answer.{Made};
ghost use Rattle.compose_from_c.specs.Composing.{composed_from};
ghost use Rattle.read_from_c.specs.Reading.{GivenBytes, reading_from};

use format::Answer;

#[unsafe(no_mangle)]
pub extern "C" fn vin_compose_full(
    words: u32,
    tracks: u32,
    frame_time: u32,
    crc: u32,
    parity: u32,
    crc_label: u32,
    fill_bus: u32,
    kinds: &[u8],
    log: &[u8],
    times: &[u8],
    out: &mut [u8],
) -> Answer
    ensures { Made (composed_from words tracks frame_time crc parity crc_label fill_bus kinds.now log.now times.now (length out.old))
        result out.old out.new }
{
    vinculampe::vin_compose_full(
        words, tracks, frame_time, crc, parity, crc_label, fill_bus, kinds, log, times, out,
    )
}

#[unsafe(no_mangle)]
pub extern "C" fn vin_read_full(
    words: u32,
    tracks: u32,
    frame_time: u32,
    crc: u32,
    parity: u32,
    crc_label: u32,
    fill_bus: u32,
    kinds: &[u8],
    capture: &[u8],
    log: &mut [u8],
    times: &mut [u8],
) -> Answer
    ensures { GivenBytes (reading_from false words tracks frame_time crc parity crc_label fill_bus kinds.now capture.now (length log.old) (length times.old))
        result log.old log.new times.old times.new }
{
    vinculampe::vin_read_full(
        words, tracks, frame_time, crc, parity, crc_label, fill_bus, kinds, capture, log, times,
    )
}

#[unsafe(no_mangle)]
pub extern "C" fn vin_read_closed_full(
    words: u32,
    tracks: u32,
    frame_time: u32,
    crc: u32,
    parity: u32,
    crc_label: u32,
    fill_bus: u32,
    kinds: &[u8],
    capture: &[u8],
    log: &mut [u8],
    times: &mut [u8],
) -> Answer
    ensures { GivenBytes (reading_from true words tracks frame_time crc parity crc_label fill_bus kinds.now capture.now (length log.old) (length times.old))
        result log.old log.new times.old times.new }
{
    vinculampe::vin_read_closed_full(
        words, tracks, frame_time, crc, parity, crc_label, fill_bus, kinds, capture, log, times,
    )
}
