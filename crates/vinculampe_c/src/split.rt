// The entry points from C of a reading in two operations (document 02, K3): words, and a log from words.

ghost use Rattle.std.specs.Prelude.{length};
ghost use Rattle.read_from_c.specs.Reading.{GivenBytes};
ghost use Rattle.split_from_c.specs.Splitting.{items_from, words_from};
ghost use Rattle.split_items.specs.Items.{GivenLog};

use format::Answer;

#[unsafe(no_mangle)]
pub extern "C" fn vin_read_words(
    words: u32,
    tracks: u32,
    frame_time: u32,
    crc: u32,
    parity: u32,
    crc_label: u32,
    fill_bus: u32,
    kinds: &[u8],
    capture: &[u8],
    words_out: &mut [u32],
    times: &mut [u8],
) -> Answer
    ensures { GivenBytes (words_from words tracks frame_time crc parity crc_label fill_bus kinds.now capture.now (length words_out.old) (length times.old))
        result words_out.old words_out.new times.old times.new }
{
    vinculampe::vin_read_words(
        words, tracks, frame_time, crc, parity, crc_label, fill_bus, kinds, capture, words_out,
        times,
    )
}

#[unsafe(no_mangle)]
pub extern "C" fn vin_read_items(
    words: u32,
    tracks: u32,
    frame_time: u32,
    crc: u32,
    parity: u32,
    crc_label: u32,
    fill_bus: u32,
    kinds: &[u8],
    words_in: &[u32],
    log: &mut [u8],
) -> Answer
    ensures { GivenLog (items_from words tracks frame_time crc parity crc_label fill_bus kinds.now words_in.now (length log.old))
        result log.old log.new }
{
    vinculampe::vin_read_items(
        words, tracks, frame_time, crc, parity, crc_label, fill_bus, kinds, words_in, log,
    )
}
