// The entry point from C of a salvage (document 02, K10).

ghost use Rattle.std.specs.Prelude.{length};
ghost use Rattle.salvage_from_c.specs.Salvaging.{SavesBytes, salvaged_from};

use salvage_rules::Salvaged;

#[unsafe(no_mangle)]
pub extern "C" fn vin_salvage(
    words: u32,
    tracks: u32,
    frame_time: u32,
    crc: u32,
    parity: u32,
    crc_label: u32,
    fill_bus: u32,
    kinds: &[u8],
    capture: &[u8],
    log: &mut [u8],
    times: &mut [u8],
    report: &mut [u64],
) -> Salvaged
    ensures { SavesBytes (salvaged_from words tracks frame_time crc parity crc_label fill_bus kinds.now capture.now (length log.old) (length times.old) (length report.old))
        result log.old log.new times.old times.new report.old report.new }
{
    vinculampe::vin_salvage(
        words, tracks, frame_time, crc, parity, crc_label, fill_bus, kinds, capture, log, times,
        report,
    )
}
