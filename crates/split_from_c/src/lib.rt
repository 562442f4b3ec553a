// A reading in two operations from what C hands over (document 02, K3): the numbers that name a plan, kinds and times as bytes, words
// as numbers.
#![tactic(auto)]

ghost use Rattle.std.specs.Prelude.{◌/◌, ◌<◌, ◌≤◌, length};
ghost use Rattle.format.specs.Laws.Limits.{least_group_bytes};
ghost use Rattle.capture_rules.specs.Split.{words_read};
ghost use Rattle.read_from_c.specs.Reading.{GivenBytes};
ghost use Rattle.split_items.specs.Items.{GivenLog};
ghost use Rattle.split_from_c.specs.Splitting.{items_from, words_from};

use format::{Answer, Kind, Plan};
use from_c::{kinds_from, named, plan_from, put_times, unnamed};
use read_from_c::least;
use split_items::read_items;
use split_words::read_words;

// By way of a row that has an entry for every time that there is room for, or that a capture can have.
fn words_by(
    plan: Plan,
    kinds: [Kind; 16],
    capture: &[u8],
    words: &mut [u32],
    times: &mut [u8],
    row: &mut [u64],
) -> Answer
    requires { length row.old < length times.old / 8 → length capture.now ≤ 1048576 → length capture.now / least_group_bytes ≤ length row.old }
    ensures { GivenBytes (words_read plan kinds capture.now (length words.old) (length times.old / 8))
        result words.old words.new times.old times.new }
{
    let entries = least(times.len() / 8, row.len());
    let answer = read_words(plan, kinds, capture, words, &mut row[..entries]);
    put_times(row, answer.times as usize, times);
    answer
}

// No large row is cleared for a small room, or for a small capture, as in the readings.
fn words_bytes(
    plan: Plan,
    kinds: [Kind; 16],
    capture: &[u8],
    words: &mut [u32],
    times: &mut [u8],
) -> Answer
    ensures { GivenBytes (words_read plan kinds capture.now (length words.old) (length times.old / 8))
        result words.old words.new times.old times.new }
{
    if times.len() < 520 {
        let mut row = [0u64; 64];
        return words_by(plan, kinds, capture, words, times, &mut row);
    }
    if capture.len() < 24960 {
        let mut row = [0u64; 64];
        return words_by(plan, kinds, capture, words, times, &mut row);
    }
    let mut row = [0u64; 2730];
    words_by(plan, kinds, capture, words, times, &mut row)
}

pub fn words_from(
    words: u32,
    tracks: u32,
    frame_time: u32,
    crc: u32,
    parity: u32,
    crc_label: u32,
    fill_bus: u32,
    kinds: &[u8],
    capture: &[u8],
    words_out: &mut [u32],
    times: &mut [u8],
) -> Answer
    ensures { GivenBytes (words_from words tracks frame_time crc parity crc_label fill_bus kinds.now capture.now (length words_out.old) (length times.old))
        result words_out.old words_out.new times.old times.new }
{
    if named(frame_time, crc, parity, kinds) {
        let plan = plan_from(words, tracks, frame_time, crc, parity, crc_label, fill_bus);
        return words_bytes(plan, kinds_from(kinds), capture, words_out, times);
    }
    unnamed()
}

pub fn items_from(
    words: u32,
    tracks: u32,
    frame_time: u32,
    crc: u32,
    parity: u32,
    crc_label: u32,
    fill_bus: u32,
    kinds: &[u8],
    words_in: &[u32],
    log: &mut [u8],
) -> Answer
    ensures { GivenLog (items_from words tracks frame_time crc parity crc_label fill_bus kinds.now words_in.now (length log.old))
        result log.old log.new }
{
    if named(frame_time, crc, parity, kinds) {
        let plan = plan_from(words, tracks, frame_time, crc, parity, crc_label, fill_bus);
        return read_items(plan, kinds_from(kinds), words_in, log);
    }
    unnamed()
}
