// Writing (document 01, "Groups"): each frame goes into its own part of the group's bytes.
#![tactic(auto)]

ghost use Rattle.std.specs.Prelude.{◌≡◌, true, ◌+◌, ◌*◌, ◌^◌, ◌≤◌, ◌<◌, length, take, drop};
ghost use mathlib.Core.List.{[], ◌∷◌, ◌++◌, flat_map};
ghost use Rattle.format.specs.Word.{bytes_of, sent, sync, fill};
ghost use Rattle.format.specs.Lawful.{buses};
ghost use Rattle.format.specs.Time.{time_end};
ghost use Rattle.format.specs.Plan.{rows, lead, slots, group_words};
ghost use Rattle.format.specs.Group.{time_words, frame, group};
ghost use Rattle.crc.specs.Sum.{Small, Sums, Added, Summed};
ghost use Rattle.format.specs.Laws.Limits.{Shape, most_rows};
ghost use Rattle.format.specs.Group.{dealt_of};
ghost use Rattle.group_write.specs.Writing.{Run, Unsent, Timed, Tails, front, sent_rows, same_rows, rows_with};

use crc::Sum;
use format::Plan;
use narrow;
use word;

// The rows that are dealt: all but the sync word and, with CRC, the last.
fn dealt_rows(plan: Plan) -> usize
    requires { Shape plan }
    ensures { result ≡ rows plan }
{
    if plan.crc {
        plan.words - 2
    } else {
        plan.words - 1
    }
}

fn lead_count(plan: Plan) -> usize
    ensures { (result ≡ lead plan) × (result ≤ 3) }
{
    if plan.frame_time { 3 } else { 0 }
}

fn time_words(time: u64) -> [u32; 3]
    requires { time < time_end }
    ensures { result ≡ time_words time }
{
    let parts = word::time_parts(time);
    [
        word::join(0, 7, parts.high as u32),
        word::join(0, 6, parts.low as u32),
        word::join(0, 5, parts.micro as u32),
    ]
}

// In how many rows the track has one of the first `count` dealt words.
fn rows_with(plan: Plan, track: usize, count: usize) -> usize
    requires { Shape plan × (track < plan.tracks) × (count ≤ 2048) }
    ensures { result ≡ rows_with plan track count }
{
    narrow::quotient(count + plan.tracks - 1 - track, plan.tracks)
}

// One word, as it is sent.
fn put_row(out: &mut [u8], parity: bool, row: usize, word: u32) -> u32
    requires { (3 * row + 3 ≤ length out.old) × (row ≤ most_rows) × (word < buses parity * 2 ^ 20) }
    ensures { (result ≡ sent parity word) × (result < 2 ^ 24) × (out.new ≡ take (3 * row) out.old ++ (bytes_of result ++ drop (3 * row + 3) out.old)) }
{
    let sent = word::sent(parity, word);
    word::put_word(out, 3 * row, sent);
    sent
}

// A run of a track's rows: every `plan.tracks`-th word from `first` on.
fn put_plain(out: &mut [u8], plan: Plan, words: &[u32], first: usize, rows: usize)
    requires { Shape plan × Run plan words.now first rows out.old }
    ensures { out.new ≡ flat_map bytes_of (sent_rows plan words.now first rows) ++ drop (3 * rows) out.old }
{
    let mut s = first;
    let mut row = 0;
    while row < rows {
        put_row(out, plan.parity, row, words[s]);
        s += plan.tracks;
        row += 1;
    }
}

// The same, and the sum of what was sent so far; two rows a turn, for `Sum::add_two`.
fn put_summed(
    out: &mut [u8],
    plan: Plan,
    words: &[u32],
    first: usize,
    rows: usize,
    before: Sum,
) -> Sum
    requires { Shape plan × Run plan words.now first rows out.old × Small before }
    ensures { Added before (sent_rows plan words.now first rows) result
        × (out.new ≡ flat_map bytes_of (sent_rows plan words.now first rows) ++ drop (3 * rows) out.old) }
{
    let mut sum = before;
    let mut s = first;
    let mut row = 0;
    while row + 1 < rows {
        let one = put_row(out, plan.parity, row, words[s]);
        let two = put_row(out, plan.parity, row + 1, words[s + plan.tracks]);
        sum = sum.add_two(one, two);
        s += 2 * plan.tracks;
        row += 2;
    }
    if row < rows {
        let last = put_row(out, plan.parity, row, words[s]);
        return sum.add(last);
    }
    sum
}

// With CRC what is sent is summed, else it is only written: a loop of one row a turn can be done for several rows at once.
fn put_rows(
    out: &mut [u8],
    plan: Plan,
    words: &[u32],
    first: usize,
    rows: usize,
    before: Sum,
) -> Sum
    requires { Shape plan × Run plan words.now first rows out.old × Small before }
    ensures { Summed plan.crc before (sent_rows plan words.now first rows) result
        × (out.new ≡ flat_map bytes_of (sent_rows plan words.now first rows) ++ drop (3 * rows) out.old) }
{
    if plan.crc {
        return put_summed(out, plan, words, first, rows, before);
    }
    put_plain(out, plan, words, first, rows);
    before
}

fn fill_rows(out: &mut [u8], fill: u32, rows: usize)
    requires { (3 * rows ≤ length out.old) × (rows ≤ most_rows) × (fill < 2 ^ 24) }
    ensures { out.new ≡ flat_map bytes_of (same_rows fill rows) ++ drop (3 * rows) out.old }
{
    let mut row = 0;
    while row < rows {
        word::put_word(out, 3 * row, fill);
        row += 1;
    }
}

// The sync word, a frame's first.
fn put_sync(out: &mut [u8]) -> Sum
    requires { 3 ≤ length out.old }
    ensures { Sums (sync ∷ []) result × (out.new ≡ flat_map bytes_of (sync ∷ []) ++ drop 3 out.old) }
{
    let sync = word::sync();
    word::put_word(out, 0, sync);
    Sum::start().add(sync)
}

// The first byte of each row, where the other two are those of this word already.
fn top_rows(out: &mut [u8], fill: u32, rows: usize)
    requires { (3 * rows ≤ length out.old) × (rows ≤ most_rows) × (fill < 2 ^ 24) × Tails fill rows out.old }
    ensures { out.new ≡ flat_map bytes_of (same_rows fill rows) ++ drop (3 * rows) out.old }
{
    let top = (fill / 0x10000) as u8;
    let mut row = 0;
    while row < rows {
        out[3 * row] = top;
        row += 1;
    }
}

// Fill on bus 0, as it is sent with parity or without.
const BLANK: u32 = 0x01AAAA;

// Rows of fill on the plan's code, as it is sent. A word that is the same in each call is written and summed faster, so code 0 has its
// own way, and on another code only the first bytes differ.
fn put_fill(out: &mut [u8], plan: Plan, rows: usize, before: Sum) -> Sum
    requires { Shape plan × (3 * rows ≤ length out.old) × (rows ≤ most_rows) × Small before }
    ensures { Summed plan.crc before (same_rows (sent plan.parity (fill plan.fill_bus)) rows) result
        × (out.new ≡ flat_map bytes_of (same_rows (sent plan.parity (fill plan.fill_bus)) rows) ++ drop (3 * rows) out.old) }
{
    fill_rows(out, BLANK, rows);
    if plan.fill_bus == 0 {
        return before.with_same(plan.crc, BLANK, rows);
    }
    let fill = word::fill(plan.parity, plan.fill_bus);
    top_rows(out, fill, rows);
    before.with_same(plan.crc, fill, rows)
}

// A frame less its check word: the sync word, rows with time words, rows with data, rows of fill; and with CRC their sum.
fn write_front(out: &mut [u8], plan: Plan, times: &[u32; 3], words: &[u32], track: usize) -> Sum
    requires { Shape plan × (3 * plan.words ≤ length out.old) × Timed plan times.now × Unsent plan words.now × (length words.now ≤ slots plan) × (track < plan.tracks) }
    ensures { (plan.crc ≡ true → Sums (front plan (take (lead plan) times.now ++ words.now) track (rows plan)) result)
        × (out.new ≡ flat_map bytes_of (front plan (take (lead plan) times.now ++ words.now) track (rows plan)) ++ drop (3 * (1 + rows plan)) out.old) }
{
    let rows = dealt_rows(plan);
    let lead = lead_count(plan);
    let timed = rows_with(plan, track, lead);
    let dealt = rows_with(plan, track, lead + words.len());
    let mut sum = put_sync(out);
    sum = put_rows(&mut out[3..], plan, times, track, timed, sum);
    let first = timed * plan.tracks + track - lead;
    let at = 3 * (1 + timed);
    sum = put_rows(&mut out[at..], plan, words, first, dealt - timed, sum);
    let end = 3 * (1 + dealt);
    put_fill(&mut out[end..], plan, rows - dealt, sum)
}

// One frame; with CRC its last row is the check word.
fn write_frame(out: &mut [u8], plan: Plan, times: &[u32; 3], words: &[u32], track: usize)
    requires { Shape plan × (3 * plan.words ≤ length out.old) × Timed plan times.now × Unsent plan words.now × (length words.now ≤ slots plan) × (track < plan.tracks) }
    ensures { out.new ≡ flat_map bytes_of (frame plan (take (lead plan) times.now ++ words.now) track) ++ drop (3 * plan.words) out.old }
{
    let sum = write_front(out, plan, times, words, track);
    if plan.crc {
        let word = word::sent(plan.parity, word::join(0, plan.crc_label, sum.check()));
        word::put_word(out, 3 * (plan.words - 1), word);
    }
}

// The stored words of a group, tracks in order: each track's frame is lent its own part.
pub fn write_group(out: &mut [u8], plan: Plan, time: u64, words: &[u32])
    requires { Shape plan × (3 * group_words plan ≤ length out.old) × (length words.now ≤ slots plan) × Unsent plan words.now × (time < time_end) }
    ensures { out.new ≡ flat_map bytes_of (group plan (dealt_of plan time words.now)) ++ drop (3 * group_words plan) out.old }
{
    let times = time_words(time);
    let size = 3 * plan.words;
    let mut track = 0;
    while track < plan.tracks {
        let start = track * size;
        let end = start + size;
        write_frame(&mut out[start..end], plan, &times, words, track);
        track += 1;
    }
}
