// Items taken whole from a row of words where nothing is held, for words that stand next to each other. It stops before whatever
// it does not take, which is left to the reader, word by word. It knows neither plan nor places.
#![tactic(auto)]

ghost use Rattle.std.specs.Prelude.{◌≡◌, ◌+◌, ◌/◌, ◌%◌, ◌≤◌, ◌<◌, ◌^◌, length, get_or};
ghost use Rattle.format.specs.declared.Kind.TheVariants.{Mil1553, Arinc429};
ghost use Rattle.log_write.specs.Pen.{pen_in, pen_put};
ghost use Rattle.data_items.specs.Row.{Words, parity_of, tag_at, tag_of, top_of, tops_of};
ghost use Rattle.data_items.specs.Taken.{both_of, Here, Opened, Roomy, Second, Took, TookBy, TookOn};

use data_start::Step;
use format::Kind;
use log_write::Pen;

// How far items were taken: the slot behind them, and the log so far. The same slot as before: nothing was taken.
#[derive(Clone, Copy)]
pub struct Taken {
    pub slot: usize,
    pub pen: Pen,
}

// All bits of a word's bus and label: with parity the bus has three.
fn tops_of(parity: bool) -> u32
    ensures { result ≡ tops_of parity }
{
    if parity { 127 } else { 255 }
}

// Bus x 16 + label.
fn top_of(tops: u32, word: u32) -> u32
    requires { (tops ≡ tops_of (parity_of tops)) × (word < 2 ^ 24) }
    ensures { (result ≡ top_of (parity_of tops) word) × (result < 256) }
{
    word / 0x10000 & tops
}

// Whether the three words from `slot` on are a tag, the first of them known to be its high word.
fn is_tag(tops: u32, row: &[u32], slot: usize, awaits: u32) -> bool
    requires { (tops ≡ tops_of (parity_of tops)) × Words row.now × (slot + 3 ≤ length row.now) }
    ensures { result ≡ tag_at (parity_of tops) row.now slot awaits }
{
    if top_of(tops, row[slot + 1]) + 1 != awaits {
        return false;
    }
    if top_of(tops, row[slot + 2]) + 2 != awaits {
        return false;
    }
    row[slot + 2] % 65536 < 10000
}

// The 46 log bits of the tag whose words stand from `slot` on.
fn tag_of(row: &[u32], slot: usize) -> u64
    requires { slot + 3 ≤ length row.now }
    ensures { result ≡ tag_of (get_or row.now slot 0) (get_or row.now (slot + 1) 0) (get_or row.now (slot + 2) 0) }
{
    let ticks = row[slot] % 65536 * 65536 + row[slot + 1] % 65536;
    ticks as u64 * 16384 + (row[slot + 2] % 16384) as u64
}

// A command: with its tag, or without one if another word than fill stands behind it.
fn command_at(tops: u32, row: &[u32], from: Taken, word: u32, top: u32, out: &mut [u8]) -> Taken
    requires { Here tops row.now from word top out.old × (8 ≤ top % 16) × (top % 16 % 4 ≡ 3) }
    ensures { TookOn Mil1553 tops row.now word from out.old result out.new }
{
    let slot = from.slot + 1;
    let pen = from.pen;
    let awaits = top / 16 * 16 + 7;
    let base = data_start::command(0, 0, top / 16, top % 16, word % 65536)
        .held
        .base;
    let next = row[slot];
    if top_of(tops, next) == awaits {
        if is_tag(tops, row, slot, awaits) {
            let marked = pen.put_in(out, base + 65536, 26);
            let tagged = marked.put_in(out, tag_of(row, slot), 46);
            let behind = slot + 3;
            return Taken {
                slot: behind,
                pen: tagged,
            };
        }
        return from;
    }
    if word::is_fill(next) {
        return from;
    }
    let bare = pen.put_in(out, base, 26);
    Taken {
        slot: slot,
        pen: bare,
    }
}

// An ARINC word: its two syllables, and a tag as above.
fn arinc_at(tops: u32, row: &[u32], from: Taken, word: u32, top: u32, out: &mut [u8]) -> Taken
    requires { Here tops row.now from word top out.old × (8 ≤ top % 16) × (top % 16 % 2 ≡ 1) }
    ensures { TookOn Arinc429 tops row.now word from out.old result out.new }
{
    let slot = from.slot + 2;
    let pen = from.pen;
    let awaits = top / 16 * 16 + 7;
    let low = row[from.slot + 1];
    if top_of(tops, low) + 1 != top {
        return from;
    }
    let high = data_start::syllable(0, 0, top / 16, top % 16, word % 65536)
        .held
        .base;
    let base = high * 65536 + (low % 65536) as u64;
    let next = row[slot];
    if top_of(tops, next) == awaits {
        if is_tag(tops, row, slot, awaits) {
            let marked = pen.put_in(out, base + 4294967296, 43);
            let tagged = marked.put_in(out, tag_of(row, slot), 46);
            let behind = slot + 3;
            return Taken {
                slot: behind,
                pen: tagged,
            };
        }
        return from;
    }
    if word::is_fill(next) {
        return from;
    }
    let bare = pen.put_in(out, base, 43);
    Taken {
        slot: slot,
        pen: bare,
    }
}

// A response time, and its status on the same bus.
fn status_at(tops: u32, row: &[u32], from: Taken, word: u32, top: u32, out: &mut [u8]) -> Taken
    requires { Here tops row.now from word top out.old × (top % 16 ≡ 4) }
    ensures { TookOn Mil1553 tops row.now word from out.old result out.new }
{
    let pen = from.pen;
    let response = word % 65536;
    if 10000 <= response {
        return from;
    }
    let status = row[from.slot + 1];
    let then = top_of(tops, status);
    if then / 16 != top / 16 {
        return from;
    }
    if then % 16 < 8 {
        return from;
    }
    if then % 4 != 2 {
        return from;
    }
    let bits = ((32 + top / 16) * 2 + (3 - then % 16 / 4)) * 131072 + 65536 + status % 65536;
    let put = pen.put_in(out, bits as u64 * 16384 + response as u64, 40);
    let behind = from.slot + 2;
    Taken {
        slot: behind,
        pen: put,
    }
}

// An error notice.
fn notice_at(tops: u32, row: &[u32], from: Taken, word: u32, top: u32, out: &mut [u8]) -> Taken
    requires { Here tops row.now from word top out.old × (top % 16 ≡ 4) }
    ensures { TookOn Arinc429 tops row.now word from out.old result out.new }
{
    let pen = from.pen;
    let information = word % 65536;
    if data_start::is_pair(information) {
        let item = data_start::notice(0, 0, top / 16, information);
        let put = pen.put_in(out, item.second, 18);
        let behind = from.slot + 1;
        return Taken {
            slot: behind,
            pen: put,
        };
    }
    from
}

// The item of more than one word, or the notice, whose first word stands at `from`: five words are there.
fn item_at(
    opening: u32,
    tops: u32,
    row: &[u32],
    from: Taken,
    word: u32,
    top: u32,
    out: &mut [u8],
) -> Taken
    requires { Here tops row.now from word top out.old × Opened opening (top % 16) }
    ensures { TookBy opening tops row.now word from out.old result out.new }
{
    if opening == 2 {
        return arinc_at(tops, row, from, word, top, out);
    }
    if opening == 1 {
        return command_at(tops, row, from, word, top, out);
    }
    if opening == 3 {
        return status_at(tops, row, from, word, top, out);
    }
    if opening == 4 {
        return notice_at(tops, row, from, word, top, out);
    }
    from
}

// Two items of one word each, at once.
fn put_two(pen: Pen, out: &mut [u8], one: Step, two: Step) -> Pen
    requires { (pen.bits < 2 ^ 60) × Second one × Second two × (pen.bits / 8 + 8 ≤ length out.old) }
    ensures { (result ≡ pen_put pen (both_of one two) (one.second_width + two.second_width)) × (out.new ≡ pen_in out.old pen (both_of one two) (one.second_width + two.second_width)) }
{
    let both = (one.second << two.second_width) + two.second;
    pen.put_in(out, both, one.second_width + two.second_width)
}

// The items from `from` on, where nothing is held, as far as they are taken; `out` has room for 32 bits a word of the row.
pub fn take(kinds: [Kind; 16], parity: bool, row: &[u32], from: Taken, out: &mut [u8]) -> Taken
    requires { Words row.now × Roomy row.now from out.old }
    ensures { Took kinds parity row.now from out.old result out.new }
{
    let tops = tops_of(parity);
    let openings = data_start::openings();
    let count = row.len();
    let mut slot = from.slot;
    let mut pen = from.pen;
    while slot < count {
        let word = row[slot];
        let top = top_of(tops, word);
        let opening = data_start::opening(&openings, kinds[(top / 16) as usize], top % 16);
        if 8 <= opening {
            let one = data_start::single(opening, top / 16, word % 65536);
            if slot + 1 < count {
                let then = row[slot + 1];
                let top_then = top_of(tops, then);
                let opening_then = data_start::opening(
                    &openings,
                    kinds[(top_then / 16) as usize],
                    top_then % 16,
                );
                if 8 <= opening_then {
                    let two = data_start::single(opening_then, top_then / 16, then % 65536);
                    pen = put_two(pen, out, one, two);
                    slot += 2;
                    continue;
                }
            }
            pen = pen.put_in(out, one.second, one.second_width);
            slot += 1;
            continue;
        }
        if count < slot + 5 {
            break;
        }
        let next = item_at(
            opening,
            tops,
            row,
            Taken {
                slot: slot,
                pen: pen,
            },
            word,
            top,
            out,
        );
        if next.slot == slot {
            break;
        }
        slot = next.slot;
        pen = next.pen;
    }
    Taken {
        slot: slot,
        pen: pen,
    }
}
