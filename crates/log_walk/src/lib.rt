// A log walked item by item as bits: what stands at a place is found by its kind and its flag, and no field is taken apart.
#![tactic(auto)]

ghost use Rattle.std.specs.Prelude.{◌≡◌, ◌+◌, ◌*◌, ◌/◌, ◌≤◌, ◌<◌, ◌^◌, length};
ghost use Rattle.format.specs.Bits.{bytes_bits};
ghost use Rattle.format.specs.Log.{end_at, field, item_at, next_at};
ghost use Rattle.log_walk.specs.declared.Piece.TheVariants.{Item};
ghost use Rattle.log_walk.specs.Piece.{behind_bits, bus_in, first_bits, piece_of, times_in, Window};

use log_read::Cursor;
use log_write::Packed;

// What stands at a place of a log: an item's bits, the end of the log, or neither.
#[derive(Clone, Copy)]
pub enum Piece {
    Item(Packed),
    End,
    Wrong,
}

// The bits from `at` on, highest first: 57 of them or more.
fn window(log: &[u8], at: usize) -> u64
    requires { (at ≤ length log.now * 8) × (length log.now ≤ 4294967296) }
    ensures { Window (bytes_bits log.now) at result }
{
    Cursor { at, ahead: 0 }.filled(log).ahead
}

// The same, where the log has the eight bytes from there on.
pub fn window_in(log: &[u8], at: usize) -> u64
    requires { (at / 8 + 8 ≤ length log.now) × (length log.now ≤ 4294967296) }
    ensures { Window (bytes_bits log.now) at result }
{
    Cursor { at, ahead: 0 }.filled_in(log).ahead
}

// How many bits an item of a kind has before its tag or response time: six bits a kind, so that no kind has a branch.
fn first_bits(kind: u64) -> u32
    requires { (1 ≤ kind) × (kind ≤ 8) }
    ensures { (result ≡ first_bits kind) × (18 ≤ result) × (result ≤ 43) }
{
    ((0x18652ad965a680u64 >> (kind * 6) as u32) % 64) as u32
}

// How many bits its tag or response time has, by the flag in its window.
fn behind_bits(kind: u64, w: u64) -> u32
    requires { (1 ≤ kind) × (kind ≤ 8) }
    ensures { (result ≡ behind_bits kind w) × (result ≤ 46) }
{
    let flag = (w >> (53 + (6u32 >> kind as u32) % 2)) % 2;
    ((0xb8000eb80u64 >> (kind * 6) as u32) % 64 * flag) as u32
}

// A tag or response time.
fn behind_number(log: &[u8], at: usize, bits: u32) -> u64
    requires { (at + bits ≤ length log.now * 8) × (bits ≤ 57) × (length log.now ≤ 4294967296) }
    ensures { result ≡ field (bytes_bits log.now) at bits }
{
    if bits == 0 {
        return 0;
    }
    window(log, at) >> (64 - bits)
}

// An item of a kind at `at`, with `left` bits from there on and the window w.
fn item_piece(log: &[u8], at: usize, left: usize, w: u64, kind: u64) -> Piece
    requires window { Window (bytes_bits log.now) at w }
    requires left_value { (at + left ≡ length log.now * 8) × (length log.now ≤ 4294967296) × (4 ≤ left) × (kind ≡ w / 2 ^ 60) × (1 ≤ kind) × (kind ≤ 8) }
    ensures { result ≡ piece_of (item_at (bytes_bits log.now) at kind) }
{
    let first = first_bits(kind);
    let behind = behind_bits(kind, w);
    if left < (first + behind) as usize {
        return Piece::Wrong;
    }
    Piece::Item(Packed {
        first: w >> (64 - first),
        first_bits: first,
        behind: behind_number(log, at + first as usize, behind),
        behind_bits: behind,
    })
}

// The end mark: "zero bits fill its last byte and nothing follows".
fn end_piece(log: &[u8], at: usize, left: usize, w: u64) -> Piece
    requires window { Window (bytes_bits log.now) at w }
    requires left_value { (at + left ≡ length log.now * 8) × (length log.now ≤ 4294967296) × (4 ≤ left) × (w / 2 ^ 60 ≡ 0) }
    ensures { result ≡ piece_of (end_at (bytes_bits log.now) at) }
{
    if 12 <= left {
        return Piece::Wrong;
    }
    if w >> (64 - left as u32) == 0 {
        return Piece::End;
    }
    Piece::Wrong
}

// What stands at a place.
pub fn piece_at(log: &[u8], at: usize) -> Piece
    requires { (at ≤ length log.now * 8) × (length log.now ≤ 4294967296) }
    ensures { result ≡ piece_of (next_at (bytes_bits log.now) at) }
{
    let left = log.len() * 8 - at;
    if left < 4 {
        return Piece::Wrong;
    }
    let w = window(log, at);
    let kind = w >> 60;
    if kind == 0 {
        return end_piece(log, at, left, w);
    }
    if 8 < kind {
        return Piece::Wrong;
    }
    item_piece(log, at, left, w, kind)
}

// A tag or response time that has 46 bits from its first on in the log, without a test of its width.
fn behind_in(log: &[u8], at: usize, bits: u32) -> u64
    requires { (18 ≤ at) × (at + 46 ≤ length log.now * 8) × (bits ≤ 46) × (length log.now ≤ 4294967296) }
    ensures { result ≡ field (bytes_bits log.now) at bits }
{
    let w = Cursor { at, ahead: 0 }.tag_filled(log).ahead;
    (w >> 18) >> (46 - bits)
}

// An item that is whole, however long it may be, by its window: without a branch.
pub fn item_in(log: &[u8], at: usize, w: u64) -> Packed
    requires window { Window (bytes_bits log.now) at w }
    requires at_in_bounds { (at + 89 ≤ length log.now * 8) × (length log.now ≤ 4294967296) × (1 ≤ w / 2 ^ 60) × (w / 2 ^ 60 ≤ 8) }
    ensures { Item result ≡ piece_of (next_at (bytes_bits log.now) at) }
{
    let kind = w >> 60;
    let first = first_bits(kind);
    let behind = behind_bits(kind, w);
    Packed {
        first: w >> (64 - first),
        first_bits: first,
        behind: behind_in(log, at + first as usize, behind),
        behind_bits: behind,
    }
}

// A data word that is whole: where these come in runs, the next one's place does not wait for this one's bits.
pub fn data_in(log: &[u8], at: usize, w: u64) -> Packed
    requires window { Window (bytes_bits log.now) at w }
    requires at_in_bounds { (at + 89 ≤ length log.now * 8) × (w / 2 ^ 60 ≡ 3) }
    ensures { (Item result ≡ piece_of (next_at (bytes_bits log.now) at)) × (result.first_bits ≡ 25) × (result.behind ≡ 0) × (result.behind_bits ≡ 0) }
{
    Packed {
        first: w >> 39,
        first_bits: 25,
        behind: 0,
        behind_bits: 0,
    }
}

// An item's bus: its second four bits.
pub fn bus_in(item: Packed) -> u8
    requires { (8 ≤ item.first_bits) × (item.first_bits ≤ 43) }
    ensures { (result ≡ bus_in item) × (result < 16) }
{
    ((item.first >> (item.first_bits - 8)) % 16) as u8
}

// Are its times below 10000 (answer 4): a tag ends with the microseconds, as a response time does.
pub fn in_time(item: Packed) -> bool
    ensures { result ≡ times_in item }
{
    item.behind % 16384 < 10000
}
