// One 24-bit word: its fields, its parity, its three stored bytes; and the parts of a time.
// Each function is the definition of `format` that its contract names.
#![tactic(auto)]

ghost use Rattle.std.specs.Prelude.{◌≡◌, ◌++◌, ◌+◌, ◌≤◌, ◌<◌, ◌^◌, length, take, drop};
ghost use Rattle.format.specs.Word.{word_of, bus_of, label_of, info_of, is_odd, sent, sync, fill, is_fill, bytes_of};
ghost use Rattle.format.specs.Lawful.{buses};
ghost use Rattle.format.specs.Time.{microseconds, time_end};
ghost use Rattle.format.specs.Item.{high_label, low_label};
ghost use Rattle.word.specs.Stored.{three_at};
ghost use Rattle.word.specs.Parts.{parts_of};

use format::Time;

pub fn join(bus: u32, label: u32, information: u32) -> u32
    requires { (bus < 16) × (label < 16) × (information < 2 ^ 16) }
    ensures { result ≡ word_of bus label information }
{
    bus * 0x100000 + label * 0x10000 + information
}

pub fn bus_of(parity: bool, word: u32) -> u32
    ensures { result ≡ bus_of parity word }
{
    let bus = word / 0x100000;
    if parity { bus % 8 } else { bus }
}

pub fn label_of(word: u32) -> u32
    ensures { result ≡ label_of word }
{
    word / 0x10000 % 16
}

pub fn information_of(word: u32) -> u32
    ensures { result ≡ info_of word }
{
    word % 0x10000
}

pub fn is_odd(word: u32) -> bool
    requires { word < 2 ^ 24 }
    ensures { result ≡ is_odd word }
{
    u32::count_ones(word) % 2 == 1
}

pub fn sent(parity: bool, word: u32) -> u32
    requires { word < 2 ^ 24 }
    ensures { result ≡ sent parity word }
{
    if parity {
        if is_odd(word) { word } else { word + 0x800000 }
    } else {
        word
    }
}

pub fn sync() -> u32
    ensures { result ≡ sync }
{
    0xFAF320
}

// Fill on a bus, as it is sent.
pub fn fill(parity: bool, bus: u32) -> u32
    requires { bus < buses parity }
    ensures { (result ≡ sent parity (fill bus)) × (result < 2 ^ 24) }
{
    sent(parity, join(bus, 1, 0xAAAA))
}

// Fill, on any bus.
pub fn is_fill(word: u32) -> bool
    ensures { result ≡ is_fill word }
{
    label_of(word) == 1 && information_of(word) == 0xAAAA
}

fn wide(byte: u8) -> u32
    ensures { (result ≡ byte) × (result < 256) }
{
    byte as u32
}

// The word whose three bytes stand from `at` on.
pub fn word_at(bytes: &[u8], at: usize) -> u32
    requires { at + 3 ≤ length bytes.now }
    ensures { (result ≡ three_at bytes.now at) × (result < 2 ^ 24) }
{
    wide(bytes[at]) * 0x10000 + wide(bytes[at + 1]) * 0x100 + wide(bytes[at + 2])
}

// Its three bytes stand from `at` on, and every other byte is as it was.
pub fn put_word(bytes: &mut [u8], at: usize, word: u32)
    requires { (at + 3 ≤ length bytes.old) × (word < 2 ^ 24) }
    ensures { bytes.new ≡ take at bytes.old ++ (bytes_of word ++ drop (at + 3) bytes.old) }
{
    bytes[at] = (word / 0x10000) as u8;
    bytes[at + 1] = (word / 0x100 % 0x100) as u8;
    bytes[at + 2] = (word % 0x100) as u8;
}

// A time's two halves of 32 bits: the upper one is below 10000, since 10000 x 2^32 is where times end. Then a long division by 10000 in
// digits of 16 bits, which divides nothing wider than 32 (document 02, K6).
pub fn time_parts(time: u64) -> Time
    requires { time < time_end }
    ensures { result ≡ parts_of time }
{
    let upper = (time / 0x100000000) as u32;
    let lower = (time % 0x100000000) as u32;
    let first = upper * 0x10000 + lower / 0x10000;
    let second = first % 10000 * 0x10000 + lower % 0x10000;
    Time {
        high: (first / 10000) as u16,
        low: (second / 10000) as u16,
        micro: (second % 10000) as u16,
    }
}

pub fn time_number(time: Time) -> u64
    ensures { result ≡ microseconds time.high time.low time.micro }
{
    10000 * (0x10000 * time.high as u64 + time.low as u64) + time.micro as u64
}

// The labels of an ARINC channel's two syllables.
pub fn high_label(channel: u32) -> u32
    requires { channel < 4 }
    ensures { result ≡ high_label channel }
{
    9 + 2 * channel
}

pub fn low_label(channel: u32) -> u32
    requires { channel < 4 }
    ensures { result ≡ low_label channel }
{
    8 + 2 * channel
}
