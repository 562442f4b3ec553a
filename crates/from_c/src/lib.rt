// A plan, kinds and times from numbers and bytes, and times as bytes (document 01, "Programs").
#![tactic(auto)]

ghost use Rattle.std.specs.Prelude.{◌&&◌, ◌≡◌, ◌+◌, ◌*◌, ◌<◌, ◌≤◌, drop, length, take};
ghost use mathlib.Core.List.{◌++◌, flat_map, map};
ghost use Rattle.format.specs.Answer.{over, refusal};
ghost use Rattle.from_c.specs.Numbers.{are_kinds, half_at, kind_of, named, plan_from, time_at, time_bytes, times_from};

use format::{Answer, Kind, Plan};

fn both(a: bool, b: bool) -> bool
    ensures { result ≡ (a && b) }
{
    if a { b } else { false }
}

// All are looked at, whatever the first ones are: sixteen at once are faster than one by one.
fn are_kinds(kinds: &[u8]) -> bool
    ensures { result ≡ are_kinds kinds.now }
{
    let mut good = true;
    let mut bus = 0;
    while bus < kinds.len() {
        good = both(good, kinds[bus] <= 2);
        bus += 1;
    }
    good
}

// Whether every choice and every one of sixteen kinds is named.
pub fn named(frame_time: u32, crc: u32, parity: u32, kinds: &[u8]) -> bool
    ensures { result ≡ named frame_time crc parity kinds.now }
{
    if 1 < frame_time {
        return false;
    }
    if 1 < crc {
        return false;
    }
    if 1 < parity {
        return false;
    }
    if kinds.len() != 16 {
        return false;
    }
    are_kinds(kinds)
}

// The kind that a number names; what names none is unused.
pub fn kind_of(number: u8) -> Kind
    ensures { result ≡ kind_of number }
{
    match number {
        1 => Kind::Mil1553,
        2 => Kind::Arinc429,
        _ => Kind::Unused,
    }
}

pub fn kinds_from(numbers: &[u8]) -> [Kind; 16]
    requires { length numbers.now ≡ 16 }
    ensures { result ≡ map kind_of numbers.now }
{
    let mut kinds = [Kind::Unused; 16];
    let mut bus = 0;
    while bus < 16 {
        kinds[bus] = kind_of(numbers[bus]);
        bus += 1;
    }
    kinds
}

// A label or a code that is none makes a plan that is not legal.
pub fn plan_from(
    words: u32,
    tracks: u32,
    frame_time: u32,
    crc: u32,
    parity: u32,
    crc_label: u32,
    fill_bus: u32,
) -> Plan
    ensures { result ≡ plan_from words tracks frame_time crc parity crc_label fill_bus }
{
    Plan {
        words: words as usize,
        tracks: tracks as usize,
        frame_time: frame_time == 1,
        crc: crc == 1,
        parity: parity == 1,
        crc_label,
        fill_bus,
    }
}

fn wide(byte: u8) -> u32
    ensures { (result ≡ byte) × (result < 256) }
{
    byte as u32
}

// The number that four bytes say.
fn half_at(bytes: &[u8], at: usize) -> u32
    requires { at + 4 ≤ length bytes.now }
    ensures { result ≡ half_at bytes.now at }
{
    let first = wide(bytes[at]);
    let second = wide(bytes[at + 1]);
    let third = wide(bytes[at + 2]);
    let fourth = wide(bytes[at + 3]);
    first * 0x1000000 + second * 0x10000 + third * 0x100 + fourth
}

// The number that eight bytes say.
pub fn time_at(bytes: &[u8], at: usize) -> u64
    requires { at + 8 ≤ length bytes.now }
    ensures { result ≡ time_at bytes.now at }
{
    half_at(bytes, at) as u64 * 0x100000000 + half_at(bytes, at + 4) as u64
}

// The times of whole eights, put into a row from its front.
pub fn times_from(bytes: &[u8], row: &mut [u64])
    requires { length bytes.now ≤ 8 * length row.old }
    ensures { row.new ≡ over (times_from bytes.now) row.old }
{
    let number = bytes.len() / 8;
    let mut index = 0;
    while index < number {
        row[index] = time_at(bytes, 8 * index);
        index += 1;
    }
}

fn put_time(time: u64, bytes: &mut [u8])
    requires { length bytes.old ≡ 8 }
    ensures { bytes.new ≡ time_bytes time }
{
    bytes[0] = (time / 0x100000000000000 % 256) as u8;
    bytes[1] = (time / 0x1000000000000 % 256) as u8;
    bytes[2] = (time / 0x10000000000 % 256) as u8;
    bytes[3] = (time / 0x100000000 % 256) as u8;
    bytes[4] = (time / 0x1000000 % 256) as u8;
    bytes[5] = (time / 0x10000 % 256) as u8;
    bytes[6] = (time / 0x100 % 256) as u8;
    bytes[7] = (time % 256) as u8;
}

// The first times of a row, eight bytes each; what is behind them stays.
pub fn put_times(row: &[u64], number: usize, bytes: &mut [u8])
    requires { (number ≤ length row.now) × (8 * number ≤ length bytes.old) }
    ensures { bytes.new ≡ over (flat_map time_bytes (take number row.now)) bytes.old }
{
    let mut index = 0;
    while index < number {
        let start = 8 * index;
        let end = start + 8;
        put_time(row[index], &mut bytes[start..end]);
        index += 1;
    }
}

// "A plan number that names no choice or kind is 1."
pub fn unnamed() -> Answer
    ensures { result ≡ refusal 1 0 0 }
{
    Answer {
        number: 1,
        place: 0,
        second: 0,
        bytes: 0,
        times: 0,
    }
}
