// An item's bits in the log as two numbers.
ghost use Rattle.std.specs.Prelude.{◌≡◌, ◌+◌, ◌*◌, ◌%◌, ◌<◌};
ghost use Rattle.format.specs.Bits.{bit};
ghost use Rattle.log_write.specs.Packed.{packed_of};

use crate::Packed;
use format::{Item, Response, Tag, Time};

fn flag(b: bool) -> u64
    ensures { (result ≡ bit b % 2) × (result < 2) }
{
    if b { 1 } else { 0 }
}

// The kind and the bus, which begin an item.
fn head(kind: u64, bus: u8) -> u64
    requires { kind < 16 }
    ensures { (result ≡ kind * 16 + bus % 16) × (result < 256) }
{
    kind * 16 + (bus % 16) as u64
}

// A tag's three parts.
fn tag_number(time: Time) -> u64
    ensures { result ≡ (time.high % 65536 * 65536 + time.low % 65536) * 16384 + time.micro % 16384 }
{
    (time.high as u64 % 65536 * 65536 + time.low as u64 % 65536) * 16384 + time.micro as u64 % 16384
}

fn command_bits(bus: u8, b: bool, tag: Tag, word: u16) -> Packed
    ensures { result ≡ packed_of (Item.Command bus b tag word) }
{
    let front = (head(1, bus) * 2 + flag(b)) * 2;
    match tag {
        Tag::Untagged => Packed {
            first: front * 65536 + word as u64,
            first_bits: 26,
            behind: 0,
            behind_bits: 0,
        },
        Tag::At(time) => {
            Packed {
                first: (front + 1) * 65536 + word as u64,
                first_bits: 26,
                behind: tag_number(time),
                behind_bits: 46,
            }
        }
    }
}

fn status_bits(bus: u8, b: bool, response: Response, word: u16) -> Packed
    ensures { result ≡ packed_of (Item.Status bus b response word) }
{
    let front = (head(2, bus) * 2 + flag(b)) * 2;
    match response {
        Response::Untimed => Packed {
            first: front * 65536 + word as u64,
            first_bits: 26,
            behind: 0,
            behind_bits: 0,
        },
        Response::After(micro) => {
            Packed {
                first: (front + 1) * 65536 + word as u64,
                first_bits: 26,
                behind: micro as u64 % 16384,
                behind_bits: 14,
            }
        }
    }
}

fn data_bits(bus: u8, b: bool, word: u16) -> Packed
    ensures { result ≡ packed_of (Item.Data bus b word) }
{
    Packed {
        first: (head(3, bus) * 2 + flag(b)) * 65536 + word as u64,
        first_bits: 25,
        behind: 0,
        behind_bits: 0,
    }
}

fn error_bits(bus: u8, b: bool, word: u16) -> Packed
    ensures { result ≡ packed_of (Item.BusError bus b word) }
{
    Packed {
        first: (head(4, bus) * 2 + flag(b)) * 65536 + word as u64,
        first_bits: 25,
        behind: 0,
        behind_bits: 0,
    }
}

fn arinc_bits(bus: u8, channel: u8, tag: Tag, word: u32) -> Packed
    ensures { result ≡ packed_of (Item.Arinc bus channel tag word) }
{
    let front = (head(5, bus) * 4 + (channel % 4) as u64) * 2;
    match tag {
        Tag::Untagged => Packed {
            first: front * 4294967296 + word as u64,
            first_bits: 43,
            behind: 0,
            behind_bits: 0,
        },
        Tag::At(time) => {
            Packed {
                first: (front + 1) * 4294967296 + word as u64,
                first_bits: 43,
                behind: tag_number(time),
                behind_bits: 46,
            }
        }
    }
}

fn notice_bits(bus: u8, channel: u8, diagnostics: u8) -> Packed
    ensures { result ≡ packed_of (Item.Notice bus channel diagnostics) }
{
    Packed {
        first: (head(6, bus) * 4 + (channel % 4) as u64) * 256 + diagnostics as u64,
        first_bits: 18,
        behind: 0,
        behind_bits: 0,
    }
}

fn user_bits(bus: u8, three: bool, word: u16) -> Packed
    ensures { result ≡ packed_of (Item.User bus three word) }
{
    Packed {
        first: (head(7, bus) * 2 + flag(three)) * 65536 + word as u64,
        first_bits: 25,
        behind: 0,
        behind_bits: 0,
    }
}

fn overflow_bits(bus: u8, word: u16) -> Packed
    ensures { result ≡ packed_of (Item.Overflow bus word) }
{
    Packed {
        first: head(8, bus) * 65536 + word as u64,
        first_bits: 24,
        behind: 0,
        behind_bits: 0,
    }
}

// An item's bits in the log.
pub fn item_bits(item: Item) -> Packed
    ensures { result ≡ packed_of item }
{
    match item {
        Item::Command { bus, b, tag, word } => command_bits(bus, b, tag, word),
        Item::Status {
            bus,
            b,
            response,
            word,
        } => status_bits(bus, b, response, word),
        Item::Data { bus, b, word } => data_bits(bus, b, word),
        Item::BusError { bus, b, word } => error_bits(bus, b, word),
        Item::Arinc {
            bus,
            channel,
            tag,
            word,
        } => arinc_bits(bus, channel, tag, word),
        Item::Notice {
            bus,
            channel,
            diagnostics,
        } => notice_bits(bus, channel, diagnostics),
        Item::User { bus, three, word } => user_bits(bus, three, word),
        Item::Overflow { bus, word } => overflow_bits(bus, word),
    }
}
