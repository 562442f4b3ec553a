// What the buffer sees of an item: the one place that tells the eight kinds apart.
ghost use Rattle.std.specs.Prelude.{◌≡◌, ◌≤◌};
ghost use Rattle.log_buffer.specs.Level.{load_of, plain_load, status_load, tagged_load};

use crate::Load;
use format::{Item, Response, Tag};

fn plain_load(bus: u8, words: u32) -> Load
    ensures { result ≡ plain_load bus words }
{
    Load {
        bus,
        words,
        mark: false,
    }
}

// Of a command's words, or of an ARINC word's, three are its tag's.
fn tagged_load(bus: u8, words: u32, tag: Tag) -> Load
    requires { words ≤ 2 }
    ensures { result ≡ tagged_load bus words tag }
{
    match tag {
        Tag::Untagged => plain_load(bus, words),
        Tag::At(_) => plain_load(bus, words + 3),
    }
}

fn status_load(bus: u8, response: Response) -> Load
    ensures { result ≡ status_load bus response }
{
    match response {
        Response::Untimed => plain_load(bus, 1),
        Response::After(_) => plain_load(bus, 2),
    }
}

pub fn load_of(item: Item) -> Load
    ensures { result ≡ load_of item }
{
    match item {
        Item::Command { bus, tag, .. } => tagged_load(bus, 1, tag),
        Item::Status { bus, response, .. } => status_load(bus, response),
        Item::Data { bus, .. } => plain_load(bus, 1),
        Item::BusError { bus, .. } => plain_load(bus, 1),
        Item::Arinc { bus, tag, .. } => tagged_load(bus, 2, tag),
        Item::Notice { bus, .. } => plain_load(bus, 1),
        Item::User { bus, .. } => plain_load(bus, 1),
        Item::Overflow { bus, .. } => Load {
            bus,
            words: 1,
            mark: true,
        },
    }
}
