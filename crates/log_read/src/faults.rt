// Answer 4: an item's times.
ghost use Rattle.std.specs.Prelude.{◌≡◌};
ghost use Rattle.format.specs.Item.{in_time, response_in_time, tag_in_time};
ghost use Rattle.format.specs.Log.{on_no_plan};

use format::{Item, Response, Tag};

fn tag_in_time(tag: Tag) -> bool
    ensures { result ≡ tag_in_time tag }
{
    match tag {
        Tag::Untagged => true,
        Tag::At(time) => time.micro < 10000,
    }
}

fn response_in_time(response: Response) -> bool
    ensures { result ≡ response_in_time response }
{
    match response {
        Response::Untimed => true,
        Response::After(micro) => micro < 10000,
    }
}

// Are the item's times below 10000 (answer 4).
fn in_time(item: Item) -> bool
    ensures { result ≡ in_time item }
{
    match item {
        Item::Command { tag, .. } => tag_in_time(tag),
        Item::Status { response, .. } => response_in_time(response),
        Item::Data { .. } => true,
        Item::BusError { .. } => true,
        Item::Arinc { tag, .. } => tag_in_time(tag),
        Item::Notice { .. } => true,
        Item::User { .. } => true,
        Item::Overflow { .. } => true,
    }
}

// The first fault of an item with no plan: 4 or, if it has none, 0.
pub fn fault_of(item: Item) -> u32
    ensures { result ≡ on_no_plan item }
{
    let timely = in_time(item);
    if timely { 0 } else { 4 }
}
