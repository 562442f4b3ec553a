// What the rules see of an item: the one place that tells the eight kinds apart.
ghost use Rattle.std.specs.Prelude.{◌≡◌};
ghost use Rattle.log_check.specs.Role.{command_role, plain_role, role_of, status_role};

use crate::Role;
use format::{Item, Response, Tag};
use word::time_number;

fn plain_role(bus: u8, kind: u8) -> Role
    ensures { result ≡ plain_role bus kind }
{
    Role {
        bus,
        kind,
        side: false,
        time: 0,
    }
}

fn command_role(bus: u8, side: bool, tag: Tag) -> Role
    ensures { result ≡ command_role bus side tag }
{
    match tag {
        Tag::Untagged => Role {
            bus,
            kind: 2,
            side,
            time: 0,
        },
        Tag::At(time) => Role {
            bus,
            kind: 3,
            side,
            time: time_number(time),
        },
    }
}

// "Every status has its response time."
fn status_role(bus: u8, response: Response) -> Role
    ensures { result ≡ status_role bus response }
{
    match response {
        Response::Untimed => plain_role(bus, 1),
        Response::After(_) => plain_role(bus, 0),
    }
}

// "with no ARINC item", "No user words"; overflow marks and bus errors are free.
pub fn role_of(item: Item) -> Role
    ensures { result ≡ role_of item }
{
    match item {
        Item::Command { bus, b, tag, .. } => command_role(bus, b, tag),
        Item::Status { bus, response, .. } => status_role(bus, response),
        Item::Data { bus, .. } => plain_role(bus, 0),
        Item::BusError { bus, .. } => plain_role(bus, 0),
        Item::Arinc { bus, .. } => plain_role(bus, 1),
        Item::Notice { bus, .. } => plain_role(bus, 1),
        Item::User { bus, .. } => plain_role(bus, 1),
        Item::Overflow { bus, .. } => plain_role(bus, 0),
    }
}
