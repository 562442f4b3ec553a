// An item's role judged by what was seen before it.
ghost use Rattle.std.specs.Prelude.{◌≡◌, cond, true, eqb};
ghost use Rattle.log_check.specs.Role.{after_by, keeps_by, passes_by};

use crate::{Role, Seen};

// "Only one bus occurs"
fn same_bus(first: bool, old: u8, new: u8) -> bool
    ensures { result ≡ cond first true (eqb new old) }
{
    if first {
        return true;
    }
    new == old
}

// "a tagged command on the same A or B side"
fn licence(side: bool, a: bool, b: bool) -> bool
    ensures { result ≡ cond side b a }
{
    if side {
        return b;
    }
    a
}

// "Every command is tagged, unless the item just before is .." and "Tags never go back."
fn keeps(role: Role, a: bool, b: bool, last: u64) -> bool
    ensures { result ≡ keeps_by a b last role }
{
    let kind = role.kind;
    match kind {
        0 => true,
        1 => false,
        2 => licence(role.side, a, b),
        _ => last <= role.time,
    }
}

pub fn passes(seen: Seen, role: Role) -> bool
    ensures { result ≡ passes_by seen role }
{
    if same_bus(seen.first, seen.bus, role.bus) {
        return keeps(role, seen.a, seen.b, seen.last);
    }
    false
}

// What is seen with the item: only a tagged command is a licence, and only for the item just behind it.
pub fn after(seen: Seen, role: Role) -> Seen
    ensures { result ≡ after_by seen role }
{
    if role.kind == 3 {
        return Seen {
            first: false,
            bus: role.bus,
            a: !role.side,
            b: role.side,
            last: role.time,
        };
    }
    Seen {
        first: false,
        bus: role.bus,
        a: false,
        b: false,
        last: seen.last,
    }
}
