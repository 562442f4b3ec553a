// The item at a cursor: its fields are taken, and then it is seen whether the log has them.
ghost use Rattle.std.specs.Prelude.{◌≡◌, cond, List, ℕ, ◌+◌, ◌*◌, ◌^◌, ◌≤◌, ◌<◌, length};
ghost use Rattle.format.specs.Bits.{bytes_bits};
ghost use Rattle.format.specs.Log.{ends, has, if_there, next_at, wrong};
ghost use Rattle.log_read.specs.Fields.{ends_of};
ghost use Rattle.log_read.specs.Found.{found_of, time_at, Finds, FindsIn};

use crate::{Cursor, Found, Head};
use format::{Item, Response, Tag, Time};

// An item, if the log has the bits before `behind`.
fn if_there(item: Item, behind: usize, total: usize) -> Found
    ensures { (s : List ℕ) → length s ≡ total → result ≡ found_of (if_there s behind (has item behind)) }
{
    if total < behind {
        return Found::Wrong;
    }
    Found::Has(
        item,
        Cursor {
            at: behind,
            ahead: 0,
        },
    )
}

// The tag at a cursor.
fn time_at(log: &[u8], at: Cursor) -> Time
    requires { at.at ≤ 2 ^ 40 }
    ensures { at.at + 46 ≤ length log.now * 8 → result ≡ time_at (bytes_bits log.now) at.at }
{
    let tag = at.filled(log).tagged();
    Time {
        high: tag.high as u16,
        low: tag.low as u16,
        micro: tag.micro as u16,
    }
}

// An item of each kind, of which the kind and the bus were taken.
fn command(log: &[u8], head: Head) -> Found
    requires { (length log.now ≤ 4294967296) × (head.bus < 16) × (head.next.at ≤ length log.now * 8 + 8) }
    ensures { FindsIn (bytes_bits log.now) head 1 result }
{
    let total = log.len() * 8;
    let next = head.next;
    let fields = next.marked();
    let bus = head.bus as u8;
    let b = fields.side == 1;
    let word = fields.word as u16;
    let behind = fields.next;
    if fields.mark == 1 {
        let tag = Tag::At(time_at(log, behind));
        return if_there(Item::Command { bus, b, tag, word }, behind.at + 46, total);
    }
    let tag = Tag::Untagged;
    if_there(Item::Command { bus, b, tag, word }, behind.at, total)
}

fn status(head: Head, total: usize) -> Found
    requires { (head.bus < 16) × (head.next.at ≤ 2 ^ 40) }
    ensures { Finds head total 2 result }
{
    let next = head.next;
    let fields = next.marked();
    let bus = head.bus as u8;
    let b = fields.side == 1;
    let word = fields.word as u16;
    let behind = fields.next;
    if fields.mark == 1 {
        let after = behind.take(14);
        let response = Response::After(after.field as u16);
        return if_there(
            Item::Status {
                bus,
                b,
                response,
                word,
            },
            after.next.at,
            total,
        );
    }
    let response = Response::Untimed;
    if_there(
        Item::Status {
            bus,
            b,
            response,
            word,
        },
        behind.at,
        total,
    )
}

fn data(head: Head, total: usize) -> Found
    requires { (head.bus < 16) × (head.next.at ≤ 2 ^ 40) }
    ensures { Finds head total 3 result }
{
    let next = head.next;
    let fields = next.sided();
    let bus = head.bus as u8;
    let b = fields.side == 1;
    let word = fields.word as u16;
    if_there(Item::Data { bus, b, word }, fields.next.at, total)
}

fn bus_error(head: Head, total: usize) -> Found
    requires { (head.bus < 16) × (head.next.at ≤ 2 ^ 40) }
    ensures { Finds head total 4 result }
{
    let next = head.next;
    let fields = next.sided();
    let bus = head.bus as u8;
    let b = fields.side == 1;
    let word = fields.word as u16;
    if_there(Item::BusError { bus, b, word }, fields.next.at, total)
}

fn arinc(log: &[u8], head: Head) -> Found
    requires { (length log.now ≤ 4294967296) × (head.bus < 16) × (head.next.at ≤ length log.now * 8 + 8) }
    ensures { FindsIn (bytes_bits log.now) head 5 result }
{
    let total = log.len() * 8;
    let next = head.next;
    let fields = next.channelled();
    let bus = head.bus as u8;
    let channel = fields.channel as u8;
    let word = fields.word;
    let behind = fields.next;
    if fields.mark == 1 {
        let tag = Tag::At(time_at(log, behind));
        return if_there(
            Item::Arinc {
                bus,
                channel,
                tag,
                word,
            },
            behind.at + 46,
            total,
        );
    }
    let tag = Tag::Untagged;
    if_there(
        Item::Arinc {
            bus,
            channel,
            tag,
            word,
        },
        behind.at,
        total,
    )
}

fn notice(head: Head, total: usize) -> Found
    requires { (head.bus < 16) × (head.next.at ≤ 2 ^ 40) }
    ensures { Finds head total 6 result }
{
    let next = head.next;
    let fields = next.noticed();
    let bus = head.bus as u8;
    let channel = fields.channel as u8;
    let diagnostics = fields.diagnostics as u8;
    if_there(
        Item::Notice {
            bus,
            channel,
            diagnostics,
        },
        fields.next.at,
        total,
    )
}

fn user(head: Head, total: usize) -> Found
    requires { (head.bus < 16) × (head.next.at ≤ 2 ^ 40) }
    ensures { Finds head total 7 result }
{
    let next = head.next;
    let fields = next.sided();
    let bus = head.bus as u8;
    let three = fields.side == 1;
    let word = fields.word as u16;
    if_there(Item::User { bus, three, word }, fields.next.at, total)
}

fn overflow(head: Head, total: usize) -> Found
    requires { (head.bus < 16) × (head.next.at ≤ 2 ^ 40) }
    ensures { Finds head total 8 result }
{
    let next = head.next;
    let took = next.take(16);
    let bus = head.bus as u8;
    let word = took.field as u16;
    if_there(Item::Overflow { bus, word }, took.next.at, total)
}

// The end mark, where the kind is 0.
fn end_mark(at: Cursor, total: usize) -> Found
    requires { (at.at ≤ total) × (total ≤ 2 ^ 40) }
    ensures { result ≡ found_of (cond (ends_of at total) ends wrong) }
{
    if at.ends(total) {
        return Found::End;
    }
    Found::Wrong
}

impl Cursor {
    // What stands here.
    pub fn item(self, log: &[u8]) -> Found
        requires { length log.now ≤ 4294967296 }
        ensures { result ≡ found_of (next_at (bytes_bits log.now) self.at) }
    {
        let total = log.len() * 8;
        if total < self.at {
            return Found::Wrong;
        }
        let from = self.filled(log);
        let head = from.head();
        let kind = head.kind;
        match kind {
            0 => end_mark(from, total),
            1 => command(log, head),
            2 => status(head, total),
            3 => data(head, total),
            4 => bus_error(head, total),
            5 => arinc(log, head),
            6 => notice(head, total),
            7 => user(head, total),
            8 => overflow(head, total),
            _ => Found::Wrong,
        }
    }
}
