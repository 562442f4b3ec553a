// The lister's text (document 01, "Programs"), put into lent room.
#![tactic(auto)]

ghost use Rattle.std.specs.Prelude.{◌≡◌, cond, ◌+◌, ◌*◌, ◌≤◌, ◌<◌, length};
ghost use mathlib.Core.List.{[], ◌∷◌, ◌++◌, flat_map};
ghost use Rattle.format.specs.Lists.{text};
ghost use Rattle.format.specs.Listing.{decimal, hex, hex_digit, item_line, listing, response_text, side, tag_text};
ghost use Rattle.format.specs.Time.{microseconds};
ghost use Rattle.format.specs.Log.{items, on_no_plan, parsed};
ghost use Rattle.log_text.specs.Text.{Adds, items_of, named};

use format::{Item, Response, Tag, Time};
use log_read::{Cursor, Found, Tally};

// One byte.
fn put(out: &mut [u8], at: usize, b: u8) -> usize
    requires { at < length out.old }
    ensures { Adds (b ∷ []) out.old at out.new result }
{
    out[at] = b;
    at + 1
}

// "Hex is in capitals."
fn digit(n: u64) -> u8
    requires { n < 16 }
    ensures { result ≡ hex_digit n }
{
    if n < 10 { 48 + n as u8 } else { 55 + n as u8 }
}

fn hex2(out: &mut [u8], at: usize, n: u64) -> usize
    requires { at + 2 ≤ length out.old }
    ensures { Adds (hex 2 n) out.old at out.new result }
{
    let next = put(out, at, digit(n / 16 % 16));
    put(out, next, digit(n % 16))
}

fn hex4(out: &mut [u8], at: usize, n: u64) -> usize
    requires { at + 4 ≤ length out.old }
    ensures { Adds (hex 4 n) out.old at out.new result }
{
    let next = hex2(out, at, n / 256);
    hex2(out, next, n)
}

fn hex8(out: &mut [u8], at: usize, n: u64) -> usize
    requires { at + 8 ≤ length out.old }
    ensures { Adds (hex 8 n) out.old at out.new result }
{
    let next = hex4(out, at, n / 65536);
    hex4(out, next, n)
}

// A number without leading zeros: that of its tens, and its last digit.
fn number(out: &mut [u8], at: usize, n: u64) -> usize
    requires { at + length (decimal n) ≤ length out.old }
    ensures { Adds (decimal n) out.old at out.new result }
{
    if n < 10 {
        return put(out, at, 48 + n as u8);
    }
    let next = number(out, at, n / 10);
    put(out, next, 48 + (n % 10) as u8)
}

fn two(out: &mut [u8], at: usize, a: u8, b: u8) -> usize
    requires { at + 2 ≤ length out.old }
    ensures { Adds (a ∷ b ∷ []) out.old at out.new result }
{
    out[at] = a;
    out[at + 1] = b;
    at + 2
}

fn four(out: &mut [u8], at: usize, a: u8, b: u8, c: u8, d: u8) -> usize
    requires { at + 4 ≤ length out.old }
    ensures { Adds (a ∷ b ∷ c ∷ d ∷ []) out.old at out.new result }
{
    out[at] = a;
    out[at + 1] = b;
    out[at + 2] = c;
    out[at + 3] = d;
    at + 4
}

// The name of a line, of three letters, and the bus.
fn start(out: &mut [u8], at: usize, a: u8, b: u8, c: u8, bus: u8) -> usize
    requires { at + 25 ≤ length out.old }
    ensures { Adds (named a b c bus) out.old at out.new result }
{
    let n1 = four(out, at, a, b, c, 32);
    let n2 = number(out, n1, bus as u64);
    put(out, n2, 32)
}

// "A or B"
fn side_letter(second: bool) -> u8
    ensures { result ∷ [] ≡ side second }
{
    if second { 66 } else { 65 }
}

// A line of a 1553 item, as far as its word.
fn sided(out: &mut [u8], at: usize, a: u8, b: u8, c: u8, bus: u8, second: bool, word: u16) -> usize
    requires { at + 31 ≤ length out.old }
    ensures { Adds (named a b c bus ++ (side second ++ (32 ∷ hex 4 word))) out.old at out.new result }
{
    let n1 = start(out, at, a, b, c, bus);
    let n2 = two(out, n1, side_letter(second), 32);
    hex4(out, n2, word as u64)
}

// A line of an ARINC item, as far as its channel.
fn channelled(out: &mut [u8], at: usize, a: u8, b: u8, c: u8, bus: u8, channel: u8) -> usize
    requires { at + 46 ≤ length out.old }
    ensures { Adds (named a b c bus ++ (decimal (channel + 1) ++ (32 ∷ []))) out.old at out.new result }
{
    let n1 = start(out, at, a, b, c, bus);
    let n2 = number(out, n1, channel as u64 + 1);
    put(out, n2, 32)
}

fn microseconds_of(time: Time) -> u64
    requires { (time.high < 65536) × (time.low < 65536) × (time.micro < 65536) }
    ensures { result ≡ microseconds time.high time.low time.micro }
{
    10000 * (65536 * time.high as u64 + time.low as u64) + time.micro as u64
}

// "` at T`"
fn tag_text(out: &mut [u8], at: usize, tag: Tag) -> usize
    requires { at + 24 ≤ length out.old }
    ensures { Adds (tag_text tag) out.old at out.new result }
{
    match tag {
        Tag::Untagged => at,
        Tag::At(time) => {
            let n1 = four(out, at, 32, 97, 116, 32);
            number(out, n1, microseconds_of(time))
        }
    }
}

// "` resp T`"
fn response_text(out: &mut [u8], at: usize, response: Response) -> usize
    requires { at + 26 ≤ length out.old }
    ensures { Adds (response_text response) out.old at out.new result }
{
    match response {
        Response::Untimed => at,
        Response::After(micro) => {
            let n1 = four(out, at, 32, 114, 101, 115);
            let n2 = two(out, n1, 112, 32);
            number(out, n2, micro as u64)
        }
    }
}

fn command_line(out: &mut [u8], at: usize, bus: u8, b: bool, tag: Tag, word: u16) -> usize
    requires { at + 80 ≤ length out.old }
    ensures { Adds (item_line (Item.Command bus b tag word)) out.old at out.new result }
{
    let n1 = sided(out, at, 99, 109, 100, bus, b, word);
    let n2 = tag_text(out, n1, tag);
    put(out, n2, 10)
}

fn status_line(out: &mut [u8], at: usize, bus: u8, b: bool, response: Response, word: u16) -> usize
    requires { at + 80 ≤ length out.old }
    ensures { Adds (item_line (Item.Status bus b response word)) out.old at out.new result }
{
    let n1 = sided(out, at, 115, 116, 97, bus, b, word);
    let n2 = response_text(out, n1, response);
    put(out, n2, 10)
}

fn data_line(out: &mut [u8], at: usize, bus: u8, b: bool, word: u16) -> usize
    requires { at + 80 ≤ length out.old }
    ensures { Adds (item_line (Item.Data bus b word)) out.old at out.new result }
{
    let n1 = sided(out, at, 100, 97, 116, bus, b, word);
    put(out, n1, 10)
}

fn error_line(out: &mut [u8], at: usize, bus: u8, b: bool, word: u16) -> usize
    requires { at + 80 ≤ length out.old }
    ensures { Adds (item_line (Item.BusError bus b word)) out.old at out.new result }
{
    let n1 = sided(out, at, 101, 114, 114, bus, b, word);
    put(out, n1, 10)
}

fn arinc_line(out: &mut [u8], at: usize, bus: u8, channel: u8, tag: Tag, word: u32) -> usize
    requires { at + 80 ≤ length out.old }
    ensures { Adds (item_line (Item.Arinc bus channel tag word)) out.old at out.new result }
{
    let n1 = channelled(out, at, 97, 114, 110, bus, channel);
    let n2 = hex8(out, n1, word as u64);
    let n3 = tag_text(out, n2, tag);
    put(out, n3, 10)
}

fn notice_line(out: &mut [u8], at: usize, bus: u8, channel: u8, diagnostics: u8) -> usize
    requires { at + 80 ≤ length out.old }
    ensures { Adds (item_line (Item.Notice bus channel diagnostics)) out.old at out.new result }
{
    let n1 = channelled(out, at, 97, 114, 101, bus, channel);
    let n2 = hex2(out, n1, diagnostics as u64);
    put(out, n2, 10)
}

// The label of a user word.
fn user_label(three: bool) -> u8
    ensures { result ∷ [] ≡ decimal (cond three 3 2) }
{
    if three { 51 } else { 50 }
}

fn user_line(out: &mut [u8], at: usize, bus: u8, three: bool, word: u16) -> usize
    requires { at + 80 ≤ length out.old }
    ensures { Adds (item_line (Item.User bus three word)) out.old at out.new result }
{
    let n1 = start(out, at, 117, 115, 114, bus);
    let n2 = two(out, n1, user_label(three), 32);
    let n3 = hex4(out, n2, word as u64);
    put(out, n3, 10)
}

fn overflow_line(out: &mut [u8], at: usize, bus: u8, word: u16) -> usize
    requires { at + 80 ≤ length out.old }
    ensures { Adds (item_line (Item.Overflow bus word)) out.old at out.new result }
{
    let n1 = start(out, at, 111, 118, 102, bus);
    let n2 = hex4(out, n1, word as u64);
    put(out, n2, 10)
}

// An item's line.
pub fn item_line(out: &mut [u8], at: usize, item: Item) -> usize
    requires { at + 80 ≤ length out.old }
    ensures { Adds (item_line item) out.old at out.new result }
{
    match item {
        Item::Command { bus, b, tag, word } => command_line(out, at, bus, b, tag, word),
        Item::Status {
            bus,
            b,
            response,
            word,
        } => status_line(out, at, bus, b, response, word),
        Item::Data { bus, b, word } => data_line(out, at, bus, b, word),
        Item::BusError { bus, b, word } => error_line(out, at, bus, b, word),
        Item::Arinc {
            bus,
            channel,
            tag,
            word,
        } => arinc_line(out, at, bus, channel, tag, word),
        Item::Notice {
            bus,
            channel,
            diagnostics,
        } => notice_line(out, at, bus, channel, diagnostics),
        Item::User { bus, three, word } => user_line(out, at, bus, three, word),
        Item::Overflow { bus, word } => overflow_line(out, at, bus, word),
    }
}

// The lines of a log that parses.
fn lines(out: &mut [u8], log: &[u8]) -> usize
    requires in_bounds { (262300 ≤ length out.old) × (length log.now ≤ 32768) × (length (flat_map item_line (items_of (parsed on_no_plan log.now))) ≤ 262144) }
    requires log_value { parsed on_no_plan log.now ≡ items (items_of (parsed on_no_plan log.now)) }
    ensures { Adds (flat_map item_line (items_of (parsed on_no_plan log.now))) out.old 0 out.new result }
{
    let mut place = Cursor { at: 0, ahead: 0 };
    let mut at: usize = 0;
    loop {
        match place.item(log) {
            Found::Has(item, next) => {
                at = item_line(out, at, item);
                place = next;
            }
            Found::End => return at,
            Found::Wrong => return at,
        }
    }
}

// "`end N`"
fn end_line(out: &mut [u8], at: usize, items: usize) -> usize
    requires { at + 25 ≤ length out.old }
    ensures { Adds (text "end " ++ (decimal items ++ text "\n")) out.old at out.new result }
{
    let n1 = four(out, at, 101, 110, 100, 32);
    let n2 = number(out, n1, items as u64);
    put(out, n2, 10)
}

// "`refused N at P`"
fn refused_line(out: &mut [u8], at: usize, refusal: u32, place: usize) -> usize
    requires { at + 60 ≤ length out.old }
    ensures { Adds (text "refused " ++ (decimal refusal ++ (text " at " ++ (decimal place ++ text "\n")))) out.old at out.new result }
{
    let n1 = four(out, at, 114, 101, 102, 117);
    let n2 = four(out, n1, 115, 101, 100, 32);
    let n3 = number(out, n2, refusal as u64);
    let n4 = four(out, n3, 32, 97, 116, 32);
    let n5 = number(out, n4, place as u64);
    put(out, n5, 10)
}

// The whole text of a log: "one line an item, then `end N`, or only `refused N at P`".
// A line has no more bytes than its item has bits, so that 262,300 bytes hold the text of any log.
pub fn list(out: &mut [u8], log: &[u8]) -> usize
    requires { 262300 ≤ length out.old }
    ensures { Adds (listing log.now) out.old 0 out.new result }
{
    let tally = log_read::parse(log);
    match tally {
        Tally::Items { items, .. } => {
            let at = lines(out, log);
            end_line(out, at, items)
        }
        Tally::Fault { number, place } => refused_line(out, 0, number, place),
    }
}
