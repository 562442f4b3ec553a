// What a data word starts (document 01, "Items and their words"), as the numbers that the reader holds and hands out.
#![tactic(auto)]

ghost use Rattle.std.specs.Prelude.{◌≡◌, true, ◌+◌, ◌*◌, ◌/◌, ◌%◌, ◌^◌, ◌<◌, ◌≤◌};
ghost use Rattle.format.specs.Reader as reader;
ghost use Rattle.format.specs.declared.Kind.TheVariants.{Mil1553, Arinc429};
ghost use Rattle.format.specs.declared.Held.TheVariants.{Nothing};
ghost use Rattle.data_start.specs.Begins.{Begins};
ghost use Rattle.data_start.specs.Holding.{flat};
ghost use Rattle.data_start.specs.Opening.{one_word, opens, openings, row, row_of, single_of};
ghost use Rattle.data_start.specs.Step.{refusal, holding, ended, begun};

use format::Kind;

// What is held between two data words. `base` is the log bits of the command or ARINC word so far, untagged; `time` its time
// words so far, or a response time; `awaits` is bus x 16 + label of the word that goes on with it.
#[derive(Clone, Copy)]
pub struct Holding {
    pub base: u64,
    pub time: u32,
    pub awaits: u32,
}

// What a word brings: the log bits of the items that are now finished, in two strings of at most 46 bits, and what is held.
#[derive(Clone, Copy)]
pub struct Step {
    pub first: u64,
    pub second: u64,
    pub first_width: u32,
    pub second_width: u32,
    pub held: Holding,
    pub bad: bool,
}

// What is held before the first word.
pub fn nothing() -> Holding
    ensures { result ≡ flat Nothing }
{
    Holding {
        base: 0,
        time: 0,
        awaits: 0,
    }
}

// A bad word changes nothing.
pub fn refused(held: Holding) -> Step
    ensures { result ≡ refusal held }
{
    Step {
        first: 0,
        second: 0,
        first_width: 0,
        second_width: 0,
        held: held,
        bad: true,
    }
}

// Numbers that are held, behind a string that is finished.
pub fn holds(first: u64, width: u32, base: u64, time: u32, awaits: u32) -> Step
    ensures { result ≡ holding first width (record { base = base; time = time; awaits = awaits }) }
{
    Step {
        first: first,
        second: 0,
        first_width: width,
        second_width: 0,
        held: Holding {
            base: base,
            time: time,
            awaits: awaits,
        },
        bad: false,
    }
}

// Two strings that are finished, and nothing held.
pub fn ends(first: u64, width: u32, second: u64, long: u32) -> Step
    ensures { result ≡ ended first width second long }
{
    Step {
        first: first,
        second: second,
        first_width: width,
        second_width: long,
        held: nothing(),
        bad: false,
    }
}

// A command, which may have a tag.
pub fn command(first: u64, width: u32, bus: u32, label: u32, information: u32) -> Step
    requires { (bus < 16) × (8 ≤ label) × (label < 16) × (label % 4 ≡ 3) × (information < 65536) }
    ensures { Begins first width (reader.starts Mil1553 bus label information) result }
{
    let bits = ((16 + bus) * 2 + (3 - label / 4)) * 131072 + information;
    holds(first, width, bits as u64, 0, bus * 16 + 7)
}

// A response time, whose status follows.
pub fn response(first: u64, width: u32, bus: u32, information: u32) -> Step
    requires { (bus < 16) × (information < 10000) }
    ensures { Begins first width (reader.starts Mil1553 bus 4 information) result }
{
    holds(first, width, 0, information, 270 + bus * 16)
}

// Whether the two labels of a notice are one channel's pair.
pub fn is_pair(information: u32) -> bool
    requires { information < 65536 }
    ensures { result ≡ reader.is_pair (information / 2 ^ 12) (information / 2 ^ 8 % 16) }
{
    let high = information / 4096;
    let low = information / 256 % 16;
    if high < 8 {
        return false;
    }
    if high % 2 == 0 {
        return false;
    }
    low + 1 == high
}

// An error notice.
pub fn notice(first: u64, width: u32, bus: u32, information: u32) -> Step
    requires { (bus < 16) × (information < 65536) × (reader.is_pair (information / 2 ^ 12) (information / 2 ^ 8 % 16) ≡ true) }
    ensures { Begins first width (reader.starts Arinc429 bus 4 information) result }
{
    let channel = (information / 4096 - 8) / 2;
    ends(
        first,
        width,
        (((96 + bus) * 4 + channel) * 256 + information % 256) as u64,
        18,
    )
}

// A high syllable, whose low one follows.
pub fn syllable(first: u64, width: u32, bus: u32, label: u32, information: u32) -> Step
    requires { (bus < 16) × (8 ≤ label) × (label < 16) × (label % 2 ≡ 1) × (information < 65536) }
    ensures { Begins first width (reader.starts Arinc429 bus label information) result }
{
    let bits = (((80 + bus) * 8 + (label - 9)) as u64) * 65536 + information as u64;
    holds(first, width, bits, 0, bus * 16 + (label - 1))
}

// An item of one word, as its opening: its kind in the log, and the bits behind its bus, so many and of this number.
fn one_word(kind: u32, behind: u32, number: u32) -> u32
    requires { (kind < 16) × (behind < 4) × (number < 4) }
    ensures { result ≡ one_word kind behind number }
{
    ((kind * 16 << behind) + number) * 4 + behind
}

// An overflow mark or a user word, "on either kind of bus".
fn opens_on_either(label: u32) -> u32
    requires { (label < 8) × (label ≡ 4 → ⊥) }
    ensures { (result ≡ opens Mil1553 label) × (result ≡ opens Arinc429 label) }
{
    if label == 0 {
        return one_word(8, 0, 0);
    }
    if label / 2 == 1 {
        return one_word(7, 1, label % 2);
    }
    0
}

// Labels 15 to 12 are kinds 1 to 4 on A, labels 11 to 8 on B; a status has a mark behind its side, 0 here.
fn opens_on_1553(label: u32) -> u32
    requires { label < 16 }
    ensures { result ≡ opens Mil1553 label }
{
    if label < 8 {
        if label == 4 {
            return 3;
        }
        return opens_on_either(label);
    }
    let down = 15 - label;
    match down % 4 {
        0 => 1,
        1 => one_word(2, 2, down / 4 * 2),
        _ => one_word(down % 4 + 1, 1, down / 4),
    }
}

fn opens_on_429(label: u32) -> u32
    requires { label < 16 }
    ensures { result ≡ opens Arinc429 label }
{
    if label < 8 {
        if label == 4 {
            return 4;
        }
        return opens_on_either(label);
    }
    label % 2 * 2
}

// What a word opens, by the kind of its bus and its label: 0 nothing, 1 a command, 2 a high syllable, 3 a response time,
// 4 a notice. Any other number is an item of one word: four times the log bits before the word, as they are on bus 0, and how
// many of them stand behind the bus.
pub fn opens(kind: Kind, label: u32) -> u32
    requires { label < 16 }
    ensures { result ≡ opens kind label }
{
    match kind {
        Kind::Unused => 0, // nothing
        Kind::Mil1553 => opens_on_1553(label),
        Kind::Arinc429 => opens_on_429(label),
    }
}

// What the labels 0 to 15 open on a bus of this kind.
fn row(kind: Kind) -> [u32; 16]
    ensures { result ≡ row kind }
{
    [
        opens(kind, 0),
        opens(kind, 1),
        opens(kind, 2),
        opens(kind, 3),
        opens(kind, 4),
        opens(kind, 5),
        opens(kind, 6),
        opens(kind, 7),
        opens(kind, 8),
        opens(kind, 9),
        opens(kind, 10),
        opens(kind, 11),
        opens(kind, 12),
        opens(kind, 13),
        opens(kind, 14),
        opens(kind, 15),
    ]
}

// All of it as a table, which the compiler works out: for a loop that looks up word after word. It is made once and lent, since a
// constant is copied wherever it is named.
pub fn openings() -> [[u32; 16]; 3]
    ensures { result ≡ openings }
{
    [row(Kind::Unused), row(Kind::Mil1553), row(Kind::Arinc429)]
}

fn row_of(kind: Kind) -> usize
    ensures { result ≡ row_of kind }
{
    match kind {
        Kind::Unused => 0, // the first row
        Kind::Mil1553 => 1,
        Kind::Arinc429 => 2,
    }
}

// What a word opens, by the table.
pub fn opening(table: &[[u32; 16]; 3], kind: Kind, label: u32) -> u32
    requires { (table.now ≡ openings) × (label < 16) }
    ensures { result ≡ opens kind label }
{
    table[row_of(kind)][label as usize]
}

// The item of one word, by its opening.
pub fn single(opening: u32, bus: u32, information: u32) -> Step
    requires { (opening < 4096) × (bus < 16) × (information < 65536) }
    ensures { result ≡ single_of opening bus information }
{
    let behind = opening % 4;
    let head = opening / 4 + (bus << behind);
    ends(0, 0, (head * 65536 + information) as u64, 24 + behind)
}

// A word with the label of a response time.
fn starts_response(held: Holding, first: u64, width: u32, bus: u32, information: u32) -> Step
    requires { (bus < 16) × (information < 65536) }
    ensures { result ≡ begun held first width (reader.starts Mil1553 bus 4 information) }
{
    if 10000 <= information {
        return refused(held);
    }
    response(first, width, bus, information)
}

// A word with the label of a notice.
fn starts_notice(held: Holding, first: u64, width: u32, bus: u32, information: u32) -> Step
    requires { (bus < 16) × (information < 65536) }
    ensures { result ≡ begun held first width (reader.starts Arinc429 bus 4 information) }
{
    if is_pair(information) {
        return notice(first, width, bus, information);
    }
    refused(held)
}

// What a word starts.
pub fn starts(
    held: Holding,
    first: u64,
    width: u32,
    kind: Kind,
    bus: u32,
    label: u32,
    information: u32,
) -> Step
    requires { (bus < 16) × (label < 16) × (information < 65536) }
    ensures { result ≡ begun held first width (reader.starts kind bus label information) }
{
    let opened = opens(kind, label);
    if 8 <= opened {
        let one = single(opened, bus, information);
        return ends(first, width, one.second, one.second_width);
    }
    match opened {
        1 => command(first, width, bus, label, information),
        2 => syllable(first, width, bus, label, information),
        3 => starts_response(held, first, width, bus, information),
        4 => starts_notice(held, first, width, bus, information),
        _ => refused(held),
    }
}
