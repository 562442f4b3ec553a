// Error notices that wait for their word (K2). A lent table of 64 numbers, one for each bus and channel, has the number of the notice
// that waits there, one up, and 0 where none does. It goes from the first word to the last and so serves a row at a time; numbers
// count words in dealt order, so the least is the earliest.
#![tactic(auto)]

ghost use Rattle.std.specs.Prelude.{◌≡◌, false, ◌+◌, ◌%◌, ◌<◌, ◌^◌, length, get_or, drop};
ghost use Rattle.format.specs.Reader.{counted};
ghost use Rattle.format.specs.Lawful.{buses};
ghost use Rattle.format.specs.Word.{part};
ghost use Rattle.notices.specs.Roles.{Words, is_syllable, open_row, roles_in, role_on};
ghost use Rattle.notices.specs.Table.{RowNoted, RowWatched, all_zero, any_notice, earlier, earliest_of, has_arinc, is_arinc, noted, or_first};
ghost use Rattle.notices.specs.Quiet.{answer_in, awaited, quiet_part, quiet_words};
ghost use Rattle.notices.specs.Marks.{Marks, changed, code_bits, notice_mask, notice_value, shared, shared_with, side, unanswered};

use format::Kind;

fn is_arinc(kind: Kind) -> bool
    ensures { result ≡ is_arinc kind }
{
    match kind {
        Kind::Unused => false,
        Kind::Mil1553 => false,
        Kind::Arinc429 => true,
    }
}

// Whether a bus has ARINC words: else there are no notices.
pub fn has_arinc(kinds: [Kind; 16]) -> bool
    ensures { result ≡ has_arinc kinds }
{
    let mut bus: usize = 0;
    while bus < 16 {
        if is_arinc(kinds[bus]) {
            return true;
        }
        bus += 1;
    }
    false
}

// The earlier of two numbers that are one up, 0 for none.
fn earlier(a: u64, b: u64) -> u64
    ensures { result ≡ earlier a b }
{
    if a == 0 {
        return b;
    }
    if b == 0 {
        return a;
    }
    if a <= b { a } else { b }
}

// The first of two, 0 for none.
fn or_first(old: u64, new: u64) -> u64
    ensures { result ≡ or_first old new }
{
    if old == 0 { new } else { old }
}

// The label of a high syllable: 9, 11, 13 or 15.
fn is_syllable(label: u32) -> bool
    ensures { result ≡ is_syllable label }
{
    8 <= label && label % 2 == 1
}

// One word of this number, on a bus of this kind: a notice shows the one that waited open, and waits; an ARINC word, told by its high
// syllable, answers.
fn on_word(
    kind: Kind,
    bus: u32,
    label: u32,
    information: u32,
    number: u64,
    table: &mut [u64],
    found: u64,
) -> u64
    requires { (bus < 16) × (length table.old ≡ 64) × (number < 2 ^ 63) }
    ensures { (result, table.new) ≡ noted number (role_on kind (part bus label information)) (found, table.old) }
{
    if is_arinc(kind) {
        if label == 4 {
            let entry = (bus * 4 + information / 8192 % 4) as usize;
            let old = table[entry];
            table[entry] = number + 1;
            return earlier(found, old);
        }
        if is_syllable(label) {
            let entry = (bus * 4 + label / 2 % 4) as usize;
            table[entry] = 0;
        }
    }
    found
}

// The words of a row, the first of them the number `from`.
fn over_row(
    kinds: [Kind; 16],
    parity: bool,
    row: &[u32],
    from: u64,
    table: &mut [u64],
    found: u64,
) -> u64
    requires { Words row.now × (from + length row.now < 2 ^ 63) × (length table.old ≡ 64) }
    ensures { RowNoted kinds parity from row.now found table.old result table.new }
{
    let mut found = found;
    let mut i: usize = 0;
    while i < row.len() {
        let word = row[i];
        let bus = word::bus_of(parity, word);
        found = on_word(
            kinds[bus as usize],
            bus,
            word::label_of(word),
            word::information_of(word),
            from + i as u64,
            table,
            found,
        );
        i += 1;
    }
    found
}

// Whether nothing waits: a look without branches.
pub fn is_clear(table: &[u64]) -> bool
    ensures { result ≡ all_zero table.now }
{
    let mut waiting: u64 = 0;
    let mut i: usize = 0;
    while i < table.len() {
        waiting = waiting | table[i];
        i += 1;
    }
    waiting == 0
}

// Whether a word has the label of a notice, whatever its bus: few rows have one, so it is a look without branches too.
fn any_notice(row: &[u32]) -> bool
    requires { length row.now < 2 ^ 31 }
    ensures { result ≡ any_notice row.now }
{
    let mut count: u32 = 0;
    let mut i: usize = 0;
    while i < row.len() {
        count += (row[i] / 0x10000 % 16 == 4) as u32;
        i += 1;
    }
    count != 0
}

// The bus and label, as bus x 16 + label, of the word that answers a notice.
fn awaited_by(parity: bool, notice: u32) -> u32
    requires { notice < 2 ^ 24 }
    ensures { result ≡ awaited parity notice }
{
    word::bus_of(parity, notice) * 16 + 9 + word::information_of(notice) / 8192 % 4 * 2
}

// How many words behind the notice at `i` its word stands, if it is one of the next eight and no word before it has the label of a notice,
// whatever its bus; else 0.
fn answer_after(parity: bool, row: &[u32], i: usize) -> usize
    requires { Words row.now × (length row.now < 2 ^ 31) × (i < length row.now) }
    ensures { result ≡ answer_in parity (awaited parity (get_or row.now i 0)) 8 (drop (i + 1) row.now) }
{
    let awaited = awaited_by(parity, row[i]);
    let mut d: usize = 1;
    while i + d < row.len() {
        if d == 9 {
            return 0;
        }
        let next = row[i + d];
        let next_label = word::label_of(next);
        if next_label == 4 {
            return 0;
        }
        if word::bus_of(parity, next) * 16 + next_label == awaited {
            return d;
        }
        d += 1;
    }
    0
}

// How many words of a row, from its start, leave a table in which nothing waits as it is and show nothing: words that are no notice,
// and notices with all up to their word, where that stands close behind.
fn quiet_part(kinds: [Kind; 16], parity: bool, row: &[u32]) -> usize
    requires { Words row.now × (length row.now < 2 ^ 31) }
    ensures { result ≡ quiet_part kinds parity 0 row.now }
{
    let mut i: usize = 0;
    while i < row.len() {
        let word = row[i];
        if word::label_of(word) == 4 {
            if is_arinc(kinds[word::bus_of(parity, word) as usize]) {
                let further = answer_after(parity, row, i);
                if further == 0 {
                    return i;
                }
                i += further;
            }
        }
        i += 1;
    }
    i
}

// A bus's number, or the bits that it lacks.
fn side(ones: bool, bus: u32) -> u32
    requires { bus < 16 }
    ensures { (result ≡ side ones bus) × (result < 16) }
{
    if ones { bus } else { 15 - bus }
}

// Of bits that the buses before share those that this one has, too; only ARINC buses count.
fn with_bus(kind: Kind, ones: bool, bits: u32, bus: u32) -> u32
    requires { (bits < 16) × (bus < 16) }
    ensures { (result ≡ shared_with kind ones bits bus) × (result < 16) }
{
    if is_arinc(kind) {
        return bits & side(ones, bus);
    }
    bits
}

// The bits that are 1 in the numbers of all ARINC buses; with `false`, those that are 0 in them.
fn shared_bits(kinds: [Kind; 16], ones: bool) -> u32
    ensures { (result ≡ shared ones 15 0 kinds) × (result < 16) }
{
    let mut bits: u32 = 15;
    let mut number: usize = 0;
    while number < 16 {
        bits = with_bus(kinds[number], ones, bits, number as u32);
        number += 1;
    }
    bits
}

// Of bits of a bus's number those that a word has.
fn in_code(parity: bool, bits: u32) -> u32
    ensures { (result ≡ bits % buses parity) × (result < 16) }
{
    if parity { bits % 8 } else { bits % 16 }
}

// The bits of bus code and label.
fn code_bits(parity: bool) -> u32
    ensures { result ≡ code_bits parity }
{
    if parity { 0x7F0000 } else { 0xFF0000 }
}

// A notice with the label of the word that it waits for.
fn changed(notice: u32) -> u32
    requires { notice < 2 ^ 24 }
    ensures { result ≡ changed notice }
{
    notice + 0x50000 + notice / 0x2000 % 4 * 0x20000
}

// Whether of the words that are so marked one is not answered at once: a look without branches.
fn unanswered(mask: u32, value: u32, parity: bool, row: &[u32]) -> bool
    requires { Words row.now × (0 < length row.now) × (length row.now < 2 ^ 31) × Marks mask value }
    ensures { result ≡ unanswered mask value parity row.now }
{
    let codes = code_bits(parity);
    let mut count: u32 = 0;
    let mut i: usize = 0;
    while i + 1 < row.len() {
        let word = row[i];
        let notice = word & mask == value;
        let other = (row[i + 1] ^ changed(word)) & codes != 0;
        count += notice as u32 & other as u32;
        i += 1;
    }
    if row[i] & mask == value {
        return true;
    }
    count != 0
}

// Whether a notice of a row is not answered at once, as far as a look tells.
fn any_unanswered(kinds: [Kind; 16], parity: bool, row: &[u32]) -> bool
    requires { Words row.now × (0 < length row.now) × (length row.now < 2 ^ 31) }
    ensures { result ≡ unanswered (notice_mask kinds parity) (notice_value kinds parity) parity row.now }
{
    let ones = shared_bits(kinds, true);
    let bits = ones | shared_bits(kinds, false);
    let mask = word::join(in_code(parity, bits), 15, 0);
    let value = word::join(in_code(parity, ones), 4, 0);
    unanswered(mask, value, parity, row)
}

// The quiet part of a row that may have notices: all of it, where a look tells so.
fn quiet_noticed(kinds: [Kind; 16], parity: bool, row: &[u32]) -> usize
    requires { Words row.now × (0 < length row.now) × (length row.now < 2 ^ 31) }
    ensures { result ≡ quiet_part kinds parity 0 row.now }
{
    if any_unanswered(kinds, parity, row) {
        return quiet_part(kinds, parity, row);
    }
    row.len()
}

// How many words of a row, from its start, leave the table as it is and show nothing, where nothing waits in it, or where a notice does.
fn quiet_words(kinds: [Kind; 16], parity: bool, row: &[u32], clear: bool) -> usize
    requires { Words row.now × (length row.now < 2 ^ 31) }
    ensures { result ≡ quiet_words kinds parity row.now clear }
{
    if clear {
        if any_notice(row) {
            return quiet_noticed(kinds, parity, row);
        }
        return row.len();
    }
    0
}

// What was noted so far, beside the table: the earliest notice that was shown open, one up or 0, and whether nothing waits.
#[derive(Clone, Copy)]
pub struct Noted {
    pub found: u64,
    pub clear: bool,
}

// A row of words, the first of them the number `from`: the table goes on, and the earliest that was shown open is handed back.
pub fn note_row(
    arinc: bool,
    kinds: [Kind; 16],
    parity: bool,
    row: &[u32],
    from: u64,
    table: &mut [u64],
    noted: Noted,
) -> Noted
    requires { (arinc ≡ has_arinc kinds) × Words row.now × (length row.now < 2 ^ 31) × (from + length row.now < 2 ^ 63) × (length table.old ≡ 64) × (noted.clear ≡ all_zero table.old) }
    ensures { RowNoted kinds parity from row.now noted.found table.old result.found table.new × (result.clear ≡ all_zero table.new) }
{
    if arinc {
        let quiet = quiet_words(kinds, parity, row, noted.clear);
        if quiet < row.len() {
            let rest = from + quiet as u64;
            let found = over_row(kinds, parity, &row[quiet..], rest, table, noted.found);
            let clear = is_clear(table);
            return Noted { found, clear };
        }
    }
    noted
}

// The words of a row, the first of them the number `from`: the first notice that is shown open in it.
fn first_shown(kinds: [Kind; 16], parity: bool, row: &[u32], from: u64, table: &mut [u64]) -> u64
    requires { Words row.now × (from + length row.now < 2 ^ 63) × (length table.old ≡ 64) }
    ensures { RowWatched kinds parity from row.now table.old result table.new }
{
    let mut first: u64 = 0;
    let mut i: usize = 0;
    while i < row.len() {
        let word = row[i];
        let bus = word::bus_of(parity, word);
        let shown = on_word(
            kinds[bus as usize],
            bus,
            word::label_of(word),
            word::information_of(word),
            from + i as u64,
            table,
            0,
        );
        first = or_first(first, shown);
        i += 1;
    }
    first
}

// A row of words as `note_row` takes it, but of those that it shows open the first is handed back, not the earliest: what a reading
// that cannot go back tells (K4).
pub fn watch_row(
    arinc: bool,
    kinds: [Kind; 16],
    parity: bool,
    row: &[u32],
    from: u64,
    table: &mut [u64],
) -> u64
    requires { (arinc ≡ has_arinc kinds) × Words row.now × (length row.now < 2 ^ 31) × (from + length row.now < 2 ^ 63) × (length table.old ≡ 64) }
    ensures { RowWatched kinds parity from row.now table.old result table.new }
{
    if arinc {
        let quiet = quiet_words(kinds, parity, row, is_clear(table));
        return first_shown(kinds, parity, &row[quiet..], from + quiet as u64, table);
    }
    0
}

// The earliest of the table and what was shown.
fn least_of(table: &[u64], found: u64) -> u64
    ensures { result ≡ earliest_of found table.now }
{
    let mut first = found;
    let mut i: usize = 0;
    while i < table.len() {
        first = earlier(first, table[i]);
        i += 1;
    }
    first
}

// Behind the last word: what waits is open. The number of the earliest open notice, one up, or 0.
pub fn at_end(clear: bool, table: &[u64], found: u64) -> u64
    requires { (length table.now < 2 ^ 31) × (clear ≡ all_zero table.now) }
    ensures { result ≡ earliest_of found table.now }
{
    if clear {
        return found;
    }
    least_of(table, found)
}

// A whole row of words: the number of the earliest open notice, one up, or 0.
pub fn first_open(kinds: [Kind; 16], parity: bool, words: &[u32]) -> u64
    requires { Words words.now × (length words.now < 2 ^ 31) }
    ensures { result ≡ open_row (roles_in kinds parity (counted 0 words.now)) }
{
    if has_arinc(kinds) {
        if any_notice(words) {
            let quiet = quiet_noticed(kinds, parity, words);
            if quiet == words.len() {
                return 0;
            }
            let mut table = [0u64; 64];
            let found = over_row(kinds, parity, &words[quiet..], quiet as u64, &mut table, 0);
            return least_of(&table, found);
        }
    }
    0
}
