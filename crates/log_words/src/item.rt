// One item: told by its fault's number, or its words put behind those in the row.
ghost use Rattle.std.specs.Prelude.{◌≡◌, true, ◌||◌, ◌+◌, ◌*◌, ◌-◌, ◌^◌, ◌≤◌, ◌<◌, eqb, length};
ghost use Rattle.format.specs.Bits.{bytes_bits};
ghost use Rattle.log_words.specs.Laid.{LaysAny, LaysIn, is_arinc, is_mil};
ghost use Rattle.log_words.specs.Plain.{plain_label, plain_stands};

use crate::put::{Laid, fault, lay_one, lay_pair, lay_pair_tagged, lay_tagged, lay_timed};
use format::{Kind, is_used};
use log_read::Head;
use word;

fn is_1553(kind: Kind) -> bool
    ensures { result ≡ is_mil kind }
{
    match kind {
        Kind::Unused => false,
        Kind::Mil1553 => true,
        Kind::Arinc429 => false,
    }
}

fn is_arinc(kind: Kind) -> bool
    ensures { result ≡ is_arinc kind }
{
    match kind {
        Kind::Unused => false,
        Kind::Mil1553 => false,
        Kind::Arinc429 => true,
    }
}

// A data word. The items have their kind and bus behind them; `kind` is their bus's.
fn lay_data(words: &mut [u32], kind: Kind, head: Head, total: usize, count: usize) -> Laid
    requires { (count + 5 ≤ length words.old) × (head.bus < 16) × (head.next.at ≤ 2 ^ 40) }
    ensures { LaysAny total kind head 3 count words.old words.new result }
{
    let next = head.next;
    let fields = next.sided();
    let word = word::join(head.bus, 13 - 4 * fields.side, fields.word);
    lay_one(words, is_1553(kind), word, fields.next.at, total, count)
}

// Of bus errors and user words: where they may stand, and their label.
fn plain_stands(kind: Kind, number: u32) -> bool
    ensures { result ≡ plain_stands kind number }
{
    if number < 7 {
        return is_1553(kind);
    }
    is_used(kind)
}

fn plain_label(number: u32, bit: u32) -> u32
    requires { (0 < number) × (number ≤ 8) × (bit < 2) }
    ensures { (result ≡ plain_label number bit) × (result < 16) }
{
    if number == 7 {
        return 2 + bit;
    }
    16 - number - 4 * bit
}

fn is_plain(number: u32) -> bool
    ensures { result ≡ (eqb number 4 || eqb number 7) }
{
    number == 4 || number == 7
}

// A bus error or a user word, by one way: which one comes is a surprise, and a wrong guess costs more than this.
fn lay_plain(words: &mut [u32], kind: Kind, head: Head, total: usize, count: usize) -> Laid
    requires { (count + 5 ≤ length words.old) × (head.bus < 16) × (head.next.at ≤ 2 ^ 40) × ((eqb head.kind 4 || eqb head.kind 7) ≡ true) }
    ensures { LaysAny total kind head head.kind count words.old words.new result }
{
    let next = head.next;
    let fields = next.sided();
    let label = plain_label(head.kind, fields.side);
    let word = word::join(head.bus, label, fields.word);
    lay_one(
        words,
        plain_stands(kind, head.kind),
        word,
        fields.next.at,
        total,
        count,
    )
}

fn lay_overflow(words: &mut [u32], kind: Kind, head: Head, total: usize, count: usize) -> Laid
    requires { (count + 5 ≤ length words.old) × (head.bus < 16) × (head.next.at ≤ 2 ^ 40) }
    ensures { LaysAny total kind head 8 count words.old words.new result }
{
    let next = head.next;
    let took = next.take(16);
    let word = word::join(head.bus, 0, took.field);
    lay_one(words, is_used(kind), word, took.next.at, total, count)
}

fn lay_notice(words: &mut [u32], kind: Kind, head: Head, total: usize, count: usize) -> Laid
    requires { (count + 5 ≤ length words.old) × (head.bus < 16) × (head.next.at ≤ 2 ^ 40) }
    ensures { LaysAny total kind head 6 count words.old words.new result }
{
    let next = head.next;
    let fields = next.noticed();
    let information = word::high_label(fields.channel) * 0x1000
        + word::low_label(fields.channel) * 0x100
        + fields.diagnostics;
    let word = word::join(head.bus, 4, information);
    lay_one(words, is_arinc(kind), word, fields.next.at, total, count)
}

// A command or a status, with its mark.
fn lay_marked(words: &mut [u32], log: &[u8], kind: Kind, head: Head, count: usize) -> Laid
    requires { (count + 5 ≤ length words.old) × (head.bus < 16) × (8 ≤ head.next.at) × (head.next.at ≤ 2 ^ 32) × (length log.now ≤ 32768) × (0 < head.kind) × (head.kind ≤ 2) }
    ensures { LaysIn (bytes_bits log.now) (length log.now * 8) kind head head.kind count words.old words.new result }
{
    let next = head.next;
    let fields = next.marked();
    let word = word::join(head.bus, 16 - head.kind - 4 * fields.side, fields.word);
    let stands = is_1553(kind);
    let behind = fields.next;
    if fields.mark == 1 {
        if head.kind == 1 {
            return lay_tagged(words, log, stands, head.bus, word, behind, count);
        }
        return lay_timed(words, stands, head.bus, word, behind, log.len() * 8, count);
    }
    lay_one(words, stands, word, behind.at, log.len() * 8, count)
}

fn lay_arinc(words: &mut [u32], log: &[u8], kind: Kind, head: Head, count: usize) -> Laid
    requires { (count + 5 ≤ length words.old) × (head.bus < 16) × (8 ≤ head.next.at) × (head.next.at ≤ 2 ^ 32) × (length log.now ≤ 32768) }
    ensures { LaysIn (bytes_bits log.now) (length log.now * 8) kind head 5 count words.old words.new result }
{
    let next = head.next;
    let fields = next.channelled();
    if fields.mark == 1 {
        return lay_pair_tagged(words, log, is_arinc(kind), head.bus, fields, count);
    }
    lay_pair(
        words,
        is_arinc(kind),
        head.bus,
        fields,
        log.len() * 8,
        count,
    )
}

// The item here that is neither a data word nor an ARINC word.
fn lay_other(words: &mut [u32], log: &[u8], kind: Kind, head: Head, count: usize) -> Laid
    requires count_in_bounds { (count + 5 ≤ length words.old) × (head.bus < 16) × (8 ≤ head.next.at) × (head.next.at ≤ 2 ^ 32) × (length log.now ≤ 32768) }
    requires fact { (head.kind ≡ 3 → ⊥) × (head.kind ≡ 5 → ⊥) }
    ensures { LaysIn (bytes_bits log.now) (length log.now * 8) kind head head.kind count words.old words.new result }
{
    let number = head.kind;
    if is_plain(number) {
        return lay_plain(words, kind, head, log.len() * 8, count);
    }
    if number == 0 {
        return fault(2);
    }
    if number <= 2 {
        return lay_marked(words, log, kind, head, count);
    }
    if number == 6 {
        return lay_notice(words, kind, head, log.len() * 8, count);
    }
    if number == 8 {
        return lay_overflow(words, kind, head, log.len() * 8, count);
    }
    fault(2)
}

// The item here, by the number of its kind: the words that come in runs first, so that the next one need not wait.
pub fn lay_item(words: &mut [u32], log: &[u8], kind: Kind, head: Head, count: usize) -> Laid
    requires { (count + 5 ≤ length words.old) × (head.bus < 16) × (8 ≤ head.next.at) × (head.next.at ≤ 2 ^ 32) × (length log.now ≤ 32768) }
    ensures { LaysIn (bytes_bits log.now) (length log.now * 8) kind head head.kind count words.old words.new result }
{
    let number = head.kind;
    if number == 3 {
        return lay_data(words, kind, head, log.len() * 8, count);
    }
    if number == 5 {
        return lay_arinc(words, log, kind, head, count);
    }
    lay_other(words, log, kind, head, count)
}
