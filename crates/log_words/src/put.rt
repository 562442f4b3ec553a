// Words put behind those in the row, if the log has all bits of their item and its bus is of the right kind.
ghost use Rattle.std.specs.Prelude.{◌≡◌, true, [], ◌∷◌, ◌+◌, ◌*◌, ◌/◌, ◌%◌, ◌^◌, ◌≤◌, ◌<◌, ltb, length};
ghost use Rattle.format.specs.Bits.{bytes_bits};
ghost use Rattle.format.specs.Item.{high_label, low_label};
ghost use Rattle.format.specs.Word.{word_of};
ghost use Rattle.log_read.specs.Cursor.{took_of};
ghost use Rattle.log_words.specs.Laid.{LaysTagged, LaysWords, Puts, Tags, faulty, syllables};

use log_read::{Channelled, Cursor};
use word;

// An item laid: number 0 and the places behind it, in the log and in the row; or its fault's number.
#[derive(Clone, Copy)]
pub struct Laid {
    pub number: usize,
    pub at: usize,
    pub count: usize,
}

pub fn fault(number: usize) -> Laid
    ensures { result ≡ faulty number }
{
    Laid {
        number,
        at: 0,
        count: 0,
    }
}

// One word more in the row, and the place behind it.
fn put(words: &mut [u32], count: usize, word: u32) -> usize
    requires { count < length words.old }
    ensures { Puts count (word ∷ []) words.old words.new result }
{
    words[count] = word;
    count + 1
}

// The two syllables of an ARINC word.
fn put_syllables(words: &mut [u32], bus: u32, fields: Channelled, count: usize) -> usize
    requires { (count + 2 ≤ length words.old) × (bus < 16) × (fields.channel < 4) }
    ensures { Puts count (syllables bus fields.channel fields.word) words.old words.new result }
{
    let high = word::join(bus, word::high_label(fields.channel), fields.word / 65536);
    let low = word::join(bus, word::low_label(fields.channel), fields.word % 65536);
    let next = put(words, count, high);
    put(words, next, low)
}

// An item of one word that ends at the bit `at`.
pub fn lay_one(
    words: &mut [u32],
    stands: bool,
    word: u32,
    at: usize,
    total: usize,
    count: usize,
) -> Laid
    requires { count < length words.old }
    ensures { LaysWords stands true (word ∷ []) at total count words.old words.new result }
{
    if total < at {
        return fault(2);
    }
    if stands {
        let next = put(words, count, word);
        return Laid {
            number: 0,
            at,
            count: next,
        };
    }
    fault(3)
}

// A status and its response time, which stands before it.
pub fn lay_timed(
    words: &mut [u32],
    stands: bool,
    bus: u32,
    word: u32,
    behind: Cursor,
    total: usize,
    count: usize,
) -> Laid
    requires { (count + 2 ≤ length words.old) × (bus < 16) × (behind.at ≤ 2 ^ 40) }
    ensures { LaysWords stands (ltb (took_of behind 14).field 10000) (word_of bus 4 (took_of behind 14).field ∷ word ∷ []) (behind.at + 14) total count words.old words.new result }
{
    let response = behind.take(14);
    if total < response.next.at {
        return fault(2);
    }
    if stands {
        if response.field < 10000 {
            let first = put(words, count, word::join(bus, 4, response.field));
            let next = put(words, first, word);
            return Laid {
                number: 0,
                at: response.next.at,
                count: next,
            };
        }
        return fault(4);
    }
    fault(3)
}

// The three words of the tag at a cursor.
fn lay_tag(words: &mut [u32], log: &[u8], bus: u32, at: Cursor, count: usize) -> Laid
    requires { (bus < 16) × (count + 3 ≤ length words.old) × (18 ≤ at.at) × (at.at + 46 ≤ length log.now * 8) × (length log.now ≤ 32768) }
    ensures { Tags (bytes_bits log.now) bus at.at count words.old words.new result }
{
    let tag = at.tag_filled(log).tagged();
    if tag.micro < 10000 {
        let high = put(words, count, word::join(bus, 7, tag.high));
        let low = put(words, high, word::join(bus, 6, tag.low));
        let micro = put(words, low, word::join(bus, 5, tag.micro));
        return Laid {
            number: 0,
            at: tag.next.at,
            count: micro,
        };
    }
    fault(4)
}

// A command and its tag.
pub fn lay_tagged(
    words: &mut [u32],
    log: &[u8],
    stands: bool,
    bus: u32,
    word: u32,
    tag: Cursor,
    count: usize,
) -> Laid
    requires { (bus < 16) × (count + 4 ≤ length words.old) × (18 ≤ tag.at) × (tag.at ≤ 2 ^ 40) × (length log.now ≤ 32768) }
    ensures { LaysTagged stands (word ∷ []) (bytes_bits log.now) bus tag.at (length log.now * 8) count words.old words.new result }
{
    if log.len() * 8 < tag.at + 46 {
        return fault(2);
    }
    if stands {
        let next = put(words, count, word);
        return lay_tag(words, log, bus, tag, next);
    }
    fault(3)
}

// An ARINC word without a tag, and with one.
pub fn lay_pair(
    words: &mut [u32],
    stands: bool,
    bus: u32,
    fields: Channelled,
    total: usize,
    count: usize,
) -> Laid
    requires { (count + 2 ≤ length words.old) × (bus < 16) × (fields.channel < 4) }
    ensures { LaysWords stands true (syllables bus fields.channel fields.word) fields.next.at total count words.old words.new result }
{
    if total < fields.next.at {
        return fault(2);
    }
    if stands {
        let next = put_syllables(words, bus, fields, count);
        return Laid {
            number: 0,
            at: fields.next.at,
            count: next,
        };
    }
    fault(3)
}

pub fn lay_pair_tagged(
    words: &mut [u32],
    log: &[u8],
    stands: bool,
    bus: u32,
    fields: Channelled,
    count: usize,
) -> Laid
    requires { (bus < 16) × (fields.channel < 4) × (count + 5 ≤ length words.old) × (18 ≤ fields.next.at) × (fields.next.at ≤ 2 ^ 40) × (length log.now ≤ 32768) }
    ensures { LaysTagged stands (syllables bus fields.channel fields.word) (bytes_bits log.now) bus fields.next.at (length log.now * 8) count words.old words.new result }
{
    let behind = fields.next;
    if log.len() * 8 < behind.at + 46 {
        return fault(2);
    }
    if stands {
        let next = put_syllables(words, bus, fields, count);
        return lay_tag(words, log, bus, behind, next);
    }
    fault(3) // 3 comes before 4: the tag is not looked at
}
