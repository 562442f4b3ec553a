// The bit cursor (document 01): by value; its methods take self and hand back the field and the moved cursor.
ghost use Rattle.std.specs.Prelude.{◌≡◌, ◌+◌, ◌*◌, ◌/◌, ◌%◌, ◌≤◌, ◌<◌, ◌^◌, length, get_or, [], ◌∷◌};
ghost use Rattle.format.specs.Bits.{bits_of, bytes_bits};
ghost use Rattle.log_read.specs.Cursor.{eight, filled_of, tag_filled_of, took_of};

use crate::{Cursor, Took};

// Four bytes as one number, the first one highest.
fn four(a: u8, b: u8, c: u8, d: u8) -> u64
    ensures { (result ≡ a * 16777216 + b * 65536 + c * 256 + d) × (result < 4294967296) }
{
    a as u64 * 16777216 + b as u64 * 65536 + c as u64 * 256 + d as u64
}

// Eight bytes as one number, the first one highest; by fours, since of a longer sum the compiler makes no single load.
fn join(a: u8, b: u8, c: u8, d: u8, e: u8, f: u8, g: u8, h: u8) -> u64
    ensures { bytes_bits (a ∷ b ∷ c ∷ d ∷ e ∷ f ∷ g ∷ h ∷ []) ≡ bits_of 64 result }
{
    four(a, b, c, d) * 4294967296 + four(e, f, g, h)
}

// The eight bytes from i on, all of them there, as one number.
fn eight_in(s: &[u8], i: usize) -> u64
    requires { i + 8 ≤ length s.now }
    ensures { bytes_bits (eight s.now i) ≡ bits_of 64 result }
{
    join(
        s[i],
        s[i + 1],
        s[i + 2],
        s[i + 3],
        s[i + 4],
        s[i + 5],
        s[i + 6],
        s[i + 7],
    )
}

// The same where fewer than eight bytes are left. It is a loop, which keeps `filled` so small that it is inlined wherever it is
// called.
fn eight_cut(s: &[u8], i: usize) -> u64
    requires { (i ≤ 2 ^ 40) × (length s.now < i + 8) }
    ensures { bytes_bits (eight s.now i) ≡ bits_of 64 result }
{
    let mut n: u64 = 0;
    let mut m: usize = 0;
    while i + m < s.len() {
        n = (n << 8) + s[i + m] as u64;
        m += 1;
    }
    if m == 0 {
        return 0;
    }
    n << (64 - 8 * m) as u32
}

// The eight bytes from i on, zeros past the end, as one number.
fn eight_at(s: &[u8], i: usize) -> u64
    requires { i ≤ 2 ^ 40 }
    ensures { bytes_bits (eight s.now i) ≡ bits_of 64 result }
{
    if i + 8 <= s.len() {
        return eight_in(s, i);
    }
    eight_cut(s, i)
}

impl Cursor {
    // The same place, with the bits of eight bytes ahead, 57 or more; zeros past the log's end.
    pub fn filled(self, log: &[u8]) -> Cursor
        requires { self.at ≤ 2 ^ 40 }
        ensures { (result ≡ filled_of log.now self.at) × (result.at ≡ self.at) }
    {
        let at = self.at;
        Cursor {
            at,
            ahead: eight_at(log, at / 8) << (at % 8) as u32,
        }
    }

    // As `filled`, where the log has all eight bytes.
    pub fn filled_in(self, log: &[u8]) -> Cursor
        requires { (self.at / 8 + 8 ≤ length log.now) × (self.at ≤ 2 ^ 40) }
        ensures { (result ≡ filled_of log.now self.at) × (result.at ≡ self.at) }
    {
        let at = self.at;
        Cursor {
            at,
            ahead: eight_in(log, at / 8) << (at % 8) as u32,
        }
    }

    // The same place, with the 46 bits of a tag ahead, which the log has: from the eight bytes that end with them.
    pub fn tag_filled(self, log: &[u8]) -> Cursor
        requires { (18 ≤ self.at) × (self.at + 46 ≤ length log.now * 8) × (length log.now ≤ 4294967296) }
        ensures { (result ≡ tag_filled_of log.now self.at) × (result.at ≡ self.at) }
    {
        let at = self.at;
        let last = (at + 53) / 8;
        Cursor {
            at,
            ahead: eight_in(log, last - 8) << (at + 64 - 8 * last) as u32,
        }
    }

    // The next `width` bits of those ahead, and the cursor behind them.
    pub fn take(self, width: u32) -> Took
        requires { (1 ≤ width) × (width ≤ 32) × (self.at ≤ 2 ^ 60) }
        ensures { (result ≡ took_of self width) × (result.field < 2 ^ width) × (result.next.at ≡ self.at + width) }
    {
        let field = (self.ahead >> (64 - width)) as u32;
        let at = self.at + width as usize;
        let ahead = self.ahead << width;
        Took {
            field,
            next: Cursor { at, ahead },
        }
    }
}
