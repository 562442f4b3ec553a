// The numbers of a line. No text is refused: what is no digit ends a number, and one of no digits is 0.

ghost use Rattle.std.specs.Prelude.{◌≡◌, ◌<◌, ◌≤◌, MatchOption};
ghost use Rattle.case_text.specs.Number.{digit, digits_from, number_of};

// With room for a digit behind it.
const ROOM: u64 = 0x1000000000000000;

// 0 to 9 or A to F.
fn digit_of(byte: u8, base: u64) -> Option<u64>
    requires { base ≤ 16 }
    ensures { MatchOption result (base ≤ digit byte) (λ d. (d ≡ digit byte) × (d < base)) }
{
    let digit = match byte {
        b'0'..=b'9' => u64::from(byte - b'0'),
        b'A'..=b'F' => u64::from(byte - b'A' + 10),
        _ => return None,
    };
    if digit < base { Some(digit) } else { None }
}

// The digits that a word begins with, as far as they go.
pub fn digits(word: &[u8], base: u64) -> u64
    requires { base ≤ 16 }
    ensures { result ≡ digits_from base 0 word.now }
{
    let mut value = 0;
    for &byte in word {
        let Some(digit) = digit_of(byte, base) else {
            return value;
        };
        value = value % ROOM * base + digit;
    }
    value
}

// Decimal, or hexadecimal behind an x.
pub fn number(word: &[u8]) -> u64
    ensures { result ≡ number_of word.now }
{
    match word {
        [b'x', rest @ ..] => digits(rest, 16),
        _ => digits(word, 10),
    }
}
