// How many bits of the house log the words of items stand for: where the item behind them begins.
#![tactic(auto)]

ghost use Rattle.std.specs.Prelude.{◌≡◌, ◌<◌, ◌^◌, length};
ghost use Rattle.notices.specs.Roles.{Words};
ghost use Rattle.log_bits.specs.Bits.{bits_in, four_bits, label_bits, lower_bits, upper_bits};

use format::Kind;

// The bits that a word stands for in the log, by its label and the kind of its bus.
fn upper_bits(kind: Kind, label: u32) -> usize
    ensures { result ≡ upper_bits kind label }
{
    match kind {
        Kind::Unused => 0,
        Kind::Mil1553 => if label % 4 < 2 { 25 } else { 26 },
        Kind::Arinc429 => if label % 2 == 1 { 27 } else { 16 },
    }
}

fn four_bits(kind: Kind) -> usize
    ensures { result ≡ four_bits kind }
{
    match kind {
        Kind::Unused => 0,
        Kind::Mil1553 => 14,
        Kind::Arinc429 => 18,
    }
}

fn lower_bits(label: u32) -> usize
    ensures { result ≡ lower_bits label }
{
    match label {
        0 => 24,
        1 => 25,
        2 => 25,
        3 => 25,
        5 => 14,
        _ => 16,
    }
}

fn label_bits(kind: Kind, label: u32) -> usize
    ensures { result ≡ label_bits kind label }
{
    if 8 <= label {
        return upper_bits(kind, label);
    }
    if label == 4 {
        return four_bits(kind);
    }
    lower_bits(label)
}

// The bits of the log that words, not sent yet, stand for: where the item behind them begins.
pub fn bits_before(kinds: [Kind; 16], words: &[u32]) -> usize
    requires { Words words.now × (length words.now < 2 ^ 31) }
    ensures { result ≡ bits_in kinds words.now }
{
    let mut bits: usize = 0;
    let mut i: usize = 0;
    while i < words.len() {
        let word = words[i];
        let kind = kinds[word::bus_of(false, word) as usize];
        bits += label_bits(kind, word::label_of(word));
        i += 1;
    }
    bits
}
