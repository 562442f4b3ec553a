// The remainder by X^16 + X^15 + X^2 + 1 (document 01, "Groups"), without tables.
//
// X^16 + X^15 + X^2 + 1 is (X + 1) (X^15 + X + 1), and X^15 is X + 1 by the second of these: so a product by a power of X is a few
// shifts, and X^30 is X^2 + 1. What is kept is the words so far by X^15 + X + 1, in 30 bits, and their sum bit by bit, whose parity
// is the remainder by X + 1.
#![tactic(auto)]

ghost use Rattle.std.specs.Prelude.{◌≡◌, [], ◌∷◌, ◌<◌, ◌^◌};
ghost use Rattle.std.specs.Int.Bits.{bit_xor};
ghost use Rattle.crc.specs.Running.{next_five, same};
ghost use Rattle.crc.specs.Sum.{Small, Sums, Added, Summed, check_of_sum, folded, reduced};

use word::is_odd;

// The words so far.
#[derive(Clone, Copy)]
pub struct Sum {
    pub rest: u64,
    pub ones: u64,
}

// A number of up to 58 bits by X^30 + X^2 + 1.
fn fold(v: u64) -> u64
    requires { v < 2 ^ 58 }
    ensures { result ≡ folded v }
{
    let over = v / 0x40000000;
    v % 0x40000000 ^ over ^ over * 4
}

// A number of up to 45 bits by X^15 + X + 1, but for what that leaves above 15 bits.
fn reduce(v: u64) -> u64
    requires { v < 2 ^ 45 }
    ensures { result ≡ reduced v }
{
    let over = v / 0x8000;
    v % 0x8000 ^ over ^ over * 2
}

impl Sum {
    // No words.
    pub fn start() -> Sum
        ensures { Sums [] result }
    {
        Sum { rest: 0, ones: 0 }
    }

    // One word more: the words so far by X^24, which is X^9 (X + 1).
    pub fn add(self, word: u32) -> Sum
        requires { Small self × (word < 2 ^ 24) }
        ensures { Added self (word ∷ []) result }
    {
        let rest = self.rest;
        let wide = word as u64;
        Sum {
            rest: fold((rest ^ rest * 2) * 0x200 ^ wide),
            ones: self.ones ^ wide,
        }
    }

    // Two words more: the words so far by X^48, which is X^3 (X + 1) (X^2 + 1).
    pub fn add_two(self, one: u32, two: u32) -> Sum
        requires { Small self × (one < 2 ^ 24) × (two < 2 ^ 24) }
        ensures { Added self (one ∷ two ∷ []) result }
    {
        let rest = self.rest;
        let odd = rest ^ rest * 2;
        let far = odd ^ odd * 4;
        let both = one as u64 * 0x1000000 + two as u64;
        Sum {
            rest: fold(far * 8 ^ both),
            ones: self.ones ^ (one ^ two) as u64,
        }
    }

    // The words so far by X^120, which is X^8 + 1, and five more whose sum is `five`.
    fn add_five(self, five: Sum) -> Sum
        requires { Small self × Small five }
        ensures { Small result × (check_of_sum result ≡ bit_xor (next_five (check_of_sum self) 0) (check_of_sum five)) }
    {
        let rest = self.rest;
        Sum {
            rest: fold(rest * 0x100 ^ rest ^ five.rest),
            ones: self.ones ^ five.ones,
        }
    }

    // The same word so many times more.
    pub fn add_same(self, word: u32, times: usize) -> Sum
        requires { Small self × (word < 2 ^ 24) }
        ensures { Added self (same word times) result }
    {
        let five = Sum::start()
            .add(word)
            .add_two(word, word)
            .add_two(word, word);
        let mut sum = self;
        let mut left = times;
        while 5 <= left {
            sum = sum.add_five(five);
            left -= 5;
        }
        while 0 < left {
            sum = sum.add(word);
            left -= 1;
        }
        sum
    }

    // The same for a plan with CRC; without it nothing is summed.
    pub fn with_one(self, crc: bool, word: u32) -> Sum
        requires { Small self × (word < 2 ^ 24) }
        ensures { Summed crc self (word ∷ []) result }
    {
        if crc { self.add(word) } else { self }
    }

    pub fn with_two(self, crc: bool, one: u32, two: u32) -> Sum
        requires { Small self × (one < 2 ^ 24) × (two < 2 ^ 24) }
        ensures { Summed crc self (one ∷ two ∷ []) result }
    {
        if crc { self.add_two(one, two) } else { self }
    }

    pub fn with_same(self, crc: bool, word: u32, times: usize) -> Sum
        requires { Small self × (word < 2 ^ 24) }
        ensures { Summed crc self (same word times) result }
    {
        if crc {
            self.add_same(word, times)
        } else {
            self
        }
    }

    // The remainder of the words and 16 zero bits: by X^16, which is X (X + 1), and then by X^15 + X + 1 to the end.
    pub fn check(self) -> u32
        requires { Small self }
        ensures { (result ≡ check_of_sum self) × (result < 2 ^ 16) }
    {
        let rest = self.rest;
        let less = reduce(reduce(rest * 2 ^ rest * 4)) as u32;
        if is_odd(less ^ self.ones as u32) {
            return less ^ 0x8003;
        }
        less
    }
}
