// Division of numbers below 2^32 by a 32-bit divide (document 02, K6): the airborne box has none that is wider, and the library
// routine does not fit.
#![tactic(auto)]

ghost use Rattle.std.specs.Prelude.{◌≡◌, ◌/◌, ◌%◌, ◌^◌, ◌<◌};

pub fn quotient(a: usize, b: usize) -> usize
    requires { (a < 2 ^ 32) × (0 < b) × (b < 2 ^ 32) }
    ensures { result ≡ a / b }
{
    (a as u32 / b as u32) as usize
}

pub fn remainder(a: usize, b: usize) -> usize
    requires { (a < 2 ^ 32) × (0 < b) × (b < 2 ^ 32) }
    ensures { result ≡ a % b }
{
    (a as u32 % b as u32) as usize
}
