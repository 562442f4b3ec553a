// Fill seen from word to word: the number of the earliest misplaced one (document 01, "Groups").
ghost use Rattle.std.specs.Prelude.{◌≡◌, ◌<◌, ◌^◌};
ghost use Rattle.data_run.specs.Fills.{odd_fill, on_data, on_fill, or_place};

// Where fill stood so far, each number one up, 0 for none: the first fill of all, and the earliest that is misplaced.
#[derive(Clone, Copy)]
pub struct Fills {
    pub first: u64,
    pub misplaced: u64,
}

fn or_place(old: u64, number: u64) -> u64
    requires { number < 2 ^ 40 }
    ensures { result ≡ or_place old number }
{
    if old == 0 { number + 1 } else { old }
}

// Fill, the word of this number; `odd` if it is misplaced whatever follows.
pub(crate) fn on_fill(fills: Fills, number: u64, odd: bool) -> Fills
    requires { number < 2 ^ 40 }
    ensures { result ≡ on_fill fills number odd }
{
    let first = or_place(fills.first, number);
    if odd {
        return Fills {
            first: first,
            misplaced: or_place(fills.misplaced, number),
        };
    }
    Fills {
        first: first,
        misplaced: fills.misplaced,
    }
}

// A data word: the first fill of all, if any came before, is misplaced.
pub(crate) fn on_data(fills: Fills) -> Fills
    ensures { result ≡ on_data fills }
{
    Fills {
        first: fills.first,
        misplaced: fills.first,
    }
}

// Whether fill is misplaced whatever follows it: the plan's fill is on the bus `code`.
pub(crate) fn is_odd_fill(code: u32, i: usize, bus: u32) -> bool
    ensures { result ≡ odd_fill code i bus }
{
    i == 0 || bus != code
}
