// What the three calls of a capture as it arrives have in common (document 02, K4): the limits that are looked at first.
#![tactic(auto)]

ghost use Rattle.std.specs.Prelude.{◌≡◌};
ghost use Rattle.stream_calls.specs.Calls.{within};

// A state that is open, by its stage; "a piece too long, less than 12,288 bytes lent for log".
pub fn within(stage: u32, piece: usize, log_room: usize) -> bool
    ensures { result ≡ within stage piece log_room }
{
    if 4096 < piece {
        return false;
    }
    if log_room < 12288 {
        return false;
    }
    if stage == 1 {
        return true;
    }
    stage == 2
}
