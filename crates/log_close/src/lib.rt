// What was put, handed over: the refusals of a log, "then 6", or the log itself.
#![tactic(auto)]

ghost use Rattle.std.specs.Prelude.{◌≡◌, ◌++◌, ◌≤◌, length, take, drop};
ghost use Rattle.format.specs.Answer.{refusal};
ghost use Rattle.log_close.specs.Made.{Closable, Finishable, Finishes, Gives};

use format::Answer;
use log_put::Put;
use log_write::Pen;

// The first n bytes of `from`.
pub fn copy(to: &mut [u8], from: &[u8], n: usize)
    requires { (n ≤ length to.old) × (n ≤ length from.now) }
    ensures { to.new ≡ take n from.now ++ drop n to.old }
{
    let mut i: usize = 0;
    while i < n {
        to[i] = from[i];
        i += 1;
    }
}

pub fn refusal(number: u32, place: usize) -> Answer
    ensures { result ≡ refusal number place 0 }
{
    Answer {
        number,
        place: place as u64,
        second: 0,
        bytes: 0,
        times: 0,
    }
}

// "then 6", and then the log, which is closed in `built` first.
pub fn give(pen: Pen, built: &mut [u8], out: &mut [u8]) -> Answer
    requires { Closable pen (length built.old) }
    ensures { Gives pen built.old result out.old out.new }
{
    let bytes = pen.close(built);
    if 32768 < bytes {
        return refusal(6, bytes);
    }
    if out.len() < bytes {
        return refusal(6, bytes);
    }
    copy(out, built, bytes);
    Answer {
        number: 0,
        place: 0,
        second: 0,
        bytes: bytes as u64,
        times: 0,
    }
}

// What was put, or its refusal.
pub fn finish(put: Put, built: &mut [u8], out: &mut [u8]) -> Answer
    requires { Finishable put (length built.old) }
    ensures { Finishes put built.old result out.old out.new }
{
    match put {
        Put::All(pen) => give(pen, built, out),
        Put::Fault { number, place } => refusal(number, place),
    }
}
