// What a data word finished, put into the log.
#![tactic(auto)]

ghost use Rattle.std.specs.Prelude.{◌≡◌, ◌<◌, ◌^◌};
ghost use Rattle.data_put.specs.Put.{Strings, step_out, step_pen};

use data_start::Step;
use log_write::Pen;

// The bits of the items that a word finished.
pub fn put_step(pen: Pen, out: &mut [u8], step: Step) -> Pen
    requires { (pen.bits < 2 ^ 60) × Strings step }
    ensures { (result ≡ step_pen pen step) × (out.new ≡ step_out out.old pen step) }
{
    let half = pen.put(out, step.first, step.first_width);
    half.put(out, step.second, step.second_width)
}
