// A wrong clock at the aircraft (document 02, K9): "all time tags and frame times moved by a signed number of microseconds".
#![tactic(auto)]

ghost use Rattle.std.specs.Prelude.{◌≡◌, true, ◌+◌, ◌*◌, ◌/◌, ◌<◌, ◌≤◌, length};
ghost use Rattle.from_c.specs.Numbers.{time_at, times_from};
ghost use Rattle.log_close.specs.Made.{Closable, Finishable};
ghost use Rattle.log_rules.specs.Shift.{in_limits, shifted};
ghost use Rattle.log_shift.specs.Shifted.{first_unmovable, moved_bytes, Moves, Shifted, ShiftsPut, ShiftsRow};

use format::Answer;
use from_c::{put_times, times_from};
use log_close::{copy, refusal};
use log_move::{in_limits, judged, moved_by, put_moved};
use log_put::Put;
use log_write::Pen;

// An entry of the row: eight bytes, most significant first.
fn time_at(times: &[u8], index: usize) -> u64
    requires { 8 * index + 8 ≤ length times.now }
    ensures { result ≡ time_at times.now (8 * index) }
{
    let start = 8 * index;
    let end = start + 8;
    let mut one = [0u64; 1];
    times_from(&times[start..end], &mut one);
    one[0]
}

// The index of the first frame time that cannot be moved, or how many there are.
fn first_unmovable(times: &[u8], by: i64) -> usize
    requires { in_limits by ≡ true }
    ensures { result ≡ first_unmovable by (times_from times.now) }
{
    let number = times.len() / 8;
    let mut index = 0;
    while index < number {
        if 42949672960000 <= moved_by(time_at(times, index), by) {
            return index;
        }
        index += 1;
    }
    index
}

// "The time row is written over"; spare bytes stay.
fn move_times(times: &mut [u8], by: i64)
    requires { (in_limits by ≡ true) × Moves by times.old }
    ensures { times.new ≡ moved_bytes by times.old }
{
    let number = times.len() / 8;
    let mut index = 0;
    while index < number {
        let start = 8 * index;
        let end = start + 8;
        let one = [moved_by(time_at(times, index), by); 1];
        put_times(&one, 1, &mut times[start..end]);
        index += 1;
    }
}

// Of a log whose items are put: "then a frame time likewise (its index); 6 last". Nothing lent is written before.
fn shift_row(pen: Pen, by: i64, times: &mut [u8], out: &mut [u8], built: &mut [u8]) -> Answer
    requires { (in_limits by ≡ true) × Closable pen (length built.old) }
    ensures { ShiftsRow by pen built.old result out.old out.new times.old times.new }
{
    let number = times.len() / 8;
    let late = first_unmovable(times, by);
    if late < number {
        return refusal(17, late);
    }
    let bytes = pen.close(built);
    if 32768 < bytes {
        return refusal(6, bytes);
    }
    if out.len() < bytes {
        return refusal(6, bytes);
    }
    copy(out, built, bytes);
    move_times(times, by);
    Answer {
        number: 0,
        place: 0,
        second: 0,
        bytes: bytes as u64,
        times: number as u64,
    }
}

// What was put, or its refusal.
fn shift_put(put: Put, by: i64, times: &mut [u8], out: &mut [u8], built: &mut [u8]) -> Answer
    requires { (in_limits by ≡ true) × Finishable put (length built.old) }
    ensures { ShiftsPut by put built.old result out.old out.new times.old times.new }
{
    match put {
        Put::All(pen) => shift_row(pen, by, times, out, built),
        Put::Fault { number, place } => refusal(number, place),
    }
}

// By way of an array that has room for a log as long as this one.
fn shift_in(log: &[u8], by: i64, times: &mut [u8], out: &mut [u8], built: &mut [u8]) -> Answer
    requires { (in_limits by ≡ true) × (length built.old < 32776 → length log.now + 8 ≤ length built.old) }
    ensures { Shifted (shifted log.now (times_from times.old) by (length out.old)) result out.old out.new times.old times.new }
{
    let put = put_moved(log, by, built);
    shift_put(put, by, times, out, built)
}

// No large array is cleared for a short log.
fn shift_moved(log: &[u8], by: i64, times: &mut [u8], out: &mut [u8]) -> Answer
    requires { in_limits by ≡ true }
    ensures { Shifted (shifted log.now (times_from times.old) by (length out.old)) result out.old out.new times.old times.new }
{
    if log.len() <= 56 {
        let mut built = [0u8; 64];
        return shift_in(log, by, times, out, &mut built);
    }
    if log.len() <= 1024 {
        let mut built = [0u8; 1032];
        return shift_in(log, by, times, out, &mut built);
    }
    let mut built = [0u8; 32776];
    shift_in(log, by, times, out, &mut built)
}

// "Refusals: 2, 4 as in composing; 17 for a shift out of limits (place 0)", then as above.
pub fn shift(log: &[u8], by: i64, times: &mut [u8], out: &mut [u8]) -> Answer
    ensures { Shifted (shifted log.now (times_from times.old) by (length out.old)) result out.old out.new times.old times.new }
{
    if in_limits(by) {
        return shift_moved(log, by, times, out);
    }
    match judged(log, 0) {
        Put::All(_) => refusal(17, 0),
        Put::Fault { number, place } => refusal(number, place),
    }
}
