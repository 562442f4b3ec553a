// Logs made of logs (document 02): pick and join (K7), "Crews work on one bus at a time and then put two sorties together." None takes a
// plan.
#![tactic(auto)]

ghost use Rattle.std.specs.Prelude.{◌≡◌, ◌++◌, ◌+◌, ◌/◌, ◌<◌, ◌≤◌, length, take, drop};
ghost use Rattle.format.specs.Answer.{Made};
ghost use Rattle.log_rules.specs.Pick.{joined, picked};
ghost use Rattle.log_edit.specs.Join.{both_bytes, Ends, Good, Joins, Later, pair_of};

use format::Answer;
use log_close::{copy, finish, refusal};
use log_pass::{Passed, pass};
use log_put::put_items;

// By way of an array that has room for a log as long as this one.
fn pick_in(log: &[u8], buses: u16, out: &mut [u8], built: &mut [u8]) -> Answer
    requires { length log.now ≤ 32768 → length log.now + 8 ≤ length built.old }
    ensures { Made (picked log.now buses (length out.old)) result out.old out.new }
{
    let put = put_items(log, buses, built);
    finish(put, built, out)
}

// "Picking takes a log and a set of bus codes and gives the log of exactly the items on those buses, in order." No large array is
// cleared for a short log.
pub fn pick(log: &[u8], buses: u16, out: &mut [u8]) -> Answer
    ensures { Made (picked log.now buses (length out.old)) result out.old out.new }
{
    if log.len() <= 56 {
        let mut built = [0u8; 64];
        return pick_in(log, buses, out, &mut built);
    }
    if log.len() <= 1024 {
        let mut built = [0u8; 1032];
        return pick_in(log, buses, out, &mut built);
    }
    let mut built = [0u8; 32776];
    pick_in(log, buses, out, &mut built)
}

// A byte of the second log, `shift` bits later: what is left of the byte before it, and as much of it as has room.
fn pair(before: u8, next: u8, shift: u32) -> u8
    requires { shift < 8 }
    ensures { result ≡ pair_of shift before next }
{
    (((before as u32 * 256 + next as u32) >> shift) % 256) as u8
}

// All bytes of the second log, `shift` bits later; the last of them, of which bits may be left.
fn put_later(out: &mut [u8], before: u8, bytes: &[u8], shift: u32) -> u8
    requires { (shift < 8) × (length bytes.now ≤ length out.old) }
    ensures { Later shift before bytes.now out.old out.new result }
{
    let mut last = before;
    let mut i: usize = 0;
    while i < bytes.len() {
        let next = bytes[i];
        out[i] = pair(last, next, shift);
        last = next;
        i += 1;
    }
    last
}

// Both logs' items and the end mark, where there is room: the first's whole bytes, and the second's behind its bits.
fn put_both(first: &[u8], one: usize, second: &[u8], bytes: usize, out: &mut [u8])
    requires { (one / 8 < length first.now) × (one / 8 + length second.now ≤ bytes) × (bytes ≤ one / 8 + length second.now + 1) × (bytes ≤ length out.old) }
    ensures { out.new ≡ take bytes (both_bytes one first.now second.now) ++ drop bytes out.old }
{
    let whole = one / 8;
    let shift = (one % 8) as u32;
    copy(out, first, whole);
    let before = (first[whole] as u32 >> (8 - shift)) as u8;
    let last = put_later(&mut out[whole..], before, second, shift);
    let far = whole + second.len();
    if far == bytes {
        return;
    }
    out[far] = pair(last, 0, shift);
}

// Of two good logs, whose items end at these bits: "then 6". Nothing lent is written before.
fn join_good(first: &[u8], one: usize, second: &[u8], two: usize, out: &mut [u8]) -> Answer
    requires { Ends first.now one × Ends second.now two }
    ensures { Joins first.now one second.now two result out.old out.new }
{
    let bytes = (one + two + 11) / 8;
    if 32768 < bytes {
        return refusal(6, bytes);
    }
    if out.len() < bytes {
        return refusal(6, bytes);
    }
    put_both(first, one, second, bytes, out);
    Answer {
        number: 0,
        place: 0,
        second: 0,
        bytes: bytes as u64,
        times: 0,
    }
}

// The second log behind a first that is good.
fn join_second(first: &[u8], one: usize, second: &[u8], out: &mut [u8]) -> Answer
    requires { Good first.now one }
    ensures { Made (joined first.now second.now (length out.old)) result out.old out.new }
{
    match pass(second) {
        Passed::All(two) => join_good(first, one, second, two, out),
        Passed::Fault { number, place } => refusal(number, place),
    }
}

// "Joining gives the first log's items, then the second's."
pub fn join(first: &[u8], second: &[u8], out: &mut [u8]) -> Answer
    ensures { Made (joined first.now second.now (length out.old)) result out.old out.new }
{
    match pass(first) {
        Passed::All(one) => join_second(first, one, second, out),
        Passed::Fault { number, place } => refusal(number, place),
    }
}
