// The front-end buffer replayed (document 02, K13): "Before a flight we want to know if a buffer is large enough."
#![tactic(auto)]

ghost use Rattle.std.specs.Prelude.{◌≡◌, List, ◌++◌, ℕ, ◌+◌, ◌≤◌, ◌<◌, ◌^◌, ◌&&◌, leb, length, take, drop};
ghost use Rattle.format.specs.Log.{items, on_no_plan, parsed};
ghost use Rattle.log_rules.specs.Items.{items_of};
ghost use Rattle.log_rules.specs.Replay.{Buffer, Replays, denies, replay_answer, replayed, stores_in};
ghost use Rattle.log_replay.specs.Run.{EndsAs, Ready, Runs, given, start_state};

use log_buffer::Level;
use log_events::{Verdict, refused_by};
use log_read::Cursor;
use log_rules::Replayed;
use log_store::{State, turn};
use log_write::Pen;

fn deny(number: u32, place: usize) -> Replayed
    ensures { result ≡ replay_answer (denies number place) }
{
    Replayed {
        number,
        place: place as u64,
        second: 0,
        bytes: 0,
        sent: 0,
        lost: 0,
        held: 0,
    }
}

// The first n bytes of `from`.
fn copy(to: &mut [u8], from: &[u8], n: usize)
    requires { (n ≤ length to.old) × (n ≤ length from.now) }
    ensures { to.new ≡ take n from.now ++ drop n to.old }
{
    let mut i: usize = 0;
    while i < n {
        to[i] = from[i];
        i += 1;
    }
}

// "then 6": "output too short, or a log above 32,768".
fn fits_in(bytes: usize, room: usize) -> bool
    ensures { result ≡ (leb bytes 32768 && leb bytes room) }
{
    if 32768 < bytes {
        return false;
    }
    bytes <= room
}

fn hand_over(level: Level, bytes: usize, built: &[u8], out: &mut [u8]) -> Replayed
    requires { (bytes ≤ length out.old) × (bytes ≤ length built.now) }
    ensures { (result ≡ given bytes level) × (out.new ≡ take bytes built.now ++ drop bytes out.old) }
{
    copy(out, built, bytes);
    Replayed {
        number: 0,
        place: 0,
        second: 0,
        bytes: bytes as u64,
        sent: level.sent as u64,
        lost: level.lost as u64,
        held: level.held as u64,
    }
}

// The log is closed in `built`; then 6, or it is handed over.
fn give(level: Level, pen: Pen, built: &mut [u8], out: &mut [u8]) -> Replayed
    requires { (pen.bits < 2 ^ 61) × (length built.old < 32776 → length out.old + 8 ≤ length built.old) }
    ensures { (s : Buffer) → EndsAs s built.old level pen → Replays (stores_in (length out.old) s) result out.old out.new }
{
    let bytes = pen.close(built);
    if !fits_in(bytes, out.len()) {
        return deny(6, bytes);
    }
    hand_over(level, bytes, built, out)
}

// Nothing has happened yet.
fn start() -> State
    ensures { result ≡ start_state }
{
    State {
        at: Cursor { at: 0, ahead: 0 },
        level: Level {
            sent: 0,
            lost: 0,
            held: 0,
            unmarked: 0,
            bus: 0,
        },
        pen: Pen::start(),
    }
}

// All events, one after the other.
fn run(log: &[u8], events: &[u8], capacity: u32, slots: u32, built: &mut [u8]) -> State
    requires { Ready log.now events.now capacity slots }
    ensures { Runs log.now events.now capacity slots built.new result }
{
    let mut state = start();
    let mut i: usize = 0;
    while i < events.len() {
        state = turn(log, events[i], capacity, slots, state, built);
        i += 1;
    }
    state
}

// By way of an array that has room for every log that is not refused.
fn replay_in(
    log: &[u8],
    events: &[u8],
    capacity: u32,
    slots: u32,
    out: &mut [u8],
    built: &mut [u8],
) -> Replayed
    requires ready { Ready log.now events.now capacity slots }
    requires out_in_bounds { length built.old < 32776 → length out.old + 8 ≤ length built.old }
    ensures { Replays (replayed log.now events.now capacity slots (length out.old)) result out.old out.new }
{
    let state = run(log, events, capacity, slots, built);
    give(state.level, state.pen, built, out)
}

// No large array is cleared for a small room.
fn replay_sized(log: &[u8], events: &[u8], capacity: u32, slots: u32, out: &mut [u8]) -> Replayed
    requires { Ready log.now events.now capacity slots }
    ensures { Replays (replayed log.now events.now capacity slots (length out.old)) result out.old out.new }
{
    if out.len() <= 1024 {
        let mut built = [0u8; 1032];
        return replay_in(log, events, capacity, slots, out, &mut built);
    }
    let mut built = [0u8; 32776];
    replay_in(log, events, capacity, slots, out, &mut built)
}

// "Refusals: 2, 4 as in composing; then 19 ..; then 6." All but 6 are known before anything is replayed, and the log is built apart
// from the lent output.
pub fn replay(log: &[u8], events: &[u8], capacity: u32, slots: u32, out: &mut [u8]) -> Replayed
    ensures { Replays (replayed log.now events.now capacity slots (length out.old)) result out.old out.new }
{
    match refused_by(log, events, capacity, slots) {
        Verdict::May => replay_sized(log, events, capacity, slots, out),
        Verdict::Not { number, place } => deny(number, place),
    }
}
