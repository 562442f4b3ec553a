// The two readings (document 01, "Groups" and "Answers by number").
#![tactic(auto)]

ghost use Rattle.std.specs.Prelude.{◌≡◌, cond, false, true, ℕ, ◌+◌, ◌*◌, ◌/◌, ◌%◌, ◌≤◌, eqb, length, take, drop, List, ◌++◌};
ghost use Rattle.format.specs.Answer.{Given, refusal};
ghost use Rattle.format.specs.Group.{group_time};
ghost use Rattle.format.specs.Lists.{list};
ghost use Rattle.format.specs.Plan.{group_words, times_needed};
ghost use Rattle.format.specs.Read.{reading, read_groups, roomed, settled};
ghost use Rattle.format.specs.declared.Held.TheVariants.{Nothing};
ghost use Rattle.format.specs.Laws.Limits.{Shape};
ghost use Rattle.read.specs.Room.{Built, Enough, room_number};

use capture_parts::{
    earlier, groups_in, is_whole, refusal, short_of, stored_place, times_of, write_times,
};
use format::{Answer, Kind, Plan};
use plan::{legal, slots};
use read_groups::read_groups;

// The first n bytes of `from`.
fn copy(to: &mut [u8], from: &[u8], n: usize)
    requires { (n ≤ length to.old) × (n ≤ length from.now) }
    ensures { to.new ≡ take n from.now ++ drop n to.old }
{
    let mut i: usize = 0;
    while i < n {
        to[i] = from[i];
        i += 1;
    }
}

// "6, 7": the number of the refusal for want of room, 0 for none.
fn room_number(bytes: usize, log_room: usize, needed: usize, time_room: usize) -> u32
    ensures { result ≡ room_number bytes log_room needed time_room }
{
    let long = short_of(6, bytes, 32768);
    let log = short_of(6, bytes, log_room);
    let times = short_of(7, needed, time_room);
    earlier(long, earlier(log, times))
}

// "6, 7" last, and then the log and the times; `built` holds the log of so many bytes, if it has room for it.
fn give(
    plan: Plan,
    capture: &[u8],
    n: usize,
    built: &[u8],
    bytes: usize,
    log: &mut [u8],
    times: &mut [u64],
) -> Answer
    requires shape { Shape plan × (3 * (n * group_words plan) ≤ length capture.now) × (length capture.now ≤ 1048576) }
    requires bytes_in_bounds { bytes ≤ 32768 → bytes ≤ length log.old → bytes + 7 ≤ length built.now }
    ensures { (whole : List ℕ) → Built whole built.now bytes → Given (roomed plan capture.now n (length log.old) (length times.old) whole) result log.old log.new times.old times.new }
{
    let need = times_of(plan, n);
    let number = room_number(bytes, log.len(), need, times.len());
    if number == 6 {
        return refusal(6, bytes as u64, 0);
    }
    if number == 7 {
        return refusal(7, need as u64, 0);
    }
    copy(log, built, bytes);
    write_times(capture, plan, need, times);
    Answer {
        number: 0,
        place: 0,
        second: 0,
        bytes: bytes as u64,
        times: need as u64,
    }
}

// The plain reading asks nothing of fill.
fn asked(closed: bool, misplaced: u64) -> u64
    ensures { result ≡ cond closed misplaced 0 }
{
    if closed { misplaced } else { 0 }
}

// One body for both readings; `built` is where the log is built, and has room for every log that is not refused.
fn read_by(
    closed: bool,
    plan: Plan,
    kinds: [Kind; 16],
    capture: &[u8],
    built: &mut [u8],
    log: &mut [u8],
    times: &mut [u64],
) -> Answer
    requires shape { Shape plan × (length capture.now ≤ 1048576) × (length capture.now % (3 * group_words plan) ≡ 0) }
    requires enough { Enough plan kinds capture.now (length built.old) (length log.old) }
    ensures { Given (settled plan capture.now (length capture.now / (3 * group_words plan)) (length log.old) (length times.old) closed (read_groups plan kinds capture.now (length capture.now / (3 * group_words plan)) 0 Nothing 0)) result log.old log.new times.old times.new }
{
    let n = groups_in(plan, capture.len());
    let count = slots(plan);
    let end = read_groups(kinds, plan, count, capture, n, built);
    if end.number != 0 {
        return refusal(end.number, end.place, end.second);
    }
    if end.notice != 0 {
        return refusal(15, stored_place(plan, count, end.notice - 1), 0);
    }
    let misplaced = asked(closed, end.misplaced);
    if misplaced != 0 {
        return refusal(14, stored_place(plan, count, misplaced - 1), 0);
    }
    give(plan, capture, n, built, end.bytes, log, times)
}

fn read_tiny(
    closed: bool,
    plan: Plan,
    kinds: [Kind; 16],
    capture: &[u8],
    log: &mut [u8],
    times: &mut [u64],
) -> Answer
    requires shape { Shape plan × (length capture.now ≤ 1048576) × (length capture.now % (3 * group_words plan) ≡ 0) }
    requires enough { Enough plan kinds capture.now 552 (length log.old) }
    ensures { Given (settled plan capture.now (length capture.now / (3 * group_words plan)) (length log.old) (length times.old) closed (read_groups plan kinds capture.now (length capture.now / (3 * group_words plan)) 0 Nothing 0)) result log.old log.new times.old times.new }
{
    let mut built = [0u8; 552];
    read_by(closed, plan, kinds, capture, &mut built, log, times)
}

fn read_small(
    closed: bool,
    plan: Plan,
    kinds: [Kind; 16],
    capture: &[u8],
    log: &mut [u8],
    times: &mut [u64],
) -> Answer
    requires shape { Shape plan × (length capture.now ≤ 1048576) × (length capture.now % (3 * group_words plan) ≡ 0) }
    requires enough { Enough plan kinds capture.now 2056 (length log.old) }
    ensures { Given (settled plan capture.now (length capture.now / (3 * group_words plan)) (length log.old) (length times.old) closed (read_groups plan kinds capture.now (length capture.now / (3 * group_words plan)) 0 Nothing 0)) result log.old log.new times.old times.new }
{
    let mut built = [0u8; 2056];
    read_by(closed, plan, kinds, capture, &mut built, log, times)
}

fn read_middle(
    closed: bool,
    plan: Plan,
    kinds: [Kind; 16],
    capture: &[u8],
    log: &mut [u8],
    times: &mut [u64],
) -> Answer
    requires shape { Shape plan × (length capture.now ≤ 1048576) × (length capture.now % (3 * group_words plan) ≡ 0) }
    requires enough { Enough plan kinds capture.now 8200 (length log.old) }
    ensures { Given (settled plan capture.now (length capture.now / (3 * group_words plan)) (length log.old) (length times.old) closed (read_groups plan kinds capture.now (length capture.now / (3 * group_words plan)) 0 Nothing 0)) result log.old log.new times.old times.new }
{
    let mut built = [0u8; 8200];
    read_by(closed, plan, kinds, capture, &mut built, log, times)
}

fn read_large(
    closed: bool,
    plan: Plan,
    kinds: [Kind; 16],
    capture: &[u8],
    log: &mut [u8],
    times: &mut [u64],
) -> Answer
    requires { Shape plan × (length capture.now ≤ 1048576) × (length capture.now % (3 * group_words plan) ≡ 0) }
    ensures { Given (settled plan capture.now (length capture.now / (3 * group_words plan)) (length log.old) (length times.old) closed (read_groups plan kinds capture.now (length capture.now / (3 * group_words plan)) 0 Nothing 0)) result log.old log.new times.old times.new }
{
    let mut built = [0u8; 32776];
    read_by(closed, plan, kinds, capture, &mut built, log, times)
}

// "Reading checks 1, 8; then group by group".
fn read_either(
    closed: bool,
    plan: Plan,
    kinds: [Kind; 16],
    capture: &[u8],
    log: &mut [u8],
    times: &mut [u64],
) -> Answer
    ensures { Given (reading closed plan kinds capture.now (length log.old) (length times.old)) result log.old log.new times.old times.new }
{
    let length = capture.len();
    if !legal(plan, kinds) {
        return refusal(1, 0, 0);
    }
    if 1048576 < length {
        return refusal(8, length as u64, 0);
    }
    if !is_whole(plan, length) {
        return refusal(8, length as u64, 0);
    }
    // No large array is cleared for a small capture, or for a small room.
    if length <= 501 {
        return read_tiny(closed, plan, kinds, capture, log, times);
    }
    if length <= 1884 {
        return read_small(closed, plan, kinds, capture, log, times);
    }
    if log.len() <= 2048 {
        return read_small(closed, plan, kinds, capture, log, times);
    }
    if length <= 7560 {
        return read_middle(closed, plan, kinds, capture, log, times);
    }
    read_large(closed, plan, kinds, capture, log, times)
}

// The plain reading: fill is dropped on any bus and in any slot.
pub fn read(
    plan: Plan,
    kinds: [Kind; 16],
    capture: &[u8],
    log: &mut [u8],
    times: &mut [u64],
) -> Answer
    ensures { Given (reading false plan kinds capture.now (length log.old) (length times.old)) result log.old log.new times.old times.new }
{
    read_either(false, plan, kinds, capture, log, times)
}

// The closed reading: misplaced fill is refused.
pub fn read_closed(
    plan: Plan,
    kinds: [Kind; 16],
    capture: &[u8],
    log: &mut [u8],
    times: &mut [u64],
) -> Answer
    ensures { Given (reading true plan kinds capture.now (length log.old) (length times.old)) result log.old log.new times.old times.new }
{
    read_either(true, plan, kinds, capture, log, times)
}
