// What every reading of a capture shares: whole groups, each lent its own bytes, where a data word stands, the frame times, and a refusal.
#![tactic(auto)]

ghost use Rattle.std.specs.Prelude.{◌≡◌, ◌++◌, ◌*◌, ◌/◌, ◌%◌, ◌^◌, ◌<◌, ◌≤◌, eqb, length, drop};
ghost use Rattle.format.specs.Answer.{refusal};
ghost use Rattle.format.specs.Group.{group_time};
ghost use Rattle.format.specs.Lists.{list};
ghost use Rattle.format.specs.Plan.{group_words, slots, stored_at, times_needed};
ghost use Rattle.format.specs.Laws.Limits.{Shape};
ghost use Rattle.capture_parts.specs.Room.{earlier, short_of};

use format::{Answer, Plan};
use narrow;
use plan::group_words;

pub fn refusal(number: u32, place: u64, second: u64) -> Answer
    ensures { result ≡ refusal number place second }
{
    Answer {
        number: number,
        place: place,
        second: second,
        bytes: 0,
        times: 0,
    }
}

// The frame times that a capture of n groups has.
pub fn times_of(plan: Plan, n: usize) -> usize
    ensures { result ≡ times_needed plan n }
{
    if plan.frame_time { n } else { 0 }
}

// How many whole groups so many bytes have.
pub fn groups_in(plan: Plan, length: usize) -> usize
    requires { Shape plan × (length ≤ 1048576) }
    ensures { result ≡ length / (3 * group_words plan) }
{
    narrow::quotient(length, 3 * group_words(plan))
}

// Not "not whole groups" (answer 8).
pub fn is_whole(plan: Plan, length: usize) -> bool
    requires { Shape plan × (length ≤ 1048576) }
    ensures { result ≡ eqb (length % (3 * group_words plan)) 0 }
{
    narrow::remainder(length, 3 * group_words(plan)) == 0
}

// Where the data word of this number stands in the capture: of its group, which has `count` of them, and there as it is dealt.
pub fn stored_place(plan: Plan, count: usize, number: u64) -> u64
    requires { Shape plan × (count ≡ slots plan) × (number < 2 ^ 32) }
    ensures { result ≡ stored_at plan number }
{
    let n = number as usize;
    let group = narrow::quotient(n, count);
    let place = group_read::place_of(plan, group_read::lead(plan) + narrow::remainder(n, count));
    (group * (plan.tracks * plan.words) + place) as u64
}

// The frame times of n groups.
pub fn write_times(capture: &[u8], plan: Plan, n: usize, times: &mut [u64])
    requires { Shape plan × (3 * (n * group_words plan) ≤ length capture.now) × (length capture.now ≤ 1048576) × (n ≤ length times.old) }
    ensures { times.new ≡ list (λ g. group_time plan capture.now (g * group_words plan)) 0 n ++ drop n times.old }
{
    let size = 3 * group_words(plan);
    let mut g: usize = 0;
    while g < n {
        let begin = g * size;
        let end = begin + size;
        times[g] = group_read::group_time(&capture[begin..end], plan);
        g += 1;
    }
}

// The number of a refusal where the room is less than what is needed, else 0.
pub fn short_of(number: u32, needed: usize, room: usize) -> u32
    ensures { result ≡ short_of number needed room }
{
    if needed <= room { 0 } else { number }
}

// Of two numbers of refusals the first that is not 0.
pub fn earlier(first: u32, then: u32) -> u32
    ensures { result ≡ earlier first then }
{
    if first == 0 { then } else { first }
}
