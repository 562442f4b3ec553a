// A capture as it arrives (document 02, K4): "We want an opening, a feeding and a closing call". Here the first two.
#![tactic(auto)]

ghost use Rattle.std.specs.Prelude.{◌≡◌, length};
ghost use Rattle.stream_state.specs.AtWork.{table_at};
ghost use Rattle.stream_calls.specs.Calls.{Feeds, Opens};
ghost use Rattle.stream_groups.specs.Feeding.{Fed};

use capture_parts::{groups_in, refusal, times_of};
use format::{Answer, Kind, Plan};
use plan::{group_words, legal};
use stream_calls::within;
use stream_groups::feed_groups;
use stream_state::{Stand, keep, load, store_closed, store_open};

// ---- The opening

// "1 at the opening (the state is then closed)".
pub fn open(plan: Plan, kinds: [Kind; 16], state: &mut [u8]) -> Answer
    ensures { Opens plan kinds state.old result state.new }
{
    if state.len() != 7168 {
        return refusal(16, 0, 0);
    }
    if !legal(plan, kinds) {
        store_closed(state);
        return refusal(1, 0, 0);
    }
    store_open(state, plan, kinds);
    refusal(0, 0, 0)
}

// ---- Feeding

// A state at work: "fewer lent entries than the groups its bytes fill", then "8 when the size is crossed, that piece unread and the
// state unchanged". A piece that fills no group is only kept.
fn feed_working(
    state: &mut [u8],
    stand: Stand,
    piece: &[u8],
    log: &mut [u8],
    times: &mut [u64],
) -> Answer
    requires { Fed state.old stand (table_at state.old) piece.now (length log.old) }
    ensures { Feeds state.old piece.now result state.new log.old log.new times.old times.new }
{
    let plan = stand.plan;
    let waiting = stand.waiting;
    let filled = groups_in(plan, waiting + piece.len());
    if times.len() < times_of(plan, filled) {
        return refusal(16, 0, 0);
    }
    let count = stand.groups * (3 * group_words(plan) as u64) + waiting as u64;
    if 0x10000000000 < count + piece.len() as u64 {
        return refusal(8, count, 0);
    }
    if filled == 0 {
        keep(state, waiting, piece);
        return refusal(0, 0, 0);
    }
    feed_groups(state, stand, filled, piece, log, times)
}

// "16 first in the others", then the fault that is repeated: all that is refused is refused before anything is written.
pub fn feed(state: &mut [u8], piece: &[u8], log: &mut [u8], times: &mut [u64]) -> Answer
    ensures { Feeds state.old piece.now result state.new log.old log.new times.old times.new }
{
    let found = load(state);
    if !within(found.stage, piece.len(), log.len()) {
        return refusal(16, 0, 0);
    }
    if found.stage == 2 {
        return refusal(found.number, found.place, found.second);
    }
    let stand = found.stand;
    feed_working(state, stand, piece, log, times)
}
