// The groups that a piece fills (document 02, K4): taken by way of the state's bytes, and the state stored behind the last one.
#![tactic(auto)]

ghost use Rattle.std.specs.Prelude.{◌≡◌, ◌+◌, ◌*◌, ◌-◌, ◌<◌, ◌≤◌, length, take};
ghost use Rattle.format.specs.Plan.{slots};
ghost use Rattle.stream_rules.specs.Stream.{feed_bytes, group_size, working};
ghost use Rattle.stream_state.specs.AtWork.{table_at, work_in};
ghost use Rattle.stream_state.specs.Parts.{kinds_at};
ghost use Rattle.stream_state.specs.Layout.{state_bytes};
ghost use Rattle.stream_piece.specs.Along.{Goes, Rooms, laid};
ghost use Rattle.stream_calls.specs.Calls.{Feeds};
ghost use Rattle.stream_groups.specs.Feeding.{Filled, Stores, answer_at, end_answer, end_state, stand_at, start_of};

use format::{Answer, Kind, Plan};
use log_close::copy;
use log_write::Pen;
use plan::{group_words, slots};
use stream_piece::{Along, on_group, on_piece};
use stream_state::{Stand, kinds_at, notices_at, store, store_failed};

// Before the first group.
fn start_along(stand: Stand) -> Along
    ensures { result ≡ start_of stand }
{
    let held = stand.held;
    Along {
        number: 0,
        place: 0,
        second: 0,
        pen: Pen {
            bits: stand.left as usize,
            last: stand.last as u64,
        },
        groups: stand.groups,
        since: stand.since,
        held: held,
        bytes: 0,
        times: 0,
    }
}

// Behind the last group, where so many bytes wait.
fn stand_at(plan: Plan, along: Along, waiting: usize) -> Stand
    requires { along.pen.bits < 8 }
    ensures { result ≡ stand_at plan along waiting }
{
    let held = along.held;
    let left = along.pen.bits as u32;
    Stand {
        plan: plan,
        left: left,
        last: (along.pen.last % (1 << left)) as u32,
        groups: along.groups,
        since: along.since,
        held: held,
        waiting: waiting,
    }
}

// The call that meets a fault tells the lengths written too.
fn answer_at(number: u32, place: u64, second: u64, along: Along) -> Answer
    ensures { result ≡ answer_at number place second along }
{
    Answer {
        number: number,
        place: place,
        second: second,
        bytes: along.bytes as u64,
        times: along.times as u64,
    }
}

// The front of the piece is put behind the bytes that wait.
fn complete(state: &mut [u8], piece: &[u8], waiting: usize, front: usize)
    requires { (length state.old ≡ 7168) × (waiting + front ≤ 6144) × (front ≤ length piece.now) }
    ensures { state.new ≡ laid (1024 + waiting) (take front piece.now) state.old }
{
    let begin = 1024 + waiting;
    let end = begin + front;
    copy(&mut state[begin..end], piece, front);
}

// The groups that the piece fills. The first is completed in the state, behind the bytes that wait; the others are read in the piece.
fn through(
    state: &mut [u8],
    kinds: [Kind; 16],
    stand: Stand,
    filled: usize,
    table: &mut [u64],
    piece: &[u8],
    row: &mut [u32],
    out: &mut [u8],
    log: &mut [u8],
    times: &mut [u64],
) -> Along
    requires { Filled state.old stand table.old piece.now (length log.old) (length times.old) filled × (kinds ≡ kinds_at state.old) × Rooms stand.plan (slots stand.plan) row.old out.old }
    ensures { Goes stand.plan kinds (feed_bytes (working (work_in state.old stand)) (take (filled * group_size stand.plan - stand.waiting) piece.now)) (start_of stand) result table.new log.old log.new times.old times.new }
{
    let plan = stand.plan;
    let size = 3 * group_words(plan);
    let front = size - stand.waiting;
    complete(state, piece, stand.waiting, front);
    let count = slots(plan);
    let start = start_along(stand);
    let end = 1024 + size;
    let first = on_group(
        kinds,
        plan,
        count,
        &state[1024..end],
        start,
        table,
        row,
        out,
        log,
        times,
    );
    on_piece(
        kinds,
        plan,
        count,
        piece,
        front,
        filled - 1,
        first,
        table,
        row,
        out,
        log,
        times,
    )
}

// The state is stored: with the fault, if one was met; else with the bytes behind the last group.
fn end_feed(
    state: &mut [u8],
    plan: Plan,
    kinds: [Kind; 16],
    along: Along,
    table: &[u64],
    rest: &[u8],
) -> Answer
    requires { (length state.old ≡ 7168) × (along.pen.bits < 8) × Stores plan kinds along table.now rest.now }
    ensures { (result ≡ end_answer along) × (state.new ≡ state_bytes (end_state plan kinds along table.now rest.now)) }
{
    if along.number != 0 {
        store_failed(state, along.number, along.place, along.second);
        return answer_at(along.number, along.place, along.second, along);
    }
    let stand = stand_at(plan, along, rest.len());
    store(state, stand, kinds, table, rest);
    answer_at(0, 0, 0, along)
}

fn feed_in(
    state: &mut [u8],
    stand: Stand,
    filled: usize,
    table: &mut [u64],
    piece: &[u8],
    row: &mut [u32],
    out: &mut [u8],
    log: &mut [u8],
    times: &mut [u64],
) -> Answer
    requires { Filled state.old stand table.old piece.now (length log.old) (length times.old) filled × Rooms stand.plan (slots stand.plan) row.old out.old }
    ensures { Feeds state.old piece.now result state.new log.old log.new times.old times.new }
{
    let plan = stand.plan;
    let begin = filled * (3 * group_words(plan)) - stand.waiting;
    let kinds = kinds_at(state);
    let along = through(
        state, kinds, stand, filled, table, piece, row, out, log, times,
    );
    end_feed(state, plan, kinds, along, table, &piece[begin..])
}

// No large arrays are cleared for small groups.
pub fn feed_groups(
    state: &mut [u8],
    stand: Stand,
    filled: usize,
    piece: &[u8],
    log: &mut [u8],
    times: &mut [u64],
) -> Answer
    requires { Filled state.old stand (table_at state.old) piece.now (length log.old) (length times.old) filled }
    ensures { Feeds state.old piece.now result state.new log.old log.new times.old times.new }
{
    let mut table = [0u64; 64];
    notices_at(state, &mut table);
    if group_words(stand.plan) <= 628 {
        let mut row = [0u32; 628];
        let mut out = [0u8; 2064];
        return feed_in(
            state, stand, filled, &mut table, piece, &mut row, &mut out, log, times,
        );
    }
    let mut row = [0u32; 2048];
    let mut out = [0u8; 6680];
    feed_in(
        state, stand, filled, &mut table, piece, &mut row, &mut out, log, times,
    )
}
