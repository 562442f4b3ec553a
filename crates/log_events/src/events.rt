// The row of events, and the limits.
ghost use Rattle.std.specs.Prelude.{◌≡◌, ◌&&◌, cond, ◌≤◌, eqb, leb, length};
ghost use Rattle.log_rules.specs.Replay.{arrivals, events_known};
ghost use Rattle.log_events.specs.Refused.{bounded_by, limits_by};

// Is each of them of one of the two kinds.
fn known(events: &[u8]) -> bool
    ensures { result ≡ events_known events.now }
{
    let mut i: usize = 0;
    while i < events.len() {
        if 1 < events[i] {
            return false;
        }
        i += 1;
    }
    true
}

fn arrives(event: u8) -> usize
    ensures { (result ≡ cond (eqb event 0) 1 0) × (result ≤ 1) }
{
    if event == 0 {
        return 1;
    }
    0
}

// How many items arrive.
fn arriving(events: &[u8]) -> usize
    ensures { result ≡ arrivals events.now }
{
    let mut number: usize = 0;
    let mut i: usize = 0;
    while i < events.len() {
        number += arrives(events[i]);
        i += 1;
    }
    number
}

fn within(low: u32, value: u32, high: u32) -> bool
    ensures { result ≡ (leb low value && leb value high) }
{
    if value < low {
        return false;
    }
    value <= high
}

// "at most 65,535 events", "a capacity of 8 to 4,096 words, and the slots of a group, 1 to 2,048"
fn limits(events: usize, capacity: u32, slots: u32) -> bool
    ensures { result ≡ limits_by events capacity slots }
{
    if 65535 < events {
        return false;
    }
    if !within(8, capacity, 4096) {
        return false;
    }
    within(1, slots, 2048)
}

// Nothing of "a limit broken, an event of neither kind or more arrivals than items".
pub fn in_bounds(events: &[u8], capacity: u32, slots: u32, count: usize) -> bool
    ensures { result ≡ bounded_by events.now capacity slots count }
{
    if !limits(events.len(), capacity, slots) {
        return false;
    }
    if !known(events) {
        return false;
    }
    arriving(events) <= count
}
