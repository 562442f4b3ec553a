// Which plans are legal (document 01, "The plan").
#![tactic(auto)]

ghost use Rattle.std.specs.Prelude.{◌≡◌, ◌<◌, ◌≤◌, ◌&&◌, ◌||◌, not, eqb, leb, drop};
ghost use Rattle.format.specs.Plan.{group_words, kind_on, legal, rows, slots, used_buses};
ghost use Rattle.format.specs.Compose.{groups_for};
ghost use Rattle.format.specs.Laws.Limits.{Shape, least_slots, most_dealt, most_group_words};

use format::{Kind, Plan, is_used};
use narrow;

fn kind_at(kinds: [Kind; 16], bus: u8) -> Kind
    requires { bus < 16 }
    ensures { result ≡ kind_on kinds bus }
{
    kinds[bus as usize]
}

// How many of the buses from `first` on are used.
fn used_buses(kinds: [Kind; 16], first: u8) -> u8
    requires { first ≤ 16 }
    ensures { result ≡ used_buses (drop first kinds) }
{
    let mut used: u8 = 0;
    let mut bus = first;
    while bus < 16 {
        if is_used(kind_at(kinds, bus)) {
            used += 1;
        }
        bus += 1;
    }
    used
}

// Not "T above 1 with other than exactly one used bus".
fn tracks_fit(tracks: usize, kinds: [Kind; 16]) -> bool
    ensures { result ≡ (eqb tracks 1 || eqb (used_buses kinds) 1) }
{
    if tracks == 1 {
        return true;
    }
    used_buses(kinds, 0) == 1
}

// Not "parity with a used bus above 7".
fn parity_fits(parity: bool, kinds: [Kind; 16]) -> bool
    ensures { result ≡ (not parity || eqb (used_buses (drop 8 kinds)) 0) }
{
    if parity {
        return used_buses(kinds, 8) == 0;
    }
    true
}

// Not "a label above 7, a code above 15, or above 7 with parity", whatever is chosen besides (document 02, K5).
fn label_and_code_fit(label: u32, code: u32, parity: bool) -> bool
    ensures { result ≡ (leb label 7 && leb code 15 && (not parity || leb code 7)) }
{
    if 7 < label {
        return false;
    }
    if 15 < code {
        return false;
    }
    if parity {
        return code <= 7;
    }
    true
}

// The limits of a frame's length in words.
const LEAST_WORDS: usize = 128;

const MOST_WORDS: usize = 512;

pub fn legal(plan: Plan, kinds: [Kind; 16]) -> bool
    ensures { result ≡ legal plan kinds }
{
    if plan.words < LEAST_WORDS {
        return false;
    }
    if MOST_WORDS < plan.words {
        return false;
    }
    if plan.tracks < 1 {
        return false;
    }
    if 4 < plan.tracks {
        return false;
    }
    if tracks_fit(plan.tracks, kinds) {
        if parity_fits(plan.parity, kinds) {
            return label_and_code_fit(plan.crc_label, plan.fill_bus, plan.parity);
        }
    }
    false
}

// The rows of a frame that are dealt.
fn rows(plan: Plan) -> usize
    requires { Shape plan }
    ensures { result ≡ rows plan }
{
    if plan.crc {
        return plan.words - 2;
    }
    plan.words - 1
}

// "Data slots in a group".
pub fn slots(plan: Plan) -> usize
    requires { Shape plan }
    ensures { (result ≡ slots plan) × (least_slots ≤ result) × (result ≤ most_dealt) }
{
    let dealt = plan.tracks * rows(plan);
    if plan.frame_time {
        return dealt - 3;
    }
    dealt
}

// A group's words as stored: "T frames of L words".
pub fn group_words(plan: Plan) -> usize
    requires { Shape plan }
    ensures { (result ≡ group_words plan) × (result ≤ most_group_words) }
{
    plan.tracks * plan.words
}

// "the fewest groups that hold the words"
pub fn groups_for(plan: Plan, words: usize) -> usize
    requires { Shape plan × (words ≤ 15420) }
    ensures { result ≡ groups_for plan words }
{
    let slots = slots(plan);
    narrow::quotient(words + slots - 1, slots)
}
