// One data word fed to what is held (document 01, "Items and their words").
// It knows nothing of frames, places or buffers: a caller drives it word by word, and writes the bits that it hands out.
#![tactic(auto)]

ghost use Rattle.std.specs.Prelude.{◌≡◌, ◌+◌, ◌*◌, ◌%◌, ◌<◌, ◌≤◌};
ghost use Rattle.format.specs.Reader as reader;
ghost use Rattle.data_word.specs.Feeds.{Feeds, Finishes};
ghost use Rattle.data_word.specs.Holding.{held_of, Sane};
ghost use Rattle.data_word.specs.Step.{base_width, step_of};

pub use data_start::{Holding, Step, nothing};
use data_start::{ends, holds, refused, starts};
use format::Kind;

// The bits of an untagged command, or of an untagged ARINC word.
fn base_width(base: u64) -> u32
    ensures { result ≡ base_width base }
{
    if base < 4294967296 { 26 } else { 43 }
}

// The low syllable that is awaited.
pub fn low(held: Holding, bus: u32, label: u32, information: u32) -> Step
    requires bus_bound { (bus < 16) × (8 ≤ label) × (label < 16) × (information < 65536) }
    requires sane { Sane held × (held.awaits ≡ bus * 16 + label) }
    ensures { Feeds held bus label information result }
{
    let bits = held.base * 65536 + information as u64;
    holds(0, 0, bits, 0, bus * 16 + 7)
}

// The word that is awaited, but for a status after its response: a time word, or the low syllable.
pub fn goes_on(held: Holding, bus: u32, label: u32, information: u32) -> Step
    requires bus_bound { (bus < 16) × (label < 16) × (information < 65536) }
    requires sane { Sane held × (held.awaits ≡ bus * 16 + label) × (held.awaits ≡ 0 → ⊥) }
    ensures { Feeds held bus label information result }
{
    let base = held.base;
    let time = held.time;
    if 8 <= label {
        return low(held, bus, label, information);
    }
    if label == 7 {
        return holds(0, 0, base, information, bus * 16 + 6);
    }
    if label == 6 {
        return holds(0, 0, base, time * 65536 + information, bus * 16 + 5);
    }
    if information < 10000 {
        let tag = time as u64 * 16384 + information as u64;
        if base < 4294967296 {
            return ends(base + 65536, 26, tag, 46);
        }
        return ends(base + 4294967296, 43, tag, 46);
    }
    refused(held)
}

// A word that is not awaited, while an item is unfinished: only a response, which a status of either side follows, takes it.
pub fn answers(held: Holding, bus: u32, label: u32, information: u32) -> Step
    requires bus_bound { (bus < 16) × (label < 16) × (information < 65536) }
    requires sane { Sane held × (held.awaits ≡ bus * 16 + label → ⊥) × (held.awaits ≡ 0 → ⊥) × (held.awaits % 16 ≡ 7 → ⊥) }
    ensures { Feeds held bus label information result }
{
    let awaits = held.awaits;
    let time = held.time;
    if awaits != 270 + bus * 16 {
        return refused(held);
    }
    if label < 8 {
        return refused(held);
    }
    if label % 4 != 2 {
        return refused(held);
    }
    let bits = (((32 + bus) * 2 + (3 - label / 4)) * 131072 + 65536 + information) as u64;
    ends(bits, 26, time as u64, 14)
}

// One data word, other than fill, fed to what is held.
pub fn feed(held: Holding, kinds: [Kind; 16], bus: u32, label: u32, information: u32) -> Step
    requires bus_bound { (bus < 16) × (label < 16) × (information < 65536) }
    requires sane { Sane held }
    ensures { result ≡ step_of (held_of held) (reader.feed kinds (held_of held) bus label information) }
{
    let base = held.base;
    let awaits = held.awaits;
    let mut width: u32 = 0;
    if awaits != 0 {
        if awaits == bus * 16 + label {
            return goes_on(held, bus, label, information);
        }
        if awaits % 16 != 7 {
            return answers(held, bus, label, information);
        }
        width = base_width(base);
    }
    starts(
        held,
        base,
        width,
        kinds[bus as usize],
        bus,
        label,
        information,
    )
}

// The place of the first word of what is held, after a word that stood at `here`; `old` is that place before the word.
pub fn since(held: Holding, old: u64, here: u64) -> u64
    requires { Sane held }
    ensures { result ≡ reader.since (held_of held) old here }
{
    let base = held.base;
    let awaits = held.awaits;
    let stage = awaits % 16;
    if stage == 5 {
        return old;
    }
    if stage == 6 {
        return old;
    }
    if stage == 7 {
        if 4294967296 <= base {
            return old;
        }
    }
    here
}

// The first word of the item that is unfinished when a bad word comes, which stands at `here`, or that word itself if none is; `first`
// is where what is held begins.
pub fn begun(held: Holding, first: u64, here: u64) -> u64
    requires { Sane held }
    ensures { result ≡ reader.begun (held_of held) first here }
{
    let awaited = held.awaits;
    if awaited == 0 {
        return here;
    }
    if awaited % 16 == 7 {
        return here;
    }
    first
}

// The end of the capture: a command or an ARINC word without a tag is finished, anything else held is cut.
pub fn finish(held: Holding) -> Step
    requires { Sane held }
    ensures { Finishes held result }
{
    let base = held.base;
    let awaits = held.awaits;
    if awaits == 0 {
        return ends(0, 0, 0, 0);
    }
    if awaits % 16 == 7 {
        return ends(base, base_width(base), 0, 0);
    }
    refused(held)
}
