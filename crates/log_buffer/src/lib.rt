// The front-end buffer (document 02, K13) as numbers: what it sees of an item, an item that arrives, a group that leaves.
#![tactic(auto)]

mod item;
mod room;

pub use item::load_of;
pub use room::{arrived, fits, left};

// What the buffer sees of an item: its bus, how many words it has, and whether it is a mark.
#[derive(Clone, Copy)]
pub struct Load {
    pub bus: u8,
    pub words: u32,
    pub mark: bool,
}

// How full the buffer is: words sent, items lost, words held; and of the items lost since the last mark, how many there are and the
// bus of the first.
#[derive(Clone, Copy)]
pub struct Level {
    pub sent: u32,
    pub lost: u32,
    pub held: u32,
    pub unmarked: u32,
    pub bus: u8,
}
