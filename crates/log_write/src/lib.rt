// A log written from its front, eight bytes at a time, into an array that may be too short for it.
#![tactic(auto)]

ghost use Rattle.std.specs.Prelude.{◌≡◌, ◌+◌, ◌*◌, ◌/◌, ◌≤◌, ◌<◌, ◌^◌, length};
ghost use Rattle.log_write.specs.Pen.{closed_in, closed_size, eight_in, item_in, item_put, pen_in, pen_put, start, words_in};

mod numbers;

use format::Item;
use numbers::item_bits;

// An item's bits in the log as numbers: its first five fields, and those behind them (its tag or its response time).
#[derive(Clone, Copy)]
pub struct Packed {
    pub first: u64,
    pub first_bits: u32,
    pub behind: u64,
    pub behind_bits: u32,
}

// Where writing a log stands: so many bits are put, and those of them that do not fill a byte are the lowest of `last`.
#[derive(Clone, Copy)]
pub struct Pen {
    pub bits: usize,
    pub last: u64,
}

// The eight bytes of w from `at` on.
fn set_eight(out: &mut [u8], at: usize, w: u64)
    requires { at + 8 ≤ length out.old }
    ensures { out.new ≡ eight_in out.old at w }
{
    out[at] = (w / 0x100000000000000) as u8;
    out[at + 1] = (w / 0x1000000000000 % 0x100) as u8;
    out[at + 2] = (w / 0x10000000000 % 0x100) as u8;
    out[at + 3] = (w / 0x100000000 % 0x100) as u8;
    out[at + 4] = (w / 0x1000000 % 0x100) as u8;
    out[at + 5] = (w / 0x10000 % 0x100) as u8;
    out[at + 6] = (w / 0x100 % 0x100) as u8;
    out[at + 7] = (w % 0x100) as u8;
}

// They are set where there is room for all of them.
fn put_eight(out: &mut [u8], at: usize, w: u64)
    requires { at < 2 ^ 61 }
    ensures { out.new ≡ eight_in out.old at w }
{
    if at + 8 <= out.len() {
        set_eight(out, at, w);
    }
}

impl Pen {
    // Nothing is written.
    pub fn start() -> Pen
        ensures { result ≡ start }
    {
        Pen { bits: 0, last: 0 }
    }

    // The `width` low bits of `value` more, up to 56, behind those so far. A byte that they fill is in the array if the seven
    // behind it have room there too.
    pub fn put(self, out: &mut [u8], value: u64, width: u32) -> Pen
        requires { (self.bits < 2 ^ 62) × (width ≤ 56) × (value < 2 ^ width) }
        ensures { (result ≡ pen_put self value width) × (out.new ≡ pen_in out.old self value width) }
    {
        let bits = self.bits;
        let last = (self.last << width) + value;
        let part = (bits % 8) as u32 + width;
        put_eight(out, bits / 8, (last << (63 - part)) << 1);
        Pen {
            bits: bits + width as usize,
            last: last,
        }
    }

    // As `put`, where the byte that is not full and the seven behind it have room in the array.
    pub fn put_in(self, out: &mut [u8], value: u64, width: u32) -> Pen
        requires { (self.bits < 2 ^ 62) × (width ≤ 56) × (value < 2 ^ width) × (self.bits / 8 + 8 ≤ length out.old) }
        ensures { (result ≡ pen_put self value width) × (out.new ≡ pen_in out.old self value width) }
    {
        let bits = self.bits;
        let last = (self.last << width) + value;
        let part = (bits % 8) as u32 + width;
        set_eight(out, bits / 8, (last << (63 - part)) << 1);
        Pen {
            bits: bits + width as usize,
            last: last,
        }
    }

    // How many words' items surely have room behind these bits in so many bytes, 32 bits a word.
    pub fn words_in(self, room: usize) -> usize
        ensures { result ≡ words_in self room }
    {
        let used = self.bits / 8 + 9;
        if room < used {
            return 0;
        }
        (room - used) / 4
    }

    // An item's bits more. Nothing calls it yet: it is for the requests that write logs from items, pick and join (K7), shift (K9).
    pub fn put_item(self, out: &mut [u8], item: Item) -> Pen
        requires { self.bits < 2 ^ 61 }
        ensures { (result ≡ item_put self item) × (out.new ≡ item_in out.old self item) }
    {
        let p = item_bits(item);
        let pen = self.put(out, p.first, p.first_bits);
        pen.put(out, p.behind, p.behind_bits)
    }

    // The end mark, "zero bits fill its last byte"; how many bytes the log has.
    pub fn close(self, out: &mut [u8]) -> usize
        requires { self.bits < 2 ^ 62 }
        ensures { (result ≡ closed_size self) × (out.new ≡ closed_in out.old self) }
    {
        let _ = self.put(out, 0, 11);
        (self.bits + 11) / 8
    }
}
