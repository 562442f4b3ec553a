// The fields of an item, one behind the other with the widths of the table: for whoever reads a log.
ghost use Rattle.std.specs.Prelude.{◌≡◌, ◌+◌, ◌^◌, ◌≤◌, ◌<◌};
ghost use Rattle.log_read.specs.Fields.{head_of, sided_of, marked_of, channelled_of, noticed_of, tagged_of, ends_of};

use crate::{Channelled, Cursor, Head, Marked, Noticed, Sided, Tagged};

impl Cursor {
    pub fn head(self) -> Head
        requires { self.at ≤ 2 ^ 40 }
        ensures { (result ≡ head_of self) × (result.kind < 16) × (result.bus < 16) × (result.next.at ≡ self.at + 8) }
    {
        let kind = self.take(4);
        let bus = kind.next.take(4);
        let next = bus.next;
        Head {
            kind: kind.field,
            bus: bus.field,
            next,
        }
    }

    pub fn sided(self) -> Sided
        requires { self.at ≤ 2 ^ 40 }
        ensures { (result ≡ sided_of self) × (result.side < 2) × (result.word < 65536) × (result.next.at ≡ self.at + 17) }
    {
        let side = self.take(1);
        let word = side.next.take(16);
        let next = word.next;
        Sided {
            side: side.field,
            word: word.field,
            next,
        }
    }

    pub fn marked(self) -> Marked
        requires { self.at ≤ 2 ^ 40 }
        ensures { (result ≡ marked_of self) × (result.side < 2) × (result.mark < 2) × (result.word < 65536) × (result.next.at ≡ self.at + 18) }
    {
        let side = self.take(1);
        let mark = side.next.take(1);
        let word = mark.next.take(16);
        let next = word.next;
        Marked {
            side: side.field,
            mark: mark.field,
            word: word.field,
            next,
        }
    }

    pub fn channelled(self) -> Channelled
        requires { self.at ≤ 2 ^ 40 }
        ensures { (result ≡ channelled_of self) × (result.channel < 4) × (result.mark < 2) × (result.next.at ≡ self.at + 35) }
    {
        let channel = self.take(2);
        let mark = channel.next.take(1);
        let word = mark.next.take(32);
        let next = word.next;
        Channelled {
            channel: channel.field,
            mark: mark.field,
            word: word.field,
            next,
        }
    }

    pub fn noticed(self) -> Noticed
        requires { self.at ≤ 2 ^ 40 }
        ensures { (result ≡ noticed_of self) × (result.channel < 4) × (result.diagnostics < 256) × (result.next.at ≡ self.at + 10) }
    {
        let channel = self.take(2);
        let diagnostics = channel.next.take(8);
        let next = diagnostics.next;
        Noticed {
            channel: channel.field,
            diagnostics: diagnostics.field,
            next,
        }
    }

    pub fn tagged(self) -> Tagged
        requires { self.at ≤ 2 ^ 40 }
        ensures { (result ≡ tagged_of self) × (result.high < 65536) × (result.low < 65536) × (result.micro < 16384) × (result.next.at ≡ self.at + 46) }
    {
        let high = self.take(16);
        let low = high.next.take(16);
        let micro = low.next.take(14);
        let next = micro.next;
        Tagged {
            high: high.field,
            low: low.field,
            micro: micro.field,
            next,
        }
    }

    // Whether the log, of so many bits, ends here: kind 0, "zero bits fill its last byte and nothing follows".
    pub fn ends(self, total: usize) -> bool
        requires { (self.at ≤ total) × (total ≤ 2 ^ 40) }
        ensures { result ≡ ends_of self total }
    {
        let left = total - self.at;
        if left < 4 {
            return false;
        }
        if 12 <= left {
            return false;
        }
        let rest = self.take(left as u32);
        rest.field == 0
    }
}
