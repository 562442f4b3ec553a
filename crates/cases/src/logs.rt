// Pseudo-random logs and frame times; with faults, now and then wrong ones.

ghost use Rattle.std.specs.Prelude.{◌<◌, ◌≤◌};

use crate::bits::Bits;
use crate::draws::Draws;
use crate::plans::Plan;
use std::alloc::{AllocError, Global};

// The kinds of items on a 1553 bus, and on an ARINC bus, each as often as it is to be drawn.
const MIL_KINDS: [u32; 8] = [1, 1, 2, 2, 3, 4, 7, 8];

const ARINC_KINDS: [u32; 8] = [5, 5, 5, 5, 6, 6, 7, 8];

// The bits of an item's fields behind its bus, up to its word, its diagnostics or its information.
fn fields_width(kind: u32) -> u32
    ensures { result ≤ 64 }
{
    match kind {
        1 | 2 => 18,
        3 | 4 | 7 => 17,
        5 => 35,
        6 => 10,
        8 => 16,
        _ => 0,
    }
}

// The bits of a tag or a response.
fn tail_width(kind: u32, flag: u32) -> u32
    ensures { result ≤ 64 }
{
    match (kind, flag) {
        (1 | 5, 1) => 46,
        (2, 1) => 14,
        _ => 0,
    }
}

impl Draws {
    // A kind that the bus can have; with faults, now and then any of the sixteen numbers.
    fn item_kind(&mut self, bus_kind: u8) -> u32 {
        if self.faulty(100) {
            return self.below(16);
        }
        let place = self.below(8) as usize;
        match bus_kind / 2 {
            0 => MIL_KINDS[place],
            1 => ARINC_KINDS[place],
            _ => 8,
        }
    }

    fn other_bus(&mut self, bus: u32) -> u32 {
        if self.faulty(100) {
            return self.below(16);
        }
        bus
    }

    // "tagged" or "timed" by the flag: it stands before a word of 16 bits, and before one of 32.
    fn item_fields(&mut self, flag: u32) -> u64
        requires { flag < 2 }
    {
        let top = self.below(4);
        let middle = self.below(32768);
        let low = self.below(65536);
        u64::from(2 * top + flag) << 32 | u64::from(2 * middle + flag) << 16 | u64::from(low)
    }

    // A tag; its last 14 bits are a response.
    fn tail(&mut self) -> u64 {
        let high = self.below(65536);
        let low = self.below(65536);
        let limit = if self.faulty(100) { 16384 } else { 10000 };
        u64::from(high) << 30 | u64::from(low) << 14 | u64::from(self.below(limit))
    }

    // An error notice wants its word (K2): mostly one stands right behind it.
    fn answer(&mut self, log: &mut Bits, bus: u32, channel: u64) -> Result<(), AllocError> {
        if self.one_in(16) {
            return Ok(());
        }
        let high = self.below(65536);
        let low = self.below(65536);
        log.put(4, 5)?;
        log.put(4, u64::from(bus))?;
        // its channel's low bits, and no tag
        log.put(2, channel)?;
        log.put(1, 0)?;
        log.put(16, u64::from(high))?;
        log.put(16, u64::from(low))
    }

    fn item(&mut self, log: &mut Bits, bus: u32, bus_kind: u8) -> Result<(), AllocError> {
        let kind = self.item_kind(bus_kind);
        let named = self.other_bus(bus);
        let flag = self.below(2);
        let fields = self.item_fields(flag);
        let tail = self.tail();
        log.put(4, u64::from(kind))?;
        log.put(4, u64::from(named))?;
        log.put(fields_width(kind), fields)?;
        log.put(tail_width(kind, flag), tail)?;
        if kind == 6 {
            self.answer(log, named, fields / 256)?;
        }
        Ok(())
    }

    // Up to 60 items, or up to 600, or none.
    fn item_count(&mut self) -> u32 {
        match self.below(16) {
            0 => self.below(600),
            1 => 0,
            _ => self.below(60),
        }
    }

    // On used buses; none if there is none.
    fn items(&mut self, plan: &Plan, log: &mut Bits) -> Result<(), AllocError> {
        for _ in 0..self.item_count() {
            if let Some(bus) = self.bus(plan) {
                self.item(log, bus, plan.kind_at(bus))?;
            }
        }
        Ok(())
    }

    // A byte less, a byte more, or a byte changed.
    fn spoil_log(&mut self, log: &mut Vec<u8>) -> Result<(), AllocError> {
        match self.below(3) {
            0 => {
                log.pop();
            }
            1 => log.push(0)?,
            _ => {
                let place = self.place(log.len());
                let byte = self.below(256) as u8;
                if let Some(old) = log.get_mut(place) {
                    *old = byte;
                }
            }
        }
        Ok(())
    }

    pub(crate) fn log(&mut self, alloc: Global, plan: &Plan) -> Result<Vec<u8>, AllocError> {
        let mut log = Bits::new(alloc);
        self.items(plan, &mut log)?;
        let mut log = log.ended()?;
        if self.faulty(4) {
            self.spoil_log(&mut log)?;
        }
        Ok(log)
    }

    fn time(&mut self) -> u64 {
        let high = self.below(65536);
        let low = self.below(65536);
        let micro = u64::from(self.below(10000));
        if self.faulty(20) {
            return 42949672950000 + 2 * micro;
        }
        10000 * (65536 * u64::from(high) + u64::from(low)) + micro
    }

    // So many frame times, eight bytes each.
    pub(crate) fn times(&mut self, alloc: Global, count: u64) -> Result<Vec<u8>, AllocError> {
        let mut times = Vec::new(alloc);
        for _ in 0..count {
            times.extend_from_slice(&self.time().to_be_bytes())?;
        }
        Ok(times)
    }
}
