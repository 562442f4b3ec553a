// Pseudo-random numbers and plans.

ghost use Rattle.std.specs.Prelude.{◌<◌, ◌≤◌};

use crate::plans::{Label, Plan};

#[derive(Drop)]
pub(crate) struct Draws {
    seed: u64,
    // Whether faults are asked for.
    pub(crate) faults: bool,
}

impl Draws {
    pub(crate) fn new(seed: u64) -> Draws {
        Draws {
            seed,
            faults: false,
        }
    }

    // "minimal standard" generator: from 1 to 2147483646, and no product reaches 48 bits
    pub(crate) fn below(&mut self, limit: u32) -> u32
        requires { 0 < limit }
        ensures { result < limit }
    {
        self.seed = self.seed % 2147483647 * 48271 % 2147483647;
        (self.seed % u64::from(limit)) as u32
    }

    pub(crate) fn one_in(&mut self, n: u32) -> bool
        requires { 0 < n }
    {
        self.below(n) == 0
    }

    // One in so many, where faults are asked for.
    pub(crate) fn faulty(&mut self, n: u32) -> bool
        requires { 0 < n }
    {
        self.faults && self.one_in(n)
    }

    // A place in so many; 0 of none.
    pub(crate) fn place(&mut self, len: usize) -> usize {
        let len = u32::try_from(len).unwrap_or(u32::MAX);
        self.below(len.max(1)) as usize
    }

    fn words(&mut self) -> u32 {
        match self.below(4) {
            0 => 128,
            1 => 512,
            _ => 128 + self.below(385),
        }
    }

    // K5: a label and a fill bus code; of a third of the plans the usual ones, by the functions that take none.
    fn label(&mut self, buses: u32) -> Option<Label>
        requires { 0 < buses }
    {
        if self.one_in(3) {
            return None;
        }
        Some(Label {
            crc: self.below(8),
            fill_bus: self.below(buses),
        })
    }

    fn one_kind(&mut self, buses: u32) -> [u8; 16]
        requires positive { 0 < buses }
        requires legal { buses ≤ 16 }
    {
        let mut kinds = [0; 16];
        let bus = self.below(buses) as usize;
        kinds[bus] = 1 + self.below(2) as u8;
        kinds
    }

    fn kinds(&mut self, buses: u32) -> [u8; 16]
        requires { buses ≤ 16 }
    {
        let mut kinds = [0; 16];
        for kind in kinds[..buses as usize].iter_mut() {
            *kind = self.below(3) as u8;
        }
        kinds
    }

    // A legal plan.
    pub(crate) fn plan(&mut self) -> Plan {
        let words = self.words();
        let tracks = 1 + self.below(4);
        let frame_time = self.below(2);
        let crc = self.below(2);
        let parity = self.below(2);
        let buses = 16 - 8 * parity;
        let label = self.label(buses);
        let kinds = if 1 < tracks {
            self.one_kind(buses)
        } else {
            self.kinds(buses)
        };
        Plan {
            words,
            tracks,
            frame_time,
            crc,
            parity,
            label,
            kinds,
            kinds_len: 16,
        }
    }

    // Now and then a number that makes it illegal, or another legal plan.
    pub(crate) fn spoil_plan(&mut self, plan: &mut Plan) {
        let what = self.below(10);
        let bus = self.below(16) as usize;
        let label = plan.label_or_usual();
        match what {
            0 => plan.words = self.below(700),
            1 => plan.tracks = self.below(7),
            2 => plan.frame_time = self.below(4),
            3 => plan.crc = self.below(4),
            4 => plan.parity = self.below(4),
            5 => plan.kinds[bus] = self.below(5) as u8,
            6 => plan.kinds_len = self.below(17) as usize,
            7 => {
                let crc = self.below(12);
                plan.label = Some(Label { crc, ..label });
            }
            8 => {
                let fill_bus = self.below(20);
                plan.label = Some(Label { fill_bus, ..label });
            }
            _ => (),
        }
    }

    // The first used bus from a drawn one on, bus 0 behind bus 15.
    pub(crate) fn bus(&mut self, plan: &Plan) -> Option<u32> {
        let first = self.below(16);
        (0..16u32)
            .map(|n| (first + n) % 16)
            .find(|&bus| plan.kind_at(bus) != 0)
    }
}
