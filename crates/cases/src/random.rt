// Ten blocks of 200 pseudo-random cases: composed and read back, composed and damaged, and noise. Every answer and every lent byte
// goes into the block's digest.

ghost use Rattle.std.specs.Prelude.{◌<◌, IfSome};

use crate::bits::front;
use crate::draws::Draws;
use crate::plans::{Outcome, Plan, Reading};
use std::alloc::{AllocError, Global};
use std::io;

#[derive(Drop)]
struct Block<'a> {
    alloc: Global,
    draws: &'a mut Draws,
    digest: u64,
}

// What an answer says is needed, where that is room.
fn room_asked(asked: &Outcome) -> Option<usize>
    ensures { IfSome result (λ room. room < 32767) }
{
    let answer = asked.answer;
    if answer.number == 6 && answer.place < 32767 {
        Some(answer.place as usize)
    } else {
        None
    }
}

impl Block<'_> {
    fn fold(&mut self, outcome: &Outcome) {
        self.digest = outcome.fold_into(self.digest);
    }

    // A byte less now and then, where faults are asked for.
    fn less(&mut self, size: usize) -> usize {
        if 0 < size && self.draws.faulty(8) {
            size - 1
        } else {
            size
        }
    }

    // What an answer says is needed, and up to two bytes more.
    fn room(&mut self, asked: &Outcome, otherwise: usize) -> usize {
        let more = self.draws.below(3) as usize;
        match room_asked(asked) {
            Some(needed) => needed + more,
            None => otherwise,
        }
    }

    // Room for enough times; with faults, now and then for up to two.
    fn times_room(&mut self) -> usize {
        if self.draws.faulty(2) {
            return 8 * self.draws.below(3) as usize;
        }
        1000 + self.draws.below(8) as usize
    }

    // Both readings: first with no room, to learn the log's length, then with room a little off now and then.
    fn read_case(&mut self, plan: &Plan, capture: &[u8]) -> Result<(), AllocError> {
        let capture = front(capture, self.less(capture.len()));
        let asked = plan.read(self.alloc, Reading::Plain, capture, 0, 0)?;
        let enough = self.room(&asked, 40);
        let log_len = self.less(enough);
        let times_len = self.times_room();
        self.fold(&asked);
        for reading in [Reading::Plain, Reading::Closed] {
            let read = plan.read(self.alloc, reading, capture, log_len, times_len)?;
            self.fold(&read);
        }
        Ok(())
    }

    // The number of times that an answer says is needed; with faults, now and then one more.
    fn times_needed(&mut self, asked: &Outcome) -> u64 {
        let answer = asked.answer;
        if answer.number != 5 || 120 <= answer.place {
            return 0;
        }
        answer.place + u64::from(self.draws.faulty(8))
    }

    // Composes with no times, to learn how many, and draws them.
    fn times_case(&mut self, plan: &Plan, log: &[u8]) -> Result<Vec<u8>, AllocError> {
        let asked = plan.compose(log, &[], &mut []);
        self.fold(&asked);
        let count = self.times_needed(&asked);
        self.draws.times(self.alloc, count)
    }

    // Composes with no room, to learn how much; returns that or a little more, and with faults now and then less.
    fn room_case(&mut self, plan: &Plan, log: &[u8], times: &[u8]) -> usize {
        let asked = plan.compose(log, times, &mut []);
        self.fold(&asked);
        let enough = self.room(&asked, 0);
        self.less(enough)
    }

    // A log composed, and read back; with faults, the log, its times, the rooms or the capture spoilt.
    fn compose_case(&mut self, plan: &Plan) -> Result<(), AllocError> {
        let log = self.draws.log(self.alloc, plan)?;
        let times = self.times_case(plan, &log)?;
        let room = self.room_case(plan, &log, &times);
        let mut capture = vec![in self.alloc; 0; room]?;
        let composed = plan.compose(&log, &times, &mut capture);
        self.fold(&composed);
        capture.truncate(composed.answer.bytes as usize);
        self.draws.damage(plan, &mut capture);
        self.read_case(plan, &capture)
    }

    fn noise_case(&mut self, plan: &Plan) -> Result<(), AllocError> {
        let mut plan = *plan;
        plan.frame_time = 0;
        plan.crc = 0;
        let capture = self.draws.noise(self.alloc, &plan)?;
        self.read_case(&plan, &capture)
    }

    fn case(&mut self) -> Result<(), AllocError> {
        let mut plan = self.draws.plan();
        let what = self.draws.below(8);
        self.draws.faults = !matches!(what, 1..=3);
        match what {
            0 => return self.noise_case(&plan),
            4 => self.draws.spoil_plan(&mut plan),
            _ => (),
        }
        self.compose_case(&plan)
    }
}

fn digest_of_block(alloc: Global, draws: &mut Draws) -> Result<u64, AllocError> {
    let mut block = Block {
        alloc,
        draws,
        digest: 0,
    };
    for _ in 0..200 {
        block.case()?;
    }
    Ok(block.digest)
}

pub(crate) fn random_cases(rt: &impl Print, alloc: Global) -> io::Result<()> {
    let mut draws = Draws::new(20241001);
    for block in 0..10 {
        let digest = digest_of_block(alloc, &mut draws)?;
        println!(rt; "block {block}: {digest}")?;
    }
    Ok(())
}
