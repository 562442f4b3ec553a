// Document 01's second program. Standard input has the named cases: every bench case that is not marked P, the list "Tempting and
// wrong" and each refusal of each entry point, each call with the answer that document 01 asks for. Each is run, its answers are
// written, and `differs` behind an answer that is another. Then come ten blocks of 200 pseudo-random cases. `independent/cases.c`,
// the same over the independent implementation, must write the same; what the lines mean is said there.
#![tactic(auto)]

mod bits;
mod captures;
mod draws;
mod lines;
mod logs;
mod named;
mod plans;
mod random;

use crate::named::named_cases;
use crate::random::random_cases;
use std::io;
use whole_input::read_full;

fn main(rt: HostRuntime) -> io::Result<()> {
    let alloc = rt.alloc();
    let mut text = [0; 65536];
    let size = read_full(&mut rt.stdin(), &mut text)?;
    named_cases(&rt, alloc, &text[..size])?;
    random_cases(&rt, alloc)
}
