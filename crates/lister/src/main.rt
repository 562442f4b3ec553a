// The lister (document 01, "Programs"): a log from standard input, its text to standard output.
#![tactic(auto)]

use std::io::{self, Write};
use whole_input::read_full;

fn main(rt: HostRuntime) -> io::Result<()> {
    // One byte above the limit, so that a long log is seen.
    let mut buffer = [0; 32769];
    let size = read_full(&mut rt.stdin(), &mut buffer)?;
    let mut text = [0; 262400];
    let end = log_text::list(&mut text, &buffer[..size]);
    rt.stdout().write_all(&text[..end])
}
