// The named cases of the functions on logs, and of those on captures beside composing and reading, from standard input: a call a line,
// with the answer that document 02 asks for behind `->`. Each is made, its answer is written with a digest of what was lent for it, and
// `differs` behind an answer that is another. `independent/log_cases.c`, the same over the independent implementation, must write the
// same; what the lines mean is said at the top of that text.
#![tactic(auto)]

mod answers;
mod arriving;
mod case;
mod items;
mod join;
mod pick;
mod profile;
mod replay;
mod salvaging;
mod shift;
mod slots;

use crate::arriving::{added, cut, ended};
use crate::case::Fields;
use crate::items::items;
use crate::join::join;
use crate::pick::pick;
use crate::profile::profile;
use crate::replay::replay;
use crate::salvaging::salvage;
use crate::shift::shift;
use crate::slots::slots;
use std::alloc::{AllocError, Global};
use std::io;
use whole_input::read_full;

#[derive(Clone, Copy)]
enum Call {
    Pick,
    Join,
    Shift,
    Profile,
    Replay,
    Slots,
    Items,
    Salvage,
    Cut,
    Add,
    End,
}

impl Call {
    // A call is told by its second letter.
    fn of(letter: u8) -> Option<Call> {
        match letter {
            b'i' => Some(Call::Pick),
            b'o' => Some(Call::Join),
            b'h' => Some(Call::Shift),
            b'r' => Some(Call::Profile),
            b'e' => Some(Call::Replay),
            b'l' => Some(Call::Slots),
            b't' => Some(Call::Items),
            b'a' => Some(Call::Salvage),
            b'u' => Some(Call::Cut),
            b'd' => Some(Call::Add),
            b'n' => Some(Call::End),
            _ => None,
        }
    }
}

// What is said of a case. What is asked for stands behind the line's first arrow; what is not asked for is 0, and no bytes.
fn reply(alloc: Global, call: Call, line: &[u8]) -> Result<String, AllocError> {
    let arrow = line.iter().take_while(|byte| **byte != b'>').count();
    let mut fields = Fields::new(alloc, line);
    let mut asked = Fields::new(alloc, &line[arrow..]);
    match call {
        Call::Pick => pick(&mut fields, &mut asked),
        Call::Join => join(&mut fields, &mut asked),
        Call::Shift => shift(&mut fields, &mut asked),
        Call::Profile => profile(&mut fields, &mut asked),
        Call::Replay => replay(&mut fields, &mut asked),
        Call::Slots => slots(&mut fields, &mut asked),
        Call::Items => items(&mut fields, &mut asked),
        Call::Salvage => salvage(&mut fields, &mut asked),
        Call::Cut => cut(&mut fields, &mut asked),
        Call::Add => added(&mut fields, &mut asked),
        Call::End => ended(&mut fields, &mut asked),
    }
}

// Empty lines and comments are passed over. A line that says nothing is no case: it is told.
fn say_line(rt: &impl Print, alloc: Global, line: &[u8]) -> io::Result<()> {
    let &[first, letter, ..] = line else {
        return Ok(());
    };
    if first == b'#' {
        return Ok(());
    }
    match Call::of(letter) {
        Some(call) => println!(rt; "{}", reply(alloc, call, line)?),
        None => println!(rt; "unknown"),
    }
}

fn main(rt: HostRuntime) -> io::Result<()> {
    let alloc = rt.alloc();
    let mut text = [0; 65536];
    let size = read_full(&mut rt.stdin(), &mut text)?;
    for line in text[..size].split_inclusive(|&byte| byte == b'\n') {
        say_line(&rt, alloc, line.strip_suffix(b"\n").unwrap_or(line))?;
    }
    Ok(())
}
