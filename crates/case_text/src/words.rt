// The words of a line: one behind each space.

ghost use Rattle.std.specs.Prelude.{◌≡◌, ◌%◌, ◌≤◌, length};
ghost use Rattle.std.specs.List.{prefix_len};
ghost use Rattle.case_text.specs.Number.{number_of};
ghost use Rattle.case_text.specs.Words.{is_in_word, first_word, behind_word};

use crate::numbers::number;

fn word_len(line: &[u8]) -> usize
    ensures value { result ≡ prefix_len is_in_word line.now }
    ensures within { result ≤ length line.now }
{
    line.iter().take_while(|byte| **byte != b' ').count()
}

// Those that are not read yet.
#[derive(Clone, Copy)]
pub struct Words<'a> {
    pub rest: &'a [u8],
}

impl<'a> Words<'a> {
    // The next word; an empty one behind the last.
    pub fn word(&mut self) -> &'a [u8]
        ensures word { result.now ≡ first_word self.old.rest.now }
        ensures rest { self.new.rest.now ≡ behind_word self.old.rest.now }
    {
        let line = self.rest;
        let end = word_len(line);
        self.rest = &line[line.len().min(end + 1)..];
        &line[..end]
    }

    pub fn number(&mut self) -> u64
        ensures number { result ≡ number_of (first_word self.old.rest.now) }
        ensures rest { self.new.rest.now ≡ behind_word self.old.rest.now }
    {
        number(self.word())
    }

    pub fn small(&mut self) -> u32
        ensures number { result ≡ number_of (first_word self.old.rest.now) % 4294967296 }
        ensures rest { self.new.rest.now ≡ behind_word self.old.rest.now }
    {
        (self.number() % 4294967296) as u32
    }

    pub fn size(&mut self) -> usize
        ensures number { result ≡ number_of (first_word self.old.rest.now) % 65536 }
        ensures rest { self.new.rest.now ≡ behind_word self.old.rest.now }
    {
        (self.number() % 65536) as usize
    }
}
