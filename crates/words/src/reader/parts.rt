//! The words of a line as parts of it, one after another.
ghost use Rattle.std.specs.Prelude.{◌≡◌, MatchOption};
ghost use Rattle.std.specs.Option.{option_map};
ghost use Rattle.words.specs.Reading.{Cut, first, left, seen, step, whole};

use crate::marks::length_until;
use crate::reader::{Part, Reader};

const SPACE: u8 = b' ';

impl<'a> Reader<'a> {
    /// The reader of a whole line.
    pub fn new(line: &'a [u8]) -> Reader<'a>
        ensures bytes { result.line.now ≡ line.now }
        ensures value { left result ≡ whole line.now }
    {
        Reader {
            line,
            at: 0,
            place: 1,
        }
    }

    // The place of the next word.
    pub(crate) fn place(&self) -> usize
        ensures { result ≡ (left self.now).1 }
    {
        self.place
    }

    /// The next word, which is a part of the line, with its place: `None` past the last.
    pub fn next(&mut self) -> Option<Part<'a>>
        ensures given { option_map seen result ≡ first (left self.old) }
        ensures after { left self.new ≡ step (left self.old) }
        ensures part { MatchOption result (self.new ≡ self.old) (λ w. Cut self.old w self.new) }
    {
        let rest = self.line.get(self.at..)?;
        let n = length_until(SPACE, rest);
        let place = self.place;
        self.at = self.at + n + 1;
        self.place = place + 1;
        Some(Part {
            bytes: &rest[..n],
            place,
        })
    }
}
