//! The lines of a text, one after another.
ghost use Rattle.std.specs.Prelude.{length};
ghost use Rattle.words.specs.Texts.{Gave};
ghost use Rattle.std.specs.Iterator.{at_most};

use crate::marks::length_until;

const NEWLINE: u8 = b'\n';

/// What is left of a text, to be read line by line.
#[derive(Drop)]
pub struct Lines<'a> {
    pub rest: &'a [u8],
}

/// Gives the lines without their newlines.
impl<'a> Iterator for Lines<'a> {
    type Item = &'a [u8];

    ghost next_gives = { λ s r t. Gave s.rest.now r t.rest.now };

    ghost remaining = { λ s. at_most (length s.rest.now) };

    fn next(&mut self) -> Option<&'a [u8]> {
        let rest = self.rest;
        if rest.is_empty() {
            return None;
        }
        let n = length_until(NEWLINE, rest);
        self.rest = rest.get(n + 1..).unwrap_or_default();
        Some(&rest[..n])
    }
}
