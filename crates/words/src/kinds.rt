//! The kinds of words.
ghost use Rattle.std.specs.Prelude.{◌≡◌};
ghost use Rattle.words.specs.Kinds.{read, meant, spelt, sharing_named, as_verb, as_number, as_day, as_expiry, as_sharing};

use crate::dates::day_written;
use crate::numbers::number_of;
use crate::verbs::{Verb, verb_of};
use terms::records::Sharing;

/// A word of a line by its kind: the part of the line that it is, and what it says. A date says the number of its day.
#[derive(Clone, Copy)]
pub enum Word<'a> {
    Verb(&'a [u8], Verb),
    Number(&'a [u8], u64),
    Date(&'a [u8], u64),
    Dash(&'a [u8]),
    Sharing(&'a [u8], Sharing),
    Other(&'a [u8]),
}

// The sharing that the word names, if it names one.
fn sharing_of(word: &[u8]) -> Option<Sharing>
    ensures { result ≡ sharing_named word.now }
{
    match word {
        b"one" => Some(Sharing::One),
        b"many" => Some(Sharing::Many),
        _ => None,
    }
}

impl<'a> Word<'a> {
    /// The word that a part of a line is.
    pub fn of(part: &'a [u8]) -> Word<'a>
        ensures same { spelt result ≡ part.now }
        ensures kind { meant result ≡ read part.now }
    {
        if let Some(n) = number_of(part) {
            Word::Number(part, n)
        } else if let Some(verb) = verb_of(part) {
            Word::Verb(part, verb)
        } else if let Some(day) = day_written(part) {
            Word::Date(part, day)
        } else if let Some(sharing) = sharing_of(part) {
            Word::Sharing(part, sharing)
        } else if part == b"-".as_slice() {
            Word::Dash(part)
        } else {
            Word::Other(part)
        }
    }

    // A method for each kind: a function cannot be given a variant to match, and a macro writes no contract.

    // The verb that the word is.
    pub(crate) fn as_verb(self) -> Option<Verb>
        ensures { result ≡ as_verb (meant self.entry) }
    {
        match self {
            Word::Verb(_, verb) => Some(verb),
            _ => None,
        }
    }

    // The number that the word is.
    pub(crate) fn as_number(self) -> Option<u64>
        ensures { result ≡ as_number (meant self.entry) }
    {
        match self {
            Word::Number(_, n) => Some(n),
            _ => None,
        }
    }

    // The day that the word is the date of.
    pub(crate) fn as_day(self) -> Option<u64>
        ensures { result ≡ as_day (meant self.entry) }
    {
        match self {
            Word::Date(_, day) => Some(day),
            _ => None,
        }
    }

    // The expiry that the word is: the day of a date, or a dash where none is given.
    pub(crate) fn as_expiry(self) -> Option<Option<u64>>
        ensures { result ≡ as_expiry (meant self.entry) }
    {
        match self {
            Word::Date(_, day) => Some(Some(day)),
            Word::Dash(_) => Some(None),
            _ => None,
        }
    }

    // The sharing that the word is.
    pub(crate) fn as_sharing(self) -> Option<Sharing>
        ensures { result ≡ as_sharing (meant self.entry) }
    {
        match self {
            Word::Sharing(_, sharing) => Some(sharing),
            _ => None,
        }
    }
}
