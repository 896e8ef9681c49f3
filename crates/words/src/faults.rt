//! What can be wrong with a word.

/// What is wrong with the word at a place, or with the place where it should stand. Places are counted from 1.
// A type of its own beside a line's faults, since no word is too long.
#[derive(Clone, Copy)]
pub enum WordFault {
    NotVerb(usize),
    Missing(usize),
    Excess(usize),
    WrongKind(usize),
}
