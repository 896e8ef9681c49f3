//! A line that is read word by word.
ghost use Rattle.std.specs.Prelude.{◌+◌, ◌≤◌, length};

pub mod parts;

/// What is left of a line: the next word begins at `at` and is the `place`th. Past the end there is none.
// The line stays whole, with an index beside it, since the contract of `next` says where in the line each part was cut.
#[derive(Drop)]
pub struct Reader<'a> {
    line: &'a [u8],
    at: usize,
    place: usize,
    ghost ok: { (at ≤ length line.now + 1) × (place ≤ at + 1) },
}

/// A word as a part of its line, with its place, counted from 1.
#[derive(Clone, Copy)]
pub struct Part<'a> {
    pub bytes: &'a [u8],
    pub place: usize,
}
