//! A program over the desk.
use crate::day::answer_day;
use std::io;
use std::io::Read;

// One byte more than a text may have shows that it has too many.
const MOST_READ: u64 = 65_537;

/// Reads a day's text from standard input, and prints the answers to it.
pub fn answer_input(rt: &HostRuntime) -> io::Result<()> {
    let heap = rt.alloc();
    let mut text: Vec<u8> = Vec::new(heap);
    rt.stdin().take(MOST_READ).read_to_end(&mut text)?;
    let answers = answer_day(heap, text.as_slice())?;
    print!(rt; "{answers}")
}
