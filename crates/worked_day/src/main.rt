//! Reads a day's instructions from standard input, and prints the answer to each line.
#![tactic(auto)]

use desk::console::answer_input;
use std::io;

// A program is tested on one input, so each worked day is a program of its own.
fn main(rt: HostRuntime) -> io::Result<()> {
    answer_input(&rt)
}
