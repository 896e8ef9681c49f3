//! A worked day of lines that are at fault.
#![tactic(auto)]

use desk::console::answer_input;
use std::io;

// A program is tested on one input, so each worked day is a program of its own.
fn main(rt: HostRuntime) -> io::Result<()> {
    answer_input(&rt)
}
