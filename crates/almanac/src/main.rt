//! Prints every day from 0 to 18,262 with its date, its weekday and the day that the date has.
#![tactic(auto)]

mod entry;
mod page;

use std::io;

fn main(rt: HostRuntime) -> io::Result<()> {
    let text = page::almanac(rt.alloc())?;
    print!(rt; "{text}")
}
