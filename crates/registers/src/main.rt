//! Puts one list of changes to a register in bytes and to a movement register over the same bytes, and prints what each answers.
#![tactic(auto)]

mod changes;
mod lists;
mod samples;

use changes::{Answer, Change, Line};
use image::{Image, ImageRegister};
use lists::{put_both, put_to_bytes};
use movement::MovementRegister;
use register::Register;
use samples::{CHANGES, OPENING};

fn print_change(
    rt: &HostRuntime,
    change: &Change,
    first: &Answer,
    second: &Answer,
) -> anyhow::Result<()> {
    println!(rt; "{change}")?;
    println!(rt; "  image: {first}")?;
    println!(rt; "  movement: {second}")?;
    if first != second {
        println!(rt; "  THEY DIFFER")?;
    }
    Ok(())
}

fn print_numbers<R: Register>(rt: &HostRuntime, name: &str, register: &R) -> anyhow::Result<()> {
    println!(rt; "{name} at the end")?;
    for account in 0..register.accounts() {
        for security in 0..register.securities() {
            let free = register.free(account, security);
            let reserved = register.reserved(account, security);
            let line = Line { account, security };
            println!(rt; "  {line}: free {free}, reserved {reserved}")?;
        }
    }
    Ok(())
}

fn run(rt: &HostRuntime) -> anyhow::Result<()> {
    let opening = OPENING;
    let mut movement = MovementRegister::new(rt.alloc(), Image::new(&opening))?;
    let mut bytes = OPENING;
    let mut image = ImageRegister::new(&mut bytes);
    let (first, second) = put_both(&mut image, &mut movement, &CHANGES);
    for ((change, first), second) in CHANGES.iter().zip(&first).zip(&second) {
        print_change(rt, change, first, second)?;
    }
    print_numbers(rt, "image", &image)?;
    print_numbers(rt, "movement", &movement)?;
    let mut own = OPENING;
    let _ = put_to_bytes(&mut own, &CHANGES);
    println!(rt; "bytes at the end: {own:?}")?;
    Ok(())
}

fn main(rt: HostRuntime) -> anyhow::Result<()> {
    run(&rt)
}
