//! Works step by step on two small ordered lists, one of offers and one of codes, and prints each answer and the list after it.
#![tactic(auto)]

ghost use Rattle.ordered.specs.Places.{Ordered};

mod codes;
mod offers;
mod steps;

use codes::CODE_STEPS;
use offers::OFFER_STEPS;
use ordered::list::OrderedList;
use ordered::order::Ranked;
use std::fmt::Display;
use std::io;
use steps::{Step, apply};

// Prints how many records a list has, and each of them.
fn show<T: Ranked + Display + Drop>(rt: &HostRuntime, list: &OrderedList<T>) -> io::Result<()>
    requires { Ordered T.precedes list.now.places.now }
{
    let count = list.len();
    let full = if list.is_full() { ", full" } else { "" };
    print!(rt; "    {count}{full}:")?;
    for held in (0..count).map_while(|place| list.get(place)) {
        print!(rt; " [{held}]")?;
    }
    println!(rt; "")
}

// Takes the steps one by one on an empty list in this memory, and prints what each answers and leaves.
fn run<T: Ranked + Display + Copy>(
    rt: &HostRuntime,
    places: &mut [Option<T>],
    steps: &[Step<T>],
) -> io::Result<()> {
    let mut list = OrderedList::empty(places);
    for step in steps {
        let answer = apply(&mut list, *step);
        println!(rt; "{step}: {answer}")?;
        show(rt, &list)?;
    }
    Ok(())
}

fn main(rt: HostRuntime) -> io::Result<()> {
    println!(rt; "offers, lowest rate first, then lowest number, in 3 places")?;
    let mut offers = [None; 3];
    run(&rt, &mut offers, &OFFER_STEPS)?;
    println!(rt; "codes, by the values of their characters from the left, in 3 places")?;
    let mut codes = [None; 3];
    run(&rt, &mut codes, &CODE_STEPS)
}
