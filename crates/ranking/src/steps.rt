//! One step on an ordered list, and its answer.
ghost use Rattle.std.specs.Prelude.{◌≡◌, length};
ghost use Rattle.ordered.specs.Places.{Ordered};
ghost use Rattle.ranking.specs.Ranking.{Done};

use ordered::list::{OrderedList, PutRefusal};
use ordered::order::Ranked;
use std::fmt;

/// What can be done with a list.
// A step is a value and not a closure, since it is printed beside its answer.
#[derive(Clone, Copy)]
pub enum Step<T> {
    Put(T),
    Take(usize),
    Replace(usize, T),
}

/// What a step answers: whether a record was put in, or the record that is out of the list now.
#[derive(Drop)]
pub enum Answer<T> {
    Put(Result<(), PutRefusal>),
    Out(Option<T>),
}

/// Does one step.
pub fn apply<T: Ranked + Drop>(list: &mut OrderedList<T>, step: Step<T>) -> Answer<T>
    requires { Ordered T.precedes list.old.places.now }
    ensures done { Done T.precedes step list.old.places.now result list.new.places.now }
    ensures stays { Ordered T.precedes list.new.places.now }
    ensures long { length list.new.places.now ≡ length list.old.places.now }
    ensures lent { list.new.places.ghost_name ≡ list.old.places.ghost_name }
{
    match step {
        Step::Put(item) => Answer::Put(list.put(item)),
        Step::Take(place) => Answer::Out(list.take(place)),
        Step::Replace(place, item) => Answer::Out(list.replace(place, item)),
    }
}

impl<T: fmt::Display> fmt::Display for Step<T> {
    fn fmt<W: fmt::Write>(&self, f: &mut fmt::Formatter<W>) -> fmt::Result {
        match self {
            Step::Put(item) => write!(f, "put {item}"),
            Step::Take(place) => write!(f, "take from place {place}"),
            Step::Replace(place, item) => write!(f, "replace at place {place} by {item}"),
        }
    }
}

impl<T: fmt::Display> fmt::Display for Answer<T> {
    fn fmt<W: fmt::Write>(&self, f: &mut fmt::Formatter<W>) -> fmt::Result {
        match self {
            Answer::Put(Ok(())) => write!(f, "accepted"),
            Answer::Put(Err(PutRefusal::Present)) => write!(f, "refused, present"),
            Answer::Put(Err(PutRefusal::Full)) => write!(f, "refused, full"),
            Answer::Out(Some(item)) => write!(f, "out came {item}"),
            Answer::Out(None) => write!(f, "nothing came out"),
        }
    }
}
