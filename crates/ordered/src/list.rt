//! The ordered list.
ghost use Rattle.std.specs.Prelude.{Bool, ◌≡◌, [], length};
ghost use Rattle.ordered.specs.Answers.{Put, Replaced, Taken};
ghost use Rattle.ordered.specs.Places.{full, records, Ordered};
ghost use Rattle.ordered.specs.Selected.{others, those, DecidedBy};
ghost use Rattle.std.specs.Option.{option_map};
ghost use Rattle.std.specs.List.{slice_get};

use crate::order::Ranked;
use crate::places::{clear, count, put_in, record_at, take_out, write_over};

/// Why a record is not put in: one equal to it in the order stands there, or no place is empty.
#[derive(Clone, Copy)]
pub enum PutRefusal {
    Present,
    Full,
}

/// The records of one kind, strictly ascending from the first place on, in memory that the caller lends.
// That they ascend is asked by each method and is no invariant of the list, since `over` takes any memory as it is.
#[derive(Drop)]
pub struct OrderedList<'a, T> {
    places: &'a mut [Option<T>],
}

impl<'a, T: Ranked + Drop> OrderedList<'a, T> {
    /// An empty list: what the memory held is dropped.
    pub fn empty(places: &'a mut [Option<T>]) -> Self
        ensures none { records result.places.now ≡ [] }
        ensures stays { Ordered T.precedes result.places.now }
        ensures long { length result.places.now ≡ length places.old }
        ensures lent { result.places.ghost_name ≡ places.entry.ghost_name }
    {
        clear(places);
        Self::over(places)
    }

    /// The list that the memory holds already.
    pub fn over(places: &'a mut [Option<T>]) -> Self
        ensures same { result.places.now ≡ places.old }
        ensures lent { result.places.ghost_name ≡ places.entry.ghost_name }
    {
        OrderedList { places }
    }

    /// How many records there are.
    #[tactic(auto, using(crate::proofs::Reading::counted))]
    pub fn len(&self) -> usize
        ensures { result ≡ length (records self.now.places.now) }
    {
        count(self.places)
    }

    /// Whether no place is empty.
    #[tactic(auto, using(crate::proofs::Reading::filled))]
    pub fn is_full(&self) -> bool
        ensures { result ≡ full self.now.places.now }
    {
        crate::places::is_full(self.places)
    }

    /// The record at a place; `None` where the place is empty.
    pub fn get(&self, place: usize) -> Option<&T>
        requires { Ordered T.precedes self.now.places.now }
        ensures { option_map (λ x. x.now) result ≡ slice_get (records self.now.places.now) place }
    {
        record_at(self.places, place)
    }

    /// Puts a record in where it belongs. Refused where one equal to it in the order stands there, or else where no place is empty.
    pub fn put(&mut self, item: T) -> Result<(), PutRefusal>
        requires { Ordered T.precedes self.old.places.now }
        ensures put { Put T.precedes item self.old.places.now result self.new.places.now }
        ensures long { length self.new.places.now ≡ length self.old.places.now }
        ensures lent { self.new.places.ghost_name ≡ self.old.places.ghost_name }
    {
        put_in(self.places, item)
    }

    /// Takes out the record at a place; `None` where the place is empty.
    pub fn take(&mut self, place: usize) -> Option<T>
        requires { Ordered T.precedes self.old.places.now }
        ensures taken { Taken T.precedes place self.old.places.now result self.new.places.now }
        ensures long { length self.new.places.now ≡ length self.old.places.now }
        ensures lent { self.new.places.ghost_name ≡ self.old.places.ghost_name }
    {
        take_out(self.places, place)
    }

    /// Writes a record over the one at a place, and answers that one, if the two are equal in the order; `None`, with nothing changed, if they are not or the place is empty.
    pub fn replace(&mut self, place: usize, item: T) -> Option<T>
        requires { Ordered T.precedes self.old.places.now }
        ensures replaced { Replaced T.precedes place item self.old.places.now result self.new.places.now }
        ensures long { length self.new.places.now ≡ length self.old.places.now }
        ensures lent { self.new.places.ghost_name ≡ self.old.places.ghost_name }
    {
        write_over(self.places, place, item)
    }

    /// Takes out every record of which `leaves` says so, and answers how many they were; the others stay in their order.
    pub fn remove_those<F: Fn(&T) -> bool>(&mut self, leaves: F) -> usize
        requires ordered { Ordered T.precedes self.old.places.now }
        requires callable { F.IsAlwaysCallable leaves }
        requires decided { (test : T → Bool) × DecidedBy F.Fn leaves test }
        ensures removed { (test : T → Bool) → DecidedBy F.Fn leaves test → records self.new.places.now ≡ others test (records self.old.places.now) }
        ensures count { (test : T → Bool) → DecidedBy F.Fn leaves test → result ≡ length (those test (records self.old.places.now)) }
        ensures stays { Ordered T.precedes self.new.places.now }
        ensures long { length self.new.places.now ≡ length self.old.places.now }
        ensures lent { self.new.places.ghost_name ≡ self.old.places.ghost_name }
    {
        crate::places::remove_those(self.places, leaves)
    }
}
