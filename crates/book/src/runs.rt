//! A whole run: a book is opened, and a list of calls is put to it.
ghost use Rattle.std.specs.Prelude.{◌≡◌, MatchResult};
ghost use Rattle.book.specs.Ran.{Ran};

use crate::books::Book;
use calendar::Calendar;
use register::Register;
use std::alloc::Global;
use terms::calls::{Answer, Call, Refusal};

/// A call and what it was answered.
#[derive(Clone, Copy)]
pub struct Entry {
    pub call: Call,
    pub answer: Result<Answer, Refusal>,
}

/// A run that is over: the book as it stands, and the journal of every call with its answer.
#[derive(Drop)]
pub struct Finished<R: Register, C: Calendar> {
    pub book: Book<R, C>,
    pub journal: Vec<Entry>,
}

/// A run that could not begin for want of memory: the register and the calendar as they were given.
#[derive(Drop)]
pub struct Unstarted<R: Register, C: Calendar> {
    pub register: R,
    pub calendar: C,
}

/// Opens a book and puts the calls to it one after the other. All memory is reserved before the first call.
pub fn run<R: Register, C: Calendar>(
    heap: Global,
    register: R,
    calendar: C,
    day: u64,
    calls: &[Call],
) -> Result<Finished<R, C>, Unstarted<R, C>>
    ensures { MatchResult result (λ x. Ran register calendar day calls.now x) (λ u. (u.register ≡ register) × (u.calendar ≡ calendar)) }
{
    let Ok(mut journal) = Vec::with_capacity(heap, calls.len()) else {
        return Err(Unstarted { register, calendar });
    };
    let mut book = Book::open(register, calendar, day);
    for call in calls {
        let answer = book.execute(*call);
        journal.push_reserved(Entry {
            call: *call,
            answer,
        });
    }
    Ok(Finished { book, journal })
}
