//! The first pass over a day's text: the day on which it opens the book, and the calls that it puts to it.
ghost use Rattle.std.specs.Prelude.{◌≡◌, IfOk, None};
ghost use Rattle.desk.specs.Plan.{calls_of, day_of};
ghost use Rattle.words.specs.Parts.{lines};

use crate::turns::Turn;
use std::alloc::{AllocError, Global};
use terms::calls::Call;
use words::lines::Lines;

// The day on which a text opens the book, if it does, and the calls that it then puts to it.
#[derive(Drop)]
pub(crate) struct Plan {
    pub day: Option<u64>,
    pub calls: Vec<Call>,
}

// The plan of a text.
pub(crate) fn plan_of(heap: Global, text: &[u8]) -> Result<Plan, AllocError>
    ensures { IfOk result (λ p. (p.day ≡ day_of None (lines text.now)) × (p.calls.items ≡ calls_of None (lines text.now))) }
{
    let mut day = None;
    let mut calls = Vec::new(heap);
    for line in (Lines { rest: text }) {
        let turn = Turn::of(day, line);
        calls.extend(turn.put())?;
        day = turn.leaves();
    }
    Ok(Plan { day, calls })
}
