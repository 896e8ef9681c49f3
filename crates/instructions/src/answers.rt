//! The texts of the answers, one line for each.
ghost use Rattle.std.specs.Prelude.{◌≡◌, IfOk, MatchResult, Some, string_bytes};
ghost use Rattle.instructions.specs.Answers.{reply_text, worded};
ghost use Rattle.instructions.specs.declared.answers.Reply.TheVariants.{Answered, Refused};

use crate::faults::ProgramFault;
use std::alloc::{AllocError, Global};
use std::fmt;
use terms::calls::{Answer, Refusal};

/// What is said of a line: what the book answered, why it refused, or what is wrong with the line or with all of the input.
#[derive(Clone, Copy)]
pub enum Reply {
    Answered(Answer),
    Refused(Refusal),
    Faulty(ProgramFault),
}

/// What the book says to a call is said of its line.
impl From<Result<Answer, Refusal>> for Reply {
    ghost from_gives = { λ a r. MatchResult a (λ v. r ≡ Answered v) (λ e. r ≡ Refused e) };

    fn from(answer: Result<Answer, Refusal>) -> Reply {
        match answer {
            Ok(answer) => Reply::Answered(answer),
            Err(refusal) => Reply::Refused(refusal),
        }
    }
}

/// Prints `ok`, and after noon the number of agents that it suspended; `no` and the refusal; or `bad`, the fault and its place.
impl fmt::Display for Reply {
    ghost output = { λ r. Some (worded r) };

    fn fmt<W: fmt::Write>(&self, f: &mut fmt::Formatter<W>) -> fmt::Result {
        match *self {
            Reply::Answered(Answer::Done) => write!(f, "ok"),
            Reply::Answered(Answer::Suspensions(agents)) => write!(f, "ok {agents}"),
            Reply::Refused(refusal) => write!(f, "no {}", refusal.number()),
            Reply::Faulty(fault) => write!(f, "bad {} {}", fault.number(), fault.place()),
        }
    }
}

/// The reply to the nth line as a line of text.
#[tactic(auto, using(crate::proofs::Worded::numbered))]
pub fn reply_text(heap: Global, n: usize, reply: Reply) -> Result<String, AllocError>
    ensures { IfOk result (λ s. string_bytes s ≡ reply_text n reply) }
{
    format!(in heap; "{n} {reply}\n")
}
