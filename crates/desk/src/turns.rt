//! The turn of a line, in either pass over a day's text.
ghost use Rattle.std.specs.Prelude.{◌≡◌, map};
ghost use Rattle.desk.specs.Day.{instruction};
ghost use Rattle.desk.specs.Plan.{left_by, open_on, put_by, reply_by};

use book::LAST_OPENING;
use book::runs::Entry;
use instructions::answers::Reply;
use instructions::faults::ProgramFault;
use instructions::instruction::Instruction;
use instructions::parse::parse_line;
use std::slice::Iter;
use terms::calls::{Answer, Call, Refusal};

// The reply to what cannot be put to the book, or has no answer.
const UNOPENED: Reply = Reply::Refused(Refusal::Unopened);

// The day on which the book is open before a line, if it is, and what the line asks for or its fault as one of the program's.
#[derive(Clone, Copy)]
pub(crate) struct Turn {
    day: Option<u64>,
    asked: Result<Instruction, ProgramFault>,
}

impl Turn {
    // The turn of a line.
    pub(crate) fn of(day: Option<u64>, line: &[u8]) -> Turn
        ensures before { result.day ≡ day }
        ensures asks { result.asked ≡ instruction line.now }
    {
        let asked = parse_line(line).map_err(ProgramFault::from);
        Turn { day, asked }
    }

    // The day on which the book is open after the line.
    pub(crate) fn leaves(self) -> Option<u64>
        ensures { result ≡ open_on self.day self.asked }
    {
        self.day.or(match self.asked {
            Ok(Instruction::Start { day }) if day <= LAST_OPENING => Some(day),
            _ => None,
        })
    }

    // The call that the line puts to the book, if it is open.
    pub(crate) fn put(self) -> Option<Call>
        ensures { result ≡ put_by self.day self.asked }
    {
        match (self.day, self.asked) {
            (Some(_), Ok(Instruction::Call(call))) => Some(call),
            _ => None,
        }
    }

    // The reply to the line. A call that it puts takes the next of the entries.
    pub(crate) fn reply(self, entries: &mut Iter<Entry>) -> Reply
        ensures said { result ≡ reply_by self.day self.asked (map (λ e. e.answer) entries.old.rest.now) }
        ensures left { map (λ e. e.answer) entries.new.rest.now ≡ left_by (put_by self.day self.asked) (map (λ e. e.answer) entries.old.rest.now) }
    {
        match (self.day, self.asked) {
            (_, Err(fault)) => Reply::Faulty(fault),
            (None, Ok(Instruction::Start { day })) if day <= LAST_OPENING => {
                Reply::Answered(Answer::Done)
            }
            (Some(_), Ok(Instruction::Call(_))) => {
                entries.next().map_or(UNOPENED, |entry| entry.answer.into())
            }
            _ => UNOPENED,
        }
    }
}
