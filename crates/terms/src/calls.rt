//! What may be asked of the book, and what it answers. The numbers of a call are any at all.
ghost use Rattle.std.specs.Prelude.{◌≡◌};
ghost use Rattle.terms.specs.Numbers.{refusal_number};

/// A call, with its operands in the order in which they are given.
// A call is a value and not a closure: it is read from a line, and stands in the journal. Its operands are numbers, a kind's too,
// since any number may be asked, and one that is no kind's is refused.
#[derive(Clone, Copy)]
pub enum Call {
    Admit {
        security: u64,
    },
    Stop {
        security: u64,
    },
    Price {
        security: u64,
        cents: u64,
    },
    Deposit {
        account: u64,
        security: u64,
        quantity: u64,
    },
    Withdraw {
        account: u64,
        security: u64,
        quantity: u64,
    },
    Trade {
        giver: u64,
        receiver: u64,
        security: u64,
        quantity: u64,
    },
    Pledge {
        agent: u64,
        kind: u64,
        cents: u64,
    },
    Unpledge {
        agent: u64,
        kind: u64,
        cents: u64,
    },
    Suspend {
        agent: u64,
    },
    Noon,
}

/// What an accepted call answers: that it is done, or how many agents noon suspended.
#[derive(Clone, Copy)]
pub enum Answer {
    Done,
    Suspensions(u64),
}

/// Why a call is refused: the first question that was answered by no, by the question's number.
#[derive(Clone, Copy, PartialEq, Eq)]
pub enum Refusal {
    Unopened = 1,
    Unknown = 2,
    NotOpen = 3,
    OutOfRange = 4,
    WrongCondition = 5,
    AgentSuspended = 6,
    PartMatched = 7,
    WrongDay = 8,
    Unpriced = 9,
    TooFewShares = 10,
    Uncovered = 11,
    OverCap = 12,
    NoPlace = 13,
    TooManyLoans = 14,
    ShortList = 15,
    LastDay = 16,
}

impl Refusal {
    /// The number of the question, by which the refusal is given.
    pub fn number(self) -> u64
        ensures { result ≡ refusal_number self }
    {
        self as u64
    }
}
