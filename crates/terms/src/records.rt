//! What the book keeps a record of.
ghost use Rattle.std.specs.Option.{ok_or};
ghost use Rattle.std.specs.Prelude.{◌≡◌};
ghost use Rattle.terms.specs.Numbers.{kind_number, kind_of, outcome_number};
ghost use Rattle.terms.specs.declared.calls.Refusal.TheVariants.{Unknown};

use crate::calls::Refusal;

/// How an agent stands with the book.
#[derive(Clone, Copy, Default, PartialEq, Eq)]
pub enum Standing {
    #[default]
    Clear,
    Notified,
    Suspended,
}

/// What may change an agent's standing. At a close and at noon it counts whether the agent is short.
#[derive(Clone, Copy)]
pub enum Event {
    Close { short: bool },
    Noon { short: bool },
    Suspend,
    Resume,
}

/// The kinds of collateral, each by its number.
#[derive(Clone, Copy, PartialEq, Eq)]
pub enum Kind {
    Cash = 0,
    Bills = 1,
    Bonds = 2,
    Guarantees = 3,
}

impl Kind {
    /// The number of the kind, which is its place among an agent's cents.
    pub fn number(self) -> usize
        ensures { result ≡ kind_number self }
    {
        self as usize
    }
}

/// The kind that has a number; past the last it is unknown.
impl TryFrom<u64> for Kind {
    type Error = Refusal;

    ghost try_from_gives = { λ number found. found ≡ ok_or (kind_of number) Unknown };

    fn try_from(number: u64) -> Result<Kind, Refusal> {
        // No derive makes a variant of a number.
        match number {
            0 => Ok(Kind::Cash),
            1 => Ok(Kind::Bills),
            2 => Ok(Kind::Bonds),
            3 => Ok(Kind::Guarantees),
            _ => Err(Refusal::Unknown),
        }
    }
}

/// An agent's standing, and its collateral: cents of each kind, at the kind's number.
#[derive(Clone, Copy, Default)]
pub struct Agent {
    pub standing: Standing,
    pub cents: [u64; 4],
}

/// Whether a security may be lent, the price posted last and the price in force, in cents.
#[derive(Clone, Copy, Default)]
pub struct Security {
    pub eligible: bool,
    pub posted: Option<u64>,
    pub price: Option<u64>,
}

/// Whether a request is to be matched with one other alone, or may be shared among many.
#[derive(Clone, Copy, PartialEq, Eq)]
pub enum Sharing {
    One,
    Many,
}

/// What a lending and a borrowing request have in common. `number` is its first update number and `update` its latest;
/// `left` is what is not matched of its quantity. The rate is the lowest of a lending and the highest of a borrowing request, in
/// hundredths of a percent a year; the duration the longest of the one and the shortest of the other, in days.
#[derive(Clone, Copy)]
pub struct Request {
    pub number: u64,
    pub update: u64,
    pub agent: usize,
    pub account: usize,
    pub security: usize,
    pub quantity: u64,
    pub left: u64,
    pub rate: u64,
    pub expiry: u64,
    pub sharing: Sharing,
    pub duration: u64,
}

/// A request to lend.
// Lending and borrowing requests are two types, since their lists have two orders.
#[derive(Clone, Copy)]
pub struct LendingRequest {
    pub request: Request,
}

/// A request to borrow.
#[derive(Clone, Copy)]
pub struct BorrowingRequest {
    pub request: Request,
}

/// An account, and the agent who acts for it.
#[derive(Clone, Copy)]
pub struct Party {
    pub agent: usize,
    pub account: usize,
}

/// An open loan. `opening` is quantity × price in cents when it was made, `due` its return day; `accrual` grows at a close by
/// quantity × price × rate.
#[derive(Clone, Copy)]
pub struct Loan {
    pub reference: u64,
    pub security: usize,
    pub quantity: u64,
    pub rate: u64,
    pub opening: u64,
    pub accrual: u64,
    pub due: u64,
    pub lender: Party,
    pub borrower: Party,
    pub failed: bool,
}

/// What an agent has to cover: a quantity of a security that it asks to borrow, or has borrowed.
#[derive(Clone, Copy)]
pub struct Exposure {
    pub agent: usize,
    pub security: usize,
    pub quantity: u64,
}

/// What the depository and the fund levy on one party, in cents.
#[derive(Clone, Copy)]
pub struct Levies {
    pub depository: u64,
    pub fund: u64,
}

/// What is due on a loan when it ends: the fee, and the levies on each party, in cents.
#[derive(Clone, Copy)]
pub struct Bill {
    pub fee: u64,
    pub lender: Levies,
    pub borrower: Levies,
}

/// What became of a loan that was due.
#[derive(Clone, Copy)]
pub enum Outcome {
    Returned = 1,
    Failed = 2,
}

impl Outcome {
    /// The number by which a close line gives it.
    pub fn number(self) -> u64
        ensures { result ≡ outcome_number self }
    {
        self as u64
    }
}

/// What a close says of one loan that was due: the parties' agents, the bill, and the fine in cents.
#[derive(Clone, Copy)]
pub struct CloseLine {
    pub reference: u64,
    pub outcome: Outcome,
    pub borrower: usize,
    pub lender: usize,
    pub bill: Bill,
    pub fine: u64,
}
