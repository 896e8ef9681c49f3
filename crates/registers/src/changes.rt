//! Changes as values, and what a register answers to one.
ghost use Rattle.std.specs.Prelude.{◌≡◌};
ghost use Rattle.registers.specs.Changes.{Answered};

use register::{Refused, Register};
use std::fmt;

/// One account with one security.
#[derive(Clone, Copy)]
pub struct Line {
    pub account: usize,
    pub security: usize,
}

/// What a change makes of a line.
// A kind is a value and not a method of the register, since it is printed.
#[derive(Clone, Copy)]
pub enum Kind {
    Credit,
    Debit,
    Hold,
    Release,
}

/// A change of a line by a number of shares.
#[derive(Clone, Copy)]
pub struct Change {
    pub kind: Kind,
    pub line: Line,
    pub shares: u64,
}

/// Whether a change was accepted, and what its line holds afterwards.
#[derive(Clone, Copy, PartialEq, Eq)]
pub struct Answer {
    pub outcome: Result<(), Refused>,
    pub free: u64,
    pub reserved: u64,
}

impl fmt::Display for Line {
    fn fmt<W: fmt::Write>(&self, f: &mut fmt::Formatter<W>) -> fmt::Result {
        write!(f, "{}/{}", self.account, self.security)
    }
}

impl fmt::Display for Kind {
    fn fmt<W: fmt::Write>(&self, f: &mut fmt::Formatter<W>) -> fmt::Result {
        f.write_str(match self {
            Kind::Credit => "credit",
            Kind::Debit => "debit",
            Kind::Hold => "hold",
            Kind::Release => "release",
        })
    }
}

impl fmt::Display for Change {
    fn fmt<W: fmt::Write>(&self, f: &mut fmt::Formatter<W>) -> fmt::Result {
        write!(f, "{} {} at {}", self.kind, self.shares, self.line)
    }
}

impl fmt::Display for Answer {
    fn fmt<W: fmt::Write>(&self, f: &mut fmt::Formatter<W>) -> fmt::Result {
        let outcome = match self.outcome {
            Ok(()) => "accepted",
            Err(Refused) => "refused",
        };
        write!(
            f,
            "{outcome}, free {}, reserved {}",
            self.free, self.reserved
        )
    }
}

/// Puts a change to a register.
pub fn put<R: Register>(register: &mut R, change: Change) -> Answer
    ensures answer { Answered (R.holdings register.old) change result (R.holdings register.new) }
    ensures frame { R.frame register.new ≡ R.frame register.old }
{
    let Change { kind, line, shares } = change;
    let Line { account, security } = line;
    let outcome = match kind {
        Kind::Credit => register.credit(account, security, shares),
        Kind::Debit => register.debit(account, security, shares),
        Kind::Hold => register.hold(account, security, shares),
        Kind::Release => register.release(account, security, shares),
    };
    Answer {
        outcome,
        free: register.free(account, security),
        reserved: register.reserved(account, security),
    }
}
