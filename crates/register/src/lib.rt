//! Share registers: what a register holds, and what it promises of each question and each change.
#![tactic(auto)]

ghost use Rattle.std.specs.Prelude.{◌≡◌, ◌+◌, if◌then◌else◌, Some, None, nat_le};
ghost use Rattle.register.specs.Holdings.{Changes, Creditable, Debitable, Frame, Holdable, Holdings, Outside, Releasable, credited, debited, held, released, the_cap};

pub mod changes;
pub mod theorems;

/// No number is raised above this many shares.
pub const CAP: u64 = 1_000_000_000_000;

/// The number with the shares added: `None` above the cap.
pub fn add_within_cap(number: u64, shares: u64) -> Option<u64>
    ensures { result ≡ (if nat_le (number + shares) the_cap then Some (number + shares) else None) }
{
    number.checked_add(shares).filter(|sum| *sum <= CAP)
}

/// A change was refused, and has changed nothing.
#[derive(Clone, Copy, PartialEq, Eq)]
pub struct Refused;

/// A register of free and reserved shares for each line, one account with one security, both numbered from 0.
///
/// Questions alter nothing. A change is refused exactly when its line is outside the counts, the number that it lowers is too
/// small, or the number that it raises would pass the cap. It then changes nothing; accepted, it touches no other number.
// A line is two numbers and no record: holdings are functions of the two, and so each clause names them apart.
pub trait Register {
    // The counts, and the numbers of each line.
    ghost holdings: { Self → Holdings };

    // Whose memory the register borrows, and the bytes there that are none of its numbers: no change alters these.
    ghost frame: { Self → Frame };

    // A line outside the counts has no shares.
    ghost outside: { Outside holdings };

    /// The number of accounts.
    fn accounts(&self) -> usize
        ensures { result ≡ (holdings self.now).accounts };

    /// The number of securities.
    fn securities(&self) -> usize
        ensures { result ≡ (holdings self.now).securities };

    /// The free shares of a line: 0 outside the counts.
    fn free(&self, account: usize, security: usize) -> u64
        ensures { result ≡ (holdings self.now).free account security };

    /// The reserved shares of a line: 0 outside the counts.
    fn reserved(&self, account: usize, security: usize) -> u64
        ensures { result ≡ (holdings self.now).reserved account security };

    /// Raises the line's free number.
    fn credit(&mut self, account: usize, security: usize, shares: u64) -> Result<(), Refused>
        ensures change { Changes result (Creditable (holdings self.old) account security shares) (holdings self.old) (credited (holdings self.old) account security shares) (holdings self.new) }
        ensures frame { frame self.new ≡ frame self.old };

    /// Lowers the line's free number.
    fn debit(&mut self, account: usize, security: usize, shares: u64) -> Result<(), Refused>
        ensures change { Changes result (Debitable (holdings self.old) account security shares) (holdings self.old) (debited (holdings self.old) account security shares) (holdings self.new) }
        ensures frame { frame self.new ≡ frame self.old };

    /// Moves shares of the line from its free to its reserved number.
    fn hold(&mut self, account: usize, security: usize, shares: u64) -> Result<(), Refused>
        ensures change { Changes result (Holdable (holdings self.old) account security shares) (holdings self.old) (held (holdings self.old) account security shares) (holdings self.new) }
        ensures frame { frame self.new ≡ frame self.old };

    /// Moves shares of the line from its reserved back to its free number.
    fn release(&mut self, account: usize, security: usize, shares: u64) -> Result<(), Refused>
        ensures change { Changes result (Releasable (holdings self.old) account security shares) (holdings self.old) (released (holdings self.old) account security shares) (holdings self.new) }
        ensures frame { frame self.new ≡ frame self.old };
}
