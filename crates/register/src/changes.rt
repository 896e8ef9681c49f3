//! The four changes, once for every register that can set the numbers of a line.
ghost use Rattle.std.specs.Prelude.{◌≡◌, ℕ, ◌+◌, ◌-◌, ◌≤◌, ◌⊎◌, MatchOption, MatchResult};
ghost use Rattle.register.specs.Holdings.{Changes, Creditable, Debitable, Frame, Holdable, Holdings, Inside, Releasable, credited, debited, held, released, the_cap, with_free, with_reserved};

use crate::{Refused, add_within_cap};

/// The numbers of a register's lines, which whoever has the key can set. A register gives its key to nobody, so that its users
/// make no change but the four below.
pub trait Numbers {
    // The counts, and the numbers of each line.
    ghost holdings: { Self → Holdings };

    // What no setting alters.
    ghost frame: { Self → Frame };

    /// What opens the numbers to be set.
    type Key: Copy;

    /// A line of the register, with the place of its two numbers.
    type Line: Copy;

    // The account and the security of a line.
    ghost account_of: { Self.Line → ℕ };

    ghost security_of: { Self.Line → ℕ };

    // The numbers of the line stand at its place.
    ghost found: { Self → Self.Line → Type 0 };

    /// Finds a line: `None` outside the counts.
    fn line(&self, account: usize, security: usize) -> Option<Self::Line>
        ensures { MatchOption result (Inside (holdings self.now) account security → ⊥) (λ l. Inside (holdings self.now) account security × (account_of l ≡ account) × (security_of l ≡ security) × found self.now l) };

    /// The free shares of the line.
    fn free_of(&self, line: Self::Line) -> u64
        requires { found self.now line }
        ensures { result ≡ (holdings self.now).free (account_of line) (security_of line) };

    /// The reserved shares of the line.
    fn reserved_of(&self, line: Self::Line) -> u64
        requires { found self.now line }
        ensures { result ≡ (holdings self.now).reserved (account_of line) (security_of line) };

    /// Sets the line's free number. No number that it raises comes above the cap.
    fn set_free(&mut self, key: Self::Key, line: Self::Line, number: u64)
        requires line { Inside (holdings self.old) (account_of line) (security_of line) }
        requires found { found self.old line }
        requires bound { (number ≤ (holdings self.old).free (account_of line) (security_of line)) ⊎ (number ≤ the_cap) }
        ensures number { holdings self.new ≡ with_free (holdings self.old) (account_of line) (security_of line) number }
        ensures frame { frame self.new ≡ frame self.old }
        ensures stays { found self.new line };

    /// Sets the line's reserved number. No number that it raises comes above the cap.
    fn set_reserved(&mut self, key: Self::Key, line: Self::Line, number: u64)
        requires line { Inside (holdings self.old) (account_of line) (security_of line) }
        requires found { found self.old line }
        requires bound { (number ≤ (holdings self.old).reserved (account_of line) (security_of line)) ⊎ (number ≤ the_cap) }
        ensures number { holdings self.new ≡ with_reserved (holdings self.old) (account_of line) (security_of line) number }
        ensures frame { frame self.new ≡ frame self.old }
        ensures stays { found self.new line };
}

// The number with the shares taken off: refused where there are fewer.
fn lowered(number: u64, shares: u64) -> Result<u64, Refused>
    ensures { MatchResult result (λ less. (less ≡ number - shares) × (shares ≤ number)) (λ _. shares ≤ number → ⊥) }
{
    number.checked_sub(shares).ok_or(Refused)
}

// The four are four functions, since each is a rule of its own.

/// Raises the line's free number.
pub fn credit<N: Numbers>(
    numbers: &mut N,
    key: N::Key,
    account: usize,
    security: usize,
    shares: u64,
) -> Result<(), Refused>
    ensures change { Changes result (Creditable (N.holdings numbers.old) account security shares) (N.holdings numbers.old) (credited (N.holdings numbers.old) account security shares) (N.holdings numbers.new) }
    ensures frame { N.frame numbers.new ≡ N.frame numbers.old }
{
    let line = numbers.line(account, security).ok_or(Refused)?;
    let raised = add_within_cap(numbers.free_of(line), shares).ok_or(Refused)?;
    numbers.set_free(key, line, raised);
    Ok(())
}

/// Lowers the line's free number.
pub fn debit<N: Numbers>(
    numbers: &mut N,
    key: N::Key,
    account: usize,
    security: usize,
    shares: u64,
) -> Result<(), Refused>
    ensures change { Changes result (Debitable (N.holdings numbers.old) account security shares) (N.holdings numbers.old) (debited (N.holdings numbers.old) account security shares) (N.holdings numbers.new) }
    ensures frame { N.frame numbers.new ≡ N.frame numbers.old }
{
    let line = numbers.line(account, security).ok_or(Refused)?;
    let less = lowered(numbers.free_of(line), shares)?;
    numbers.set_free(key, line, less);
    Ok(())
}

/// Moves shares of the line from its free to its reserved number.
pub fn hold<N: Numbers>(
    numbers: &mut N,
    key: N::Key,
    account: usize,
    security: usize,
    shares: u64,
) -> Result<(), Refused>
    ensures change { Changes result (Holdable (N.holdings numbers.old) account security shares) (N.holdings numbers.old) (held (N.holdings numbers.old) account security shares) (N.holdings numbers.new) }
    ensures frame { N.frame numbers.new ≡ N.frame numbers.old }
{
    let line = numbers.line(account, security).ok_or(Refused)?;
    let left = lowered(numbers.free_of(line), shares)?;
    let held = add_within_cap(numbers.reserved_of(line), shares).ok_or(Refused)?;
    numbers.set_free(key, line, left);
    numbers.set_reserved(key, line, held);
    Ok(())
}

/// Moves shares of the line from its reserved back to its free number.
pub fn release<N: Numbers>(
    numbers: &mut N,
    key: N::Key,
    account: usize,
    security: usize,
    shares: u64,
) -> Result<(), Refused>
    ensures change { Changes result (Releasable (N.holdings numbers.old) account security shares) (N.holdings numbers.old) (released (N.holdings numbers.old) account security shares) (N.holdings numbers.new) }
    ensures frame { N.frame numbers.new ≡ N.frame numbers.old }
{
    let line = numbers.line(account, security).ok_or(Refused)?;
    let kept = lowered(numbers.reserved_of(line), shares)?;
    let freed = add_within_cap(numbers.free_of(line), shares).ok_or(Refused)?;
    numbers.set_free(key, line, freed);
    numbers.set_reserved(key, line, kept);
    Ok(())
}
