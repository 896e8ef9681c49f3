//! The total of a security over all accounts.
ghost use Rattle.std.specs.Prelude.{◌≡◌, ◌+◌, if◌then◌else◌, Some, None, ◌==◌, nat_le};
ghost use Rattle.register.specs.Holdings.{sum_reserved, the_cap, total_of};

use register::{Register, add_within_cap};

/// The free and reserved shares of a security over all accounts: `None` where they pass the cap.
pub fn total_within_cap<R: Register>(register: &R, security: usize) -> Option<u64>
    ensures { result ≡ (if nat_le (total_of (R.holdings register.now) security) the_cap then Some (total_of (R.holdings register.now) security) else None) }
{
    (0..register.accounts()).try_fold(0, |sum, account| {
        let sum = add_within_cap(sum, register.free(account, security))?;
        add_within_cap(sum, register.reserved(account, security))
    })
}

/// Whether no share of a security is reserved on any account.
pub fn none_reserved<R: Register>(register: &R, security: usize) -> bool
    ensures { result ≡ (sum_reserved (R.holdings register.now) security == 0) }
{
    (0..register.accounts()).all(|account| register.reserved(account, security) == 0)
}
