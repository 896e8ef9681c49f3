//! Whether a register is fit for a book.
ghost use Rattle.std.specs.Prelude.{◌≡◌, ◌&&◌, ◌==◌, nat_le};
ghost use Rattle.definitions.specs.Limits.{last_opening};
ghost use Rattle.definitions.specs.States.{fit};
ghost use Rattle.register.specs.Holdings.{sum_reserved, the_cap, total_of};

use crate::LAST_OPENING;
use custody::totals::{none_reserved, total_within_cap};
use register::Register;

const MOST_ACCOUNTS: usize = 64;

const MOST_SECURITIES: usize = 16;

// Whether a security has nothing reserved and no more shares than the cap.
fn is_security_fit<R: Register>(register: &R, security: usize) -> bool
    ensures { result ≡ (sum_reserved (R.holdings register.now) security == 0 && nat_le (total_of (R.holdings register.now) security) the_cap) }
{
    none_reserved(register, security) && total_within_cap(register, security).is_some()
}

// 1 to 64 accounts, 1 to 16 securities, nothing reserved, and at most the cap in shares of each security.
fn is_fit<R: Register>(register: &R) -> bool
    ensures { result ≡ fit (R.holdings register.now) }
{
    let accounts = register.accounts();
    let securities = register.securities();
    if accounts < 1 || accounts > MOST_ACCOUNTS || securities < 1 || securities > MOST_SECURITIES {
        return false;
    }
    (0..securities).all(|security| is_security_fit(register, security))
}

// Whether a book may be opened on the register and the day.
pub(crate) fn may_open<R: Register>(register: &R, day: u64) -> bool
    ensures { result ≡ (fit (R.holdings register.now) && nat_le day last_opening) }
{
    is_fit(register) && day <= LAST_OPENING
}
