//! What an agent needs in collateral, in points.
ghost use Rattle.std.specs.Prelude.{◌≡◌, ◌*◌, ◌≤◌, length};
ghost use Rattle.definitions.specs.Cover.{need as need_of, needed_in as needed_of, need_for};
ghost use Rattle.definitions.specs.Limits.{most_price, most_quantity};
ghost use Rattle.definitions.specs.Sound.{ExposureRanged, Kempt};
ghost use Rattle.definitions.specs.States.{kept_of, total};
ghost use Rattle.ordered.specs.Places.{records};
ghost use Rattle.std.specs.List.{AllByRecursion as Each};

use crate::exposures::Exposed;
use tariff::cover::need;
use terms::ledger::Ledger;
use terms::records::Exposure;

// What an agent needs for an exposure: nothing for another's.
fn need_for(ledger: &Ledger, agent: usize, exposure: Exposure) -> u64
    requires kempt { Kempt ledger.now }
    requires ranged { ExposureRanged exposure }
    ensures value { result ≡ need_for (kept_of ledger.now) agent exposure }
    ensures bound { result ≤ need_of most_quantity most_price }
{
    if exposure.agent != agent {
        return 0;
    }
    let price = ledger.securities[exposure.security].price.unwrap_or(0);
    need(exposure.quantity, price).unwrap()
}

// What an agent needs for the records in a list's places.
fn need_for_all<T: Exposed>(ledger: &Ledger, agent: usize, places: &[Option<T>]) -> u64
    requires kempt { Kempt ledger.now }
    requires few { length places.now ≤ 128 }
    requires ranged { Each (λ x. ExposureRanged (T.exposes x)) (records places.now) }
    ensures value { result ≡ total (λ x. need_for (kept_of ledger.now) agent (T.exposes x)) (records places.now) }
    ensures bound { result ≤ 128 * need_of most_quantity most_price }
{
    let mut sum = 0;
    for place in places {
        let Some(held) = place else {
            return sum;
        };
        sum += need_for(ledger, agent, held.exposure());
    }
    sum
}

/// What an agent needs in all, for its unmatched borrowing and for its loans as borrower.
pub fn needed(ledger: &Ledger, agent: usize) -> u64
    requires { Kempt ledger.now }
    ensures value { result ≡ needed_of (kept_of ledger.now) agent }
{
    need_for_all(ledger, agent, &ledger.requests.borrowing)
        + need_for_all(ledger, agent, &ledger.loans.standing)
}
