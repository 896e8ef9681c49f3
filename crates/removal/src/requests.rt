//! Requests of both lists.
ghost use Rattle.std.specs.Prelude.{Bool, ◌≡◌, ◌+◌, length};
ghost use Rattle.definitions.specs.Requests.{taken_out};
ghost use Rattle.definitions.specs.Sound.{Borne, Neat};
ghost use Rattle.definitions.specs.States.{state};
ghost use Rattle.ordered.specs.Places.{records};
ghost use Rattle.ordered.specs.Selected.{those, DecidedBy};
ghost use Rattle.terms.specs.declared.records.Request.{Request};

use crate::release::release_those;
use ordered::list::OrderedList;
use register::Register;
use terms::ledger::Ledger;
use terms::records::Request;

/// Takes out the requests that leave, releases what is left of the lending ones, and answers how many left. `leaves` is asked twice
/// of a lending request.
pub fn remove_requests<R: Register, F: Fn(&Request) -> bool>(
    ledger: &mut Ledger,
    register: &mut R,
    leaves: F,
) -> usize
    requires neat { Neat ledger.old }
    requires borne { Borne (state (R.holdings register.old) ledger.old) }
    requires callable { F.IsAlwaysCallable leaves }
    requires decided { (test : Request → Bool) × DecidedBy F.Fn leaves test }
    ensures leaves { (test : Request → Bool) → DecidedBy F.Fn leaves test → state (R.holdings register.new) ledger.new ≡ taken_out test (state (R.holdings register.old) ledger.old) }
    ensures count { (test : Request → Bool) → DecidedBy F.Fn leaves test → result ≡ length (those (λ l. test l.request) (records ledger.old.requests.lending)) + length (those (λ b. test b.request) (records ledger.old.requests.borrowing)) }
    ensures neat { Neat ledger.new }
    ensures borne { Borne (state (R.holdings register.new) ledger.new) }
    ensures frame { R.frame register.new ≡ R.frame register.old }
{
    release_those(&ledger.requests.lending, register, &leaves);
    let mut list = OrderedList::over(&mut ledger.requests.lending);
    let lending = list.remove_those(|lending| leaves(&lending.request));
    let mut list = OrderedList::over(&mut ledger.requests.borrowing);
    let borrowing = list.remove_those(|borrowing| leaves(&borrowing.request));
    lending + borrowing
}
