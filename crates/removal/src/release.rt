//! What is left of lending requests that leave is released.
ghost use Rattle.std.specs.Prelude.{Bool, ◌≡◌, if◌then◌else◌};
ghost use Rattle.definitions.specs.Requests.{released_all};
ghost use Rattle.ordered.specs.Places.{records};
ghost use Rattle.ordered.specs.Selected.{those, DecidedBy};
ghost use Rattle.register.specs.Holdings.{Releasable, released};
ghost use Rattle.removal.specs.Held.{Lent};
ghost use Rattle.terms.specs.declared.records.Request.{Request};

use register::Register;
use terms::records::{LendingRequest, Request};

// Releases what is left of a request, if it leaves.
fn release_one<R: Register, F: Fn(&Request) -> bool>(
    lending: &LendingRequest,
    register: &mut R,
    leaves: &F,
)
    requires releasable { Releasable (R.holdings register.old) lending.now.request.account lending.now.request.security lending.now.request.left }
    requires callable { F.IsAlwaysCallable leaves.now }
    ensures holds { (test : Request → Bool) → DecidedBy F.Fn leaves.now test → R.holdings register.new ≡ (if test lending.now.request then released (R.holdings register.old) lending.now.request.account lending.now.request.security lending.now.request.left else R.holdings register.old) }
    ensures frame { R.frame register.new ≡ R.frame register.old }
{
    let request = &lending.request;
    if leaves(request) {
        register
            .release(request.account, request.security, request.left)
            .unwrap();
    }
}

// Releases what is left of each request that leaves.
pub(crate) fn release_those<R: Register, F: Fn(&Request) -> bool>(
    places: &[Option<LendingRequest>],
    register: &mut R,
    leaves: &F,
)
    requires lent { Lent (R.holdings register.old) (records places.now) }
    requires callable { F.IsAlwaysCallable leaves.now }
    requires decided { (test : Request → Bool) × DecidedBy F.Fn leaves.now test }
    ensures holds { (test : Request → Bool) → DecidedBy F.Fn leaves.now test → R.holdings register.new ≡ released_all (R.holdings register.old) (those (λ l. test l.request) (records places.now)) }
    ensures frame { R.frame register.new ≡ R.frame register.old }
{
    // Not over `places.iter().map_while(..)`: in a function that is generic over a closure the checker cannot state such a loop.
    for place in places {
        let Some(lending) = place else {
            return;
        };
        release_one(lending, register, leaves);
    }
}
