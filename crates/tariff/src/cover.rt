//! Value, need and collateral: cents and points.
ghost use Rattle.std.specs.Prelude.{◌≡◌, ◌*◌};
ghost use Rattle.definitions.specs.Cover.{need as need_of, points as points_of, weight as weight_of};
ghost use Rattle.definitions.specs.Tariff.{value as value_of};
ghost use Rattle.tariff.specs.Words.{in_word};

use terms::records::Kind;

const CASH_POINTS: u64 = 100;

const BILL_POINTS: u64 = 95;

const BOND_POINTS: u64 = 90;

const GUARANTEE_POINTS: u64 = 100;

// The points of need for each cent of value.
const NEED_POINTS: u64 = 110;

/// The value of a quantity at a price, in cents: `None` where 64 bits do not hold it.
pub fn value(quantity: u64, price: u64) -> Option<u64>
    ensures { result ≡ in_word (value_of quantity price) }
{
    quantity.checked_mul(price)
}

/// The need of a quantity at a price, in points: `None` where 64 bits do not hold it.
pub fn need(quantity: u64, price: u64) -> Option<u64>
    ensures { result ≡ in_word (need_of quantity price) }
{
    value(quantity, price)?.checked_mul(NEED_POINTS)
}

/// The points that a cent of a kind counts.
pub fn weight(kind: Kind) -> u64
    ensures { result ≡ weight_of kind }
{
    match kind {
        Kind::Cash => CASH_POINTS,
        Kind::Bills => BILL_POINTS,
        Kind::Bonds => BOND_POINTS,
        Kind::Guarantees => GUARANTEE_POINTS,
    }
}

/// The points of the cents of one kind.
pub fn kind_points(cents: u64, kind: Kind) -> u128
    ensures { result ≡ cents * weight_of kind }
{
    u128::from(cents) * u128::from(weight(kind))
}

/// The points of an agent's cents, one number for each kind.
pub fn points(cents: &[u64; 4]) -> u128
    ensures { result ≡ points_of cents.now }
{
    let [cash, bills, bonds, guarantees] = *cents;
    kind_points(cash, Kind::Cash)
        + kind_points(bills, Kind::Bills)
        + kind_points(bonds, Kind::Bonds)
        + kind_points(guarantees, Kind::Guarantees)
}
