//! What the list asks of a kind of record.
ghost use Rattle.std.specs.Prelude.{◌≡◌, Bool, true, false};

/// A kind of record whose order is total: of any two, one comes before the other, or they are equal in the order.
// It is not `Ord`, by whose laws records that are equal in the order would be equal.
pub trait Ranked {
    // Whether the first comes before the second.
    ghost precedes: { Self → Self → Bool };

    /// Whether this record comes before the other.
    fn before(&self, other: &Self) -> bool
        ensures { result ≡ precedes self.now other.now };

    // Of two records, not both come before the other.
    ghost asymmetric: { (x y : Self) → precedes x y ≡ true → precedes y x ≡ false };

    // A record that is not before a second one, which is not before a third, is not before the third.
    ghost chain: { (x y z : Self) → precedes x y ≡ false → precedes y z ≡ false → precedes x z ≡ false };
}
