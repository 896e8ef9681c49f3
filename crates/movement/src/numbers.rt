//! A number, its opening and its movement.
ghost use Rattle.std.specs.Prelude.{◌≡◌, ◌≤◌, pos, ◌+ℤ◌};
ghost use Rattle.register.specs.Holdings.{the_cap};
ghost use Rattle.movement.specs.Moved.{Settled, net};

// What became of the two numbers of a line since the opening.
#[derive(Clone, Copy)]
pub(crate) struct Movement {
    pub(crate) free: i64,
    pub(crate) reserved: i64,
}

// A number after its movement.
pub(crate) fn after(opening: u64, movement: i64) -> u64
    requires { Settled opening movement }
    ensures { result ≡ net opening movement }
{
    (opening as i64 + movement) as u64
}

// The movement that makes a number of its opening.
pub(crate) fn towards(opening: u64, number: u64) -> i64
    requires small { opening ≤ the_cap }
    requires bound { number ≤ the_cap }
    ensures { (pos opening +ℤ result) ≡ pos number }
{
    number as i64 - opening as i64
}
