//! Theorems, each the contract of a function that does nothing else.
ghost use Rattle.days.specs.Theorems.{Figures, RoundTrips};

/// Days and dates correspond one to one.
pub fn round_trips_stand()
    ensures { RoundTrips }
{}

/// The worked figures come out.
pub fn figures_stand()
    ensures { Figures }
{}
