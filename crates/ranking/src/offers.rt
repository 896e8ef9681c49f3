//! Offers, and what the program does with them.
ghost use Rattle.ranking.specs.Ranking.{offer_before, offer_text};
ghost use Rattle.std.specs.Prelude.{Some};
ghost use Rattle.std.proofs.Common.{rules};

use crate::steps::Step;
use ordered::order::Ranked;
use std::fmt;

/// An offer of some shares at a rate, with its number.
#[derive(Clone, Copy)]
pub struct Offer {
    pub rate: u64,
    pub number: u64,
    pub shares: u64,
}

/// The lowest rate comes first, and at one rate the lowest number.
impl Ranked for Offer {
    ghost precedes = { offer_before };

    ghost asymmetric = { Prim.search rules };

    ghost chain = { Prim.search rules };

    fn before(&self, other: &Self) -> bool {
        (self.rate, self.number) < (other.rate, other.number)
    }
}

/// As text, the offer number 7 of 100 shares at the rate 300 is `rate 300 number 7 shares 100`.
impl fmt::Display for Offer {
    ghost output = { λ x. Some (offer_text x) };

    fn fmt<W: fmt::Write>(&self, f: &mut fmt::Formatter<W>) -> fmt::Result {
        let rate = self.rate;
        let number = self.number;
        let shares = self.shares;
        write!(f, "rate {rate} number {number} shares {shares}")
    }
}

/// The steps of the program on offers.
pub const OFFER_STEPS: [Step<Offer>; 18] = [
    Step::Put(Offer {
        rate: 300,
        number: 7,
        shares: 100,
    }),
    Step::Put(Offer {
        rate: 250,
        number: 9,
        shares: 40,
    }),
    Step::Put(Offer {
        rate: 250,
        number: 9,
        shares: 41,
    }),
    Step::Put(Offer {
        rate: 300,
        number: 2,
        shares: 10,
    }),
    Step::Put(Offer {
        rate: 300,
        number: 7,
        shares: 5,
    }),
    Step::Put(Offer {
        rate: 100,
        number: 12,
        shares: 60,
    }),
    Step::Take(3),
    Step::Take(1),
    Step::Take(2),
    Step::Replace(
        0,
        Offer {
            rate: 250,
            number: 9,
            shares: 75,
        },
    ),
    Step::Replace(
        0,
        Offer {
            rate: 250,
            number: 8,
            shares: 75,
        },
    ),
    Step::Replace(
        2,
        Offer {
            rate: 300,
            number: 7,
            shares: 75,
        },
    ),
    Step::Put(Offer {
        rate: 100,
        number: 12,
        shares: 60,
    }),
    Step::Put(Offer {
        rate: 400,
        number: 1,
        shares: 80,
    }),
    Step::Take(0),
    Step::Take(0),
    Step::Take(0),
    Step::Take(0),
];
