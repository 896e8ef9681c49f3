//! The opening and the changes that the program puts to it.
use crate::changes::{Change, Kind, Line};

/// An image of 3 accounts and 2 securities, with 3 bytes beyond its last number. One free number is 7 below the cap, one free and
/// one reserved number are at the cap, and one reserved number is 1 below it.
#[rattlefmt::skip]
pub const OPENING: [u8; 103] = [
    0, 3, 0, 2,
    0, 0, 0, 0, 0, 0, 0, 100,
    0, 0, 0, 0, 0, 0, 0, 0,
    0, 0, 0, 232, 212, 165, 15, 249,
    0, 0, 0, 0, 0, 0, 0, 5,
    0, 0, 0, 0, 0, 0, 0, 0,
    0, 0, 0, 232, 212, 165, 16, 0,
    0, 0, 0, 0, 0, 0, 0, 0,
    0, 0, 0, 0, 0, 0, 0, 40,
    0, 0, 0, 0, 0, 0, 0, 0,
    0, 0, 0, 232, 212, 165, 15, 255,
    0, 0, 0, 232, 212, 165, 16, 0,
    0, 0, 0, 0, 0, 0, 0, 0,
    171, 205, 239,
];

/// How many changes there are.
pub const COUNT: usize = 36;

/// Changes of each kind: accepted and refused, to the cap and one past it, down to 0 and one below, by 0 shares, and of lines
/// outside the counts.
#[rattlefmt::skip]
pub const CHANGES: [Change; COUNT] = [
    Change { kind: Kind::Credit, line: Line { account: 0, security: 0 }, shares: 50 },
    Change { kind: Kind::Credit, line: Line { account: 0, security: 0 }, shares: 0 },
    Change { kind: Kind::Credit, line: Line { account: 1, security: 0 }, shares: 7 },
    Change { kind: Kind::Credit, line: Line { account: 1, security: 0 }, shares: 1 },
    Change { kind: Kind::Credit, line: Line { account: 1, security: 0 }, shares: 0 },
    Change { kind: Kind::Credit, line: Line { account: 3, security: 0 }, shares: 1 },
    Change { kind: Kind::Credit, line: Line { account: 0, security: 2 }, shares: 1 },
    Change { kind: Kind::Credit, line: Line { account: 2, security: 0 }, shares: 1_000_000_000_000 },
    Change { kind: Kind::Credit, line: Line { account: 2, security: 0 }, shares: 1_000_000_000_001 },
    Change { kind: Kind::Credit, line: Line { account: 0, security: 1 }, shares: 18_446_744_073_709_551_615 },
    Change { kind: Kind::Debit, line: Line { account: 0, security: 0 }, shares: 150 },
    Change { kind: Kind::Debit, line: Line { account: 0, security: 0 }, shares: 1 },
    Change { kind: Kind::Debit, line: Line { account: 0, security: 0 }, shares: 0 },
    Change { kind: Kind::Debit, line: Line { account: 2, security: 1 }, shares: 1_000_000_000_000 },
    Change { kind: Kind::Debit, line: Line { account: 2, security: 1 }, shares: 1 },
    Change { kind: Kind::Debit, line: Line { account: 3, security: 1 }, shares: 0 },
    Change { kind: Kind::Debit, line: Line { account: 1, security: 2 }, shares: 1 },
    Change { kind: Kind::Hold, line: Line { account: 1, security: 0 }, shares: 1_000_000_000_000 },
    Change { kind: Kind::Hold, line: Line { account: 1, security: 0 }, shares: 1 },
    Change { kind: Kind::Hold, line: Line { account: 1, security: 1 }, shares: 1 },
    Change { kind: Kind::Hold, line: Line { account: 1, security: 1 }, shares: 1 },
    Change { kind: Kind::Hold, line: Line { account: 1, security: 1 }, shares: 0 },
    Change { kind: Kind::Hold, line: Line { account: 2, security: 0 }, shares: 1 },
    Change { kind: Kind::Hold, line: Line { account: 3, security: 0 }, shares: 0 },
    Change { kind: Kind::Hold, line: Line { account: 0, security: 2 }, shares: 0 },
    Change { kind: Kind::Hold, line: Line { account: 0, security: 1 }, shares: 1 },
    Change { kind: Kind::Release, line: Line { account: 0, security: 1 }, shares: 40 },
    Change { kind: Kind::Release, line: Line { account: 0, security: 1 }, shares: 1 },
    Change { kind: Kind::Release, line: Line { account: 0, security: 1 }, shares: 0 },
    Change { kind: Kind::Release, line: Line { account: 2, security: 0 }, shares: 1 },
    Change { kind: Kind::Release, line: Line { account: 1, security: 0 }, shares: 1_000_000_000_001 },
    Change { kind: Kind::Release, line: Line { account: 1, security: 0 }, shares: 1_000_000_000_000 },
    Change { kind: Kind::Release, line: Line { account: 3, security: 3 }, shares: 0 },
    Change { kind: Kind::Release, line: Line { account: 0, security: 2 }, shares: 1 },
    Change { kind: Kind::Release, line: Line { account: 1, security: 1 }, shares: 999_999_999_996 },
    Change { kind: Kind::Release, line: Line { account: 1, security: 1 }, shares: 999_999_999_995 },
];
