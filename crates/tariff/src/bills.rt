//! What is due on a loan when it ends, in cents, each amount rounded down.
ghost use Rattle.std.specs.Prelude.{◌≡◌};
ghost use Rattle.definitions.specs.Tariff.{bill_of, borrower_levies, fee_of, lender_levies, part_down};

use crate::rates::Rate;
use terms::records::{Bill, Levies};

// What of an accrual is a cent of fee: an accrual counts cents × hundredths of a percent × days.
const ACCRUAL_PER_CENT: u64 = 3_650_000;

const LENDER_DEPOSITORY: Rate = Rate { hundredths: 700 };

const LENDER_FUND: Rate = Rate { hundredths: 100 };

const BORROWER_DEPOSITORY: Rate = Rate { hundredths: 20 };

const BORROWER_FUND: Rate = Rate { hundredths: 5 };

/// The fee of an accrual.
pub fn fee(accrual: u64) -> u64
    ensures { result ≡ fee_of accrual }
{
    accrual / ACCRUAL_PER_CENT
}

// The levies on an amount, by the rates of the depository and of the fund.
fn levies(depository: Rate, fund: Rate, amount: u64) -> Levies
    ensures depository { result.depository ≡ part_down depository.hundredths amount }
    ensures fund { result.fund ≡ part_down fund.hundredths amount }
{
    Levies {
        depository: depository.part_down(amount),
        fund: fund.part_down(amount),
    }
}

/// The lender's levies on a fee.
pub fn lender_levies(fee: u64) -> Levies
    ensures { result ≡ lender_levies fee }
{
    levies(LENDER_DEPOSITORY, LENDER_FUND, fee)
}

/// The borrower's levies on an opening value.
pub fn borrower_levies(opening: u64) -> Levies
    ensures { result ≡ borrower_levies opening }
{
    levies(BORROWER_DEPOSITORY, BORROWER_FUND, opening)
}

/// The bill of a loan with an accrual and an opening value.
pub fn bill(accrual: u64, opening: u64) -> Bill
    ensures { result ≡ bill_of accrual opening }
{
    let fee = fee(accrual);
    Bill {
        fee,
        lender: lender_levies(fee),
        borrower: borrower_levies(opening),
    }
}
