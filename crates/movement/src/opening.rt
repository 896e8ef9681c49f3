//! Whether an opening can be taken.
ghost use Rattle.std.specs.Prelude.{Decides};
ghost use Rattle.image.specs.View.{image_of};
ghost use Rattle.movement.specs.Opening.{Acceptable, AccountFits, Opened};

use image::Image;
use register::CAP;

/// The most accounts that a movement register takes.
pub const MAX_ACCOUNTS: usize = 64;

/// The most securities that a movement register takes.
pub const MAX_SECURITIES: usize = 16;

// Whether no number of the account is over the cap.
fn account_fits(opening: Image, account: usize) -> bool
    ensures { Decides result (AccountFits (image_of opening.entry) account) }
{
    (0..opening.securities()).all(|security| {
        opening.free(account, security) <= CAP && opening.reserved(account, security) <= CAP
    })
}

// Whether the opening has few enough accounts and securities, and no number over the cap.
fn acceptable(opening: Image) -> bool
    ensures { Decides result (Acceptable (image_of opening.entry)) }
{
    if opening.accounts() > MAX_ACCOUNTS || opening.securities() > MAX_SECURITIES {
        return false;
    }
    (0..opening.accounts()).all(|account| account_fits(opening, account))
}

// The opening where it is acceptable, and otherwise one with no lines.
pub(crate) fn taken(opening: Image) -> Image
    ensures opened { Opened (image_of opening.entry) (image_of result) }
    ensures acceptable { Acceptable (image_of result) }
{
    if acceptable(opening) {
        opening
    } else {
        Image::new(&[])
    }
}
