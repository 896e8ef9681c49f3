//! The register that a book is started on.
ghost use Rattle.std.specs.Prelude.{◌≡◌, IfOk};
ghost use Rattle.desk.specs.Day.{zeros as zero_holdings};
ghost use Rattle.image.specs.Image.{imaged};

use std::alloc::{AllocError, Global};

const ACCOUNTS: u8 = 64;

const SECURITIES: u8 = 16;

const SIZE: usize = 16_388;

// An image of 64 accounts and 16 securities with no share on any line.
pub(crate) fn zero_image(heap: Global) -> Result<Vec<u8>, AllocError>
    ensures { IfOk result (λ v. imaged v.items ≡ zero_holdings) }
{
    let mut bytes = vec![in heap; 0u8; SIZE]?;
    bytes[1] = ACCOUNTS;
    bytes[3] = SECURITIES;
    Ok(bytes)
}
