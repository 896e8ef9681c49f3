//! What a movement register keeps.
ghost use Rattle.std.specs.Prelude.{◌≡◌, ◌*◌, length};
ghost use Rattle.image.specs.View.{image_of};
ghost use Rattle.movement.specs.Moved.{FreeSettled, ReservedSettled};
ghost use Rattle.movement.specs.Opening.{Acceptable};

use crate::numbers::Movement;
use image::Image;

/// A register over an opening that it only reads. For each line of the opening, account by account, it keeps the movement of the
/// line's numbers since then.
#[derive(Drop)]
pub struct MovementRegister<'a> {
    pub(crate) opening: Image<'a>,
    pub(crate) movements: Vec<Movement>,
    ghost acceptable: { Acceptable (image_of opening) },
    ghost len: { length movements.items ≡ (image_of opening).accounts * (image_of opening).securities },
    ghost free: { FreeSettled (image_of opening) (image_of opening).accounts (image_of opening).securities movements.items },
    ghost reserved: { ReservedSettled (image_of opening) (image_of opening).accounts (image_of opening).securities movements.items },
}
