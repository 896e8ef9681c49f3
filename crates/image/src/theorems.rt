//! The theorem on images, as the contract of a function that does nothing else.
ghost use Rattle.image.specs.Theorems.{ImagesPinned};

/// An image is its holdings and what lies beyond, so a register's promises tell every byte.
pub fn images_are_pinned()
    ensures { ImagesPinned }
{}
