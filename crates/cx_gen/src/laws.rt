//! What holds of the image of a number.

ghost use Rattle.std.specs.Prelude.{◌≡◌, ℕ, ◌≤◌, ◌^◌, List, length, Ok};
ghost use Rattle.cx_live.specs.Reading.{image_of};
ghost use Rattle.cx_gen.specs.Made.{IsMade, made_image};

/// An input that is the text of the image of a number, and no longer than inputs may be, is read as this image.
pub fn made_images_read_back()
    ensures { (n : ℕ) (bytes : List ℕ) (made : IsMade n bytes) → length bytes ≤ 2 ^ 60
        → image_of bytes ≡ Ok (made_image n made.memory) }
{}
