//! What holds of the spelling of images.

ghost use Rattle.std.specs.Prelude.{◌≡◌, [], Ok};
ghost use Rattle.cx_codec.specs.Place.{Place, Takes};
ghost use Rattle.cx_live.specs.Image.{Image, IsImage};
ghost use Rattle.cx_live.specs.Reading.{image_at, whole_image_at};
ghost use Rattle.cx_live.specs.Text.{image_text};

/// An image that keeps the rules is read back from its text, whatever stands behind it; and where nothing does, it is
/// what the input is.
pub fn images_read_back()
    ensures again { (image : Image) (p after : Place) → IsImage image → Takes p (image_text image) after
        → image_at p ≡ Ok (image, after) }
    ensures whole { (image : Image) (p after : Place) → IsImage image → Takes p (image_text image) after
        → after.ahead ≡ [] → whole_image_at p ≡ Ok (image, after) }
{}
