//! The text of an image reads back as the image.

ghost use Rattle.input_defs.specs.ImageReading.{image_from};
ghost use Rattle.asm_defs.specs.ImageText.{image_text};
ghost use Rattle.nook_data.specs.Valid.{IsValidImage};
ghost use Rattle.nook_data.specs.declared.scenario.Image.{Image};
ghost use Rattle.std.specs.Prelude.{Ok, ◌≡◌};

/// The JSON text written for a valid image, with its line feed, is read as that image.
pub fn image_text_comes_back()
    ensures { (image : Image) → IsValidImage image → image_from (image_text image) ≡ Ok image }
{}
