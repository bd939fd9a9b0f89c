//! Printing an image as a description.

ghost use Rattle.std.specs.Prelude.{◌≡◌, List, ℕ, IfOk};
ghost use Rattle.um_base.specs.declared.image.Image.{Image};
ghost use Rattle.um_canonical.specs.Text.{printed_text};
ghost use Rattle.um_image.specs.Meaning.{Describes};

use std::alloc::Global;
use um_base::{Image, OutOfMemory};
use um_canonical::put_image;

#[cfg(test)]
mod tests;

/// The canonical description of an image, in version 2. Where a text describes the image, so does this one, and
/// printing what it describes gives the same bytes.
///
/// # Errors
///
/// Memory ran out.
pub fn print_image(alloc: Global, image: &Image) -> Result<Vec<u8>, OutOfMemory>
    ensures text { IfOk result (λ text. text.items ≡ printed_text image.now) }
    ensures law { IfOk result (λ text. (source : List ℕ) → Describes source image.now → Describes text.items image.now) }
    ensures twice { IfOk result (λ text. (source : List ℕ) (again : Image) → Describes source image.now → Describes text.items again → printed_text again ≡ text.items) }
{
    let mut text = Vec::new(alloc);
    put_image(alloc, &mut text, image)?;
    Ok(text)
}
