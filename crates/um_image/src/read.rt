//! Reading a description.

ghost use Rattle.std.specs.Prelude.{◌≡◌, IfOk, IfErr};
ghost use Rattle.um_base.specs.Lawful.{IsLawful};
ghost use Rattle.um_document.specs.declared.fault.ImageFault.TheVariants.{Memory};
ghost use Rattle.um_image.specs.Meaning.{Describes, Refuses};

use std::alloc::Global;
use um_base::Image;
use um_description::{fault_of, meaning};
use um_document::{ImageFault, read_document};

#[cfg(test)]
mod tests;

/// Reads a description: the image that a text describes, laid out in memory.
///
/// # Errors
///
/// The fault that the text is refused with, the first that it has: of its form, and then of what it describes.
/// `Memory` where memory ran out, which says nothing of the text.
pub fn read_image(alloc: Global, text: &[u8]) -> Result<Image, ImageFault>
    ensures ok { IfOk result (λ image. Describes text.now image) }
    ensures lawful { IfOk result (λ image. IsLawful image) }
    ensures refused { IfErr result (λ fault. ¬ (fault ≡ Memory) → Refuses text.now fault) }
{
    let description = read_document(alloc, text)?;
    match meaning(alloc, &description)? {
        Ok(image) => Ok(image),
        Err(flaw) => Err(fault_of(alloc, flaw)?),
    }
}
