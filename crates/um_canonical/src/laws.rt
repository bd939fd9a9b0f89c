//! The laws over every text.

ghost use Rattle.std.specs.Prelude.{◌≡◌, [], List, ℕ, Ok};
ghost use Rattle.um_document.specs.{declared.description.Description.{Description}, Faults.{ReadsDocument}};
ghost use Rattle.um_description.specs.{Flaws.{flaws, meaning}, Resolve.{image_of}};
ghost use Rattle.um_canonical.specs.Text.{described, printed_text};

/// Where a text describes an image, the text that is printed for that image is read as a description, and that
/// description means the same image.
pub fn every_image()
    ensures reads { (source : List ℕ) (d : Description) → ReadsDocument (Ok d) source → flaws d ≡ [] → ReadsDocument (Ok (described (image_of d))) (printed_text (image_of d)) }
    ensures means { (d : Description) → flaws d ≡ [] → meaning (described (image_of d)) ≡ Ok (image_of d) }
{}
