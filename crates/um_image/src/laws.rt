//! The laws over every text.

ghost use Rattle.std.specs.Prelude.{◌≡◌, List, ℕ};
ghost use Rattle.um_base.specs.declared.image.Image.{Image};
ghost use Rattle.um_document.specs.declared.fault.{ImageFault.{ImageFault}, ImageFault.TheVariants.{Memory}};
ghost use Rattle.um_image.specs.Meaning.{Describes, Refuses, IsRead};

/// Every text is an image or exactly one fault, whose kind isn't want of memory.
pub fn every_text()
    ensures read { (text : List ℕ) → IsRead text }
    ensures one_image { (text : List ℕ) (image other : Image) → Describes text image → Describes text other → image ≡ other }
    ensures one_fault { (text : List ℕ) (fault other : ImageFault) → Refuses text fault → Refuses text other → fault ≡ other }
    ensures never_both { (text : List ℕ) (image : Image) (fault : ImageFault) → Describes text image → ¬ Refuses text fault }
    ensures never_memory { (text : List ℕ) (fault : ImageFault) → Refuses text fault → ¬ (fault ≡ Memory) }
{}
