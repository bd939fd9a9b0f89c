//! Texts of runs.

ghost use Rattle.std.specs.Prelude.{◌≤◌, length};
ghost use Rattle.um_base.specs.{
  Lawful.{IsLawful},
  declared.image.Image.{Image},
  declared.limits.TheConstants.{STATIC_ROWS},
};
ghost use Rattle.um_texts.specs.Texts.{NamesItsRun};

/// The law over all runs of every image: two different runs from one image have different texts, so the bytes name the run.
///
/// That an image has no more objects than static rows is kept by the type of its list.
pub fn every_text()
    ensures names { (image : Image) → IsLawful image → length image.objects ≤ STATIC_ROWS → NamesItsRun image }
{}
