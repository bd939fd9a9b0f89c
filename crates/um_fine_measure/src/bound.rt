//! How long fine runs are.

ghost use Rattle.std.specs.Prelude.{◌≡◌, ◌≤◌, ℕ, List, length};
ghost use Rattle.um_base.specs.{declared.image.Image.{Image}, Lawful.{IsLawful}, Weight.{weight}};
ghost use Rattle.um_invariants.specs.Described.{IsDescribed};
ghost use Rattle.um_fine.specs.{FineRun.{IsFineRun}, Processor.{idle}, Steps.{FineStep}};
ghost use Rattle.um_fine_measure.specs.{Falls.{Falls, Opens, WholeFalls}, Measure.{MOST_CPUS, processor_cost}};

use um_refinement::every_fine_run;

/// What processors and sites have left falls with each fine step, and is at most the weight of the image at the opening. Some of it is no
/// processor's and no site's: what all have left together, of suspended threads that may still sleep, and of sleepers that are to be roused.
///
/// - A processor without a thread has nothing left. At the opening of a lawful image the scheduler has the weight left at
///   most, no other site has anything, and all together have nothing.
/// - A lawful step of a processor that may make it lowers what the processor and its site have left, by one at least, but for what it adds
///   to what all have left together, and takes of that.
/// - What all have left together falls by what such a step takes of it, but for what it adds, where the relation with the access-matrix
///   machine holds and there are at most eight processors.
pub fn every_fine_step()
    ensures idle { (image : Image) → processor_cost image idle ≡ 0 }
    ensures opens { (image : Image) → IsLawful image → Opens image }
    ensures falls { (image : Image) → IsLawful image → Falls image }
    ensures whole { WholeFalls }
{}

/// No fine run of an image that a description gives has more steps than the weight of the image, by at most eight processors and whatever
/// their order. Steps of every kind count, also those that no trace shows and those that only look.
pub fn longest_fine_run()
    ensures { (image : Image) (cpus : ℕ) (steps : List FineStep) → IsDescribed image → cpus ≤ MOST_CPUS → IsFineRun image cpus steps → length steps ≤ weight image }
{
    every_fine_run();
}
