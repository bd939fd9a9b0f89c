//! Laws over every moment of a fine run, over the run of an order of processors, and over that of one processor.

ghost use Rattle.std.specs.Prelude.{◌≡◌, ℕ, List, Option};
ghost use Rattle.um_base.specs.declared.image.Image.{Image};
ghost use Rattle.um_invariants.specs.Described.{IsDescribed};
ghost use Rattle.um_fine.specs.{
  Erasure.{shown},
  FineRun.{IsFineRun},
  Processor.{Processor},
  Sites.{SiteState},
  Steps.{FineStep, Site},
};
ghost use Rattle.um_refinement.specs.{Choice.{AreChosen}, Room.{CanRun}, Shows.{AreCompleteRun, AreRun}};
ghost use Rattle.um_core.specs.{Moments.{AreAlike, AreSorted, MayStep}, PickedRun.{IsOver, IsPickedRun}};

use um_fine_measure::longest_fine_run;
use um_refinement::every_fine_run;

/// A processor has at most one next step of each kind: if each site keeps its sort, two steps of one kind that the same processor may make and
/// that their sites take are equal. Only a processor without a thread has steps of several kinds: it takes a thread, takes a mark, or lets time go
/// on.
pub fn every_moment()
    ensures { (image : Image) (p : Processor) (sites : Site → SiteState) → AreSorted sites
        → (e e2 : FineStep) → e.cpu ≡ e2.cpu → AreAlike e e2
        → MayStep image p sites e → MayStep image p sites e2 → e ≡ e2 }
{}

/// An image, a number of processors and a pick have one run in their order. It is a fine run; so, if a description gives the image, its
/// events are a run of the access-matrix machine. With one to eight processors, and no more domains in the image than there are words for,
/// that run is complete. Each of its steps is chosen.
pub fn every_order()
    ensures one { (image : Image) (cpus : ℕ) (pick : Option ℕ) (steps steps2 : List FineStep)
        → IsPickedRun image cpus pick steps → IsPickedRun image cpus pick steps2 → steps ≡ steps2 }
    ensures fine { (image : Image) (cpus : ℕ) (pick : Option ℕ) (steps : List FineStep)
        → IsPickedRun image cpus pick steps → IsFineRun image cpus steps }
    ensures chosen { (image : Image) (cpus : ℕ) (pick : Option ℕ) (steps : List FineStep)
        → IsPickedRun image cpus pick steps → AreChosen image cpus steps }
    ensures run { (image : Image) (cpus : ℕ) (pick : Option ℕ) (steps : List FineStep) → IsDescribed image
        → IsPickedRun image cpus pick steps → AreRun image (shown steps) }
    ensures complete { (image : Image) (cpus : ℕ) (pick : Option ℕ) (steps : List FineStep)
        → IsDescribed image → CanRun image cpus
        → IsPickedRun image cpus pick steps → AreCompleteRun image (shown steps) }
{
    every_fine_run();
    longest_fine_run();
}

/// On one processor there is one fine run of chosen steps behind which no step may follow: it is the run of every pick.
pub fn one_whole()
    ensures picked { (image : Image) (pick : Option ℕ) (steps : List FineStep)
        → IsFineRun image 1 steps → AreChosen image 1 steps → IsOver image 1 steps → IsPickedRun image 1 pick steps }
    ensures one { (image : Image) (steps steps2 : List FineStep)
        → IsFineRun image 1 steps → AreChosen image 1 steps → IsOver image 1 steps
        → IsFineRun image 1 steps2 → AreChosen image 1 steps2 → IsOver image 1 steps2
        → steps ≡ steps2 }
{}
