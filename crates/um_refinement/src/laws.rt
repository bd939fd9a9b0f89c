//! The law over every fine run.

ghost use Rattle.std.specs.Prelude.{ℕ, List};
ghost use Rattle.um_base.specs.declared.image.Image.{Image};
ghost use Rattle.um_machine.specs.{Run.{Runs, opening}, State.{State}};
ghost use Rattle.um_invariants.specs.Described.{IsDescribed};
ghost use Rattle.um_fine.specs.{Erasure.{shown}, FineRun.{IsFineRun}, Steps.{FineStep}};
ghost use Rattle.um_refinement.specs.{
  After.{left_by},
  Choice.{IsQuiet, NoneChosen},
  Relation.{Rel},
  Room.{CanCount, CanRun, IsHalted, IsStuck},
  Shows.{AreCompleteRun},
  Waits.{WaitsFor},
};

/// The law over every fine run of an image that a description gives, by any number of processors, whatever their order: the events
/// that it shows are a run of the access-matrix machine from the image's opening, and the state that this run leads to is related to what
/// the fine run leaves of processors and sites: memory, permissions, threads, domains, contents and pools are the same, but for what
/// processors have still to do.
/// If then no processor can make another step, the machine has none either, and the run is complete. This holds for one to eight processors
/// and for an image with no more domains than there are words for, if each site can count one more step and each domain one more version.
/// A processor without a thread may have several steps. Where none has one that is chosen (a ready thread first, then a mark that is due, and the
/// next deadline only where no thread runs), none has any. So it is where the scheduler's cell has nothing ready, running or owed.
/// There each processor waits: for a ready thread, if it has none; for a thread that another one holds; or for a domain that is claimed.
pub fn every_fine_run()
    ensures run { (image : Image) (cpus : ℕ) (steps : List FineStep) → IsDescribed image → IsFineRun image cpus steps
        → (last : State) × Runs (opening image) (shown steps) last × Rel (left_by image cpus steps) last }
    ensures complete { (image : Image) (cpus : ℕ) (steps : List FineStep) → IsDescribed image → CanRun image cpus → IsFineRun image cpus steps
        → IsStuck (left_by image cpus steps) → CanCount (left_by image cpus steps) → AreCompleteRun image (shown steps) }
    ensures chosen { (image : Image) (cpus : ℕ) (steps : List FineStep) → IsDescribed image → CanRun image cpus → IsFineRun image cpus steps
        → CanCount (left_by image cpus steps) → NoneChosen (left_by image cpus steps) → IsStuck (left_by image cpus steps) }
    ensures quiet { (image : Image) (cpus : ℕ) (steps : List FineStep) → IsDescribed image → IsFineRun image cpus steps
        → IsQuiet (left_by image cpus steps) → IsStuck (left_by image cpus steps) }
    ensures waits { (image : Image) (cpus : ℕ) (steps : List FineStep) → IsDescribed image → CanRun image cpus → IsFineRun image cpus steps
        → CanCount (left_by image cpus steps) → (k : ℕ) → IsHalted (left_by image cpus steps) k → WaitsFor (left_by image cpus steps) k }
{}
