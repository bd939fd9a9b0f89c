//! The law over the state that is read off the sites.

ghost use Rattle.std.specs.Prelude.{◌≡◌, ◌<◌, ◌≤◌, ℕ, IsTrue, List, length};
ghost use Rattle.um_base.specs.declared.{image.Image.{Image}, limits.TheConstants.{DOMAINS, THREADS}};
ghost use Rattle.um_machine.specs.{Run.{IsComplete, Runs, opening}, State.{State, thread_at}};
ghost use Rattle.um_invariants.specs.Described.{IsDescribed};
ghost use Rattle.um_fine.specs.{
  Erasure.{shown},
  FineRun.{IsFineRun},
  Sites.{SiteState, is_site},
  Steps.{FineStep, Site},
};
ghost use Rattle.um_refinement.specs.{After.{left_by}, Relation.{Rel}, Room.{CanCount, CanRun, IsStuck}};
ghost use Rattle.um_closing.specs.{
  Agreement.{AgreeInDump},
  Idle.{AreIdle, IsAdded, KnowsPriorities},
  ReadOff.{closing_state, priority_there, read_off},
};

/// The law over the state that is read off the sites after a fine run of an image that a description gives.
///
/// - `agrees`: if no processor has a step left, and the scheduler's cell has the priorities of the threads that were
///   started, the state read off agrees with the machine's last state in all that a dump reads.
/// - `notes`: the priority noted there for a thread is the machine's, unless a processor has still to add the thread.
/// - `closes`: so if no processor has a step left, the state read off agrees with the machine's last state.
/// - `complete`: that is so where no processor can make another step, and then the run is complete. This holds for one
///   to eight processors and for an image with no more domains than there are words for, if each site can count one
///   more step and each domain one more version.
/// - `same`: where the same stands at every site that there is, the same state is read off.
pub fn every_closing()
    ensures agrees { (image : Image) (cpus : ℕ) (steps : List FineStep) (last : State)
        → IsDescribed image → IsFineRun image cpus steps → Runs (opening image) (shown steps) last
        → Rel (left_by image cpus steps) last → AreIdle (left_by image cpus steps)
        → KnowsPriorities last (priority_there (left_by image cpus steps).sites)
        → AgreeInDump image (closing_state image cpus steps) last }
    ensures notes { (image : Image) (cpus : ℕ) (steps : List FineStep) → IsDescribed image
        → IsFineRun image cpus steps
        → (last : State) × Runs (opening image) (shown steps) last × Rel (left_by image cpus steps) last
        × ((t : ℕ) → t < THREADS → IsAdded (left_by image cpus steps) t
        → priority_there (left_by image cpus steps).sites t ≡ (thread_at last t).priority) }
    ensures closes { (image : Image) (cpus : ℕ) (steps : List FineStep) → IsDescribed image
        → IsFineRun image cpus steps → AreIdle (left_by image cpus steps)
        → (last : State) × Runs (opening image) (shown steps) last × Rel (left_by image cpus steps) last
        × AgreeInDump image (closing_state image cpus steps) last }
    ensures complete { (image : Image) (cpus : ℕ) (steps : List FineStep) → IsDescribed image
        → CanRun image cpus → IsFineRun image cpus steps
        → IsStuck (left_by image cpus steps) → CanCount (left_by image cpus steps)
        → (last : State) × Runs (opening image) (shown steps) last × IsComplete last
        × AgreeInDump image (closing_state image cpus steps) last }
    ensures same { (image : Image) (sites sites2 : Site → SiteState) → length image.domains ≤ DOMAINS
        → ((i : Site) → IsTrue (is_site i) → sites i ≡ sites2 i)
        → read_off image sites ≡ read_off image sites2 }
{}
