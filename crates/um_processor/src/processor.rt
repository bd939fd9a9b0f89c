//! A processor.

mod calls;
mod cleans;
mod events;
mod steps;

ghost use Rattle.std.specs.Prelude.{◌≡◌, ◌≢◌, [], false, true, IfOk};
ghost use Rattle.um_fine.specs.Processor.{idle};
ghost use Rattle.um_processor.specs.Standing.{whole};

use crate::cleaning::Cleaning;
use crate::running::Running;
use arrayvec::ArrayVec;
use std::alloc::Global;
use um_base::OutOfMemory;
use um_service::Outcome;

/// A processor: its thread, and what it has to do before the thread's next step.
#[derive(Drop)]
pub struct Processor {
    running: Running,
    /// The objects that are to be cleaned.
    cleans: Cleaning,
    /// The rows whose claims end.
    ends: ArrayVec<u8, 2>,
    /// What came of a call's work, with the threads that are to be woken.
    outcome: Outcome,
    /// How many of the woken threads were told.
    told: usize,
}

impl Processor {
    /// Makes a processor without a thread, with all the room that it will ever need.
    pub fn new(alloc: Global) -> Result<Processor, OutOfMemory>
        ensures { IfOk result (λ p. whole p ≡ idle) }
    {
        Ok(Processor {
            running: Running::new(alloc)?,
            cleans: Cleaning::new(),
            ends: ArrayVec::new(),
            outcome: Outcome::new(),
            told: 0,
        })
    }

    /// Whether it has no thread. Then it also has nothing to clean, no claim to end and nobody to wake.
    #[tactic(auto, using(crate::proofs::Standings::none_idle, crate::proofs::Standings::some_busy))]
    pub fn is_idle(&self) -> bool
        ensures idle { result ≡ true → (whole self.now).todo ≡ [] }
        ensures busy { result ≡ false → (whole self.now).todo ≢ [] }
    {
        self.running.is_idle()
    }
}
