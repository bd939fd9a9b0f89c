//! The law over fine runs by one processor.

ghost use Rattle.std.specs.Prelude.{ℕ, List};
ghost use Rattle.um_base.specs.declared.image.Image.{Image};
ghost use Rattle.um_invariants.specs.{Described.{IsDescribed}, InOrder.{IsInOrder}};
ghost use Rattle.um_fine.specs.{Erasure.{shown}, FineRun.{IsFineRun}, Steps.{FineStep}};
ghost use Rattle.um_refinement.specs.Choice.{AreChosen};

/// The events that a fine run by one processor shows are in order, if each of its steps is chosen: a thread that is ready comes first, then a mark
/// that is due, and the next deadline only where neither is.
pub fn one_order()
    ensures { (image : Image) (steps : List FineStep) → IsDescribed image → IsFineRun image 1 steps → AreChosen image 1 steps
        → IsInOrder image (shown steps) }
{}
