//! Which step may come next on a board whose seats are those of processors.

use um_words::Local;

/// The rule by which each processor makes only the steps that it asks for, one after another.
pub struct NextStep;

impl Local for NextStep {
    ghost use Rattle.um_board.specs.NextSteps.{NextGoes};

    ghost goes = { NextGoes };
}
