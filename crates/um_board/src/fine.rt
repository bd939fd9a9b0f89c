//! Fine steps as ghost data.

use std::marker::{Brand, PhantomData};
use um_site::Step;

/// A fine step, as ghost data. The proof picks it at the call whose type argument is `Brand`.
pub trait Fine {
    ghost use Rattle.um_fine.specs.Steps.{FineStep};

    ghost step: { FineStep };
}

impl Fine for Brand {
    ghost use Rattle.um_words.specs.declared.fine.{FineAct.{FineAct}, Unseen.{Unseen}};
    ghost use Rattle.um_fine.specs.{Answers.{no_row}, Steps.{Exchange, FineStep, Site, Word}};

    ghost step = { record {
      cpu = 0;
      site = Site.row 0;
      act = FineAct.Unseen Unseen.Done;
      word = Word.row no_row;
      moved = Exchange.nothing;
    } };
}

/// The same step as a board records it.
pub struct AsMade<D> {
    step: PhantomData<D>,
}

impl<D: Fine> Step for AsMade<D> {
    ghost use Rattle.um_board.specs.Noted.{made_of};

    ghost made = { made_of D.step };
}
