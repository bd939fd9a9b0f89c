//! What a seat knows after each kind of move.

use crate::view::View;
use atomic_table::{Join, Play, Split};
use std::marker::{Brand, PhantomData};
use um_words::{Content, Local};

/// The step that an exchange records, as ghost data. The proof picks it at the call whose type argument is `Brand`.
pub trait Step {
    ghost use Rattle.um_words.specs.declared.made.Made.{Made};

    ghost made: { Made };
}

impl Step for Brand {
    ghost use Rattle.um_words.specs.{
      declared.fine.FineAct.{FineAct},
      declared.fine.Unseen.{Unseen},
      Exchanges.{Exchange},
    };

    ghost made = { record {
      site = 0;
      act = FineAct.Unseen Unseen.Done;
      word = 0;
      moved = Exchange.nothing;
    } };
}

/// A look at a word.
pub struct Look<L> {
    local: PhantomData<L>,
}

impl<T: Content, L: Local> Play<Option<T>, View> for Look<L> {
    ghost use Rattle.um_site.specs.Tells.{looked};

    ghost then = { looked T.opens T.follows L.goes };
}

/// An exchange of a word: it makes the step, or sees the word that stands there.
pub struct Exchange<L, D> {
    local: PhantomData<L>,
    step: PhantomData<D>,
}

impl<T, L: Local, D: Step> Play<Option<T>, View> for Exchange<L, D> {
    ghost use Rattle.um_site.specs.Tells.{stepped_by};

    ghost then = { stepped_by L.goes D.made };
}

/// Takes the turn of a cell, or sees that another seat has it.
pub struct Take<L> {
    local: PhantomData<L>,
}

impl<T: Content, L: Local> Play<Option<T>, View> for Take<L> {
    ghost use Rattle.um_site.specs.Tells.{took};

    ghost then = { took T.opens T.follows L.goes };
}

/// Takes the turn of a cell that has no step yet, by the only seat.
pub struct Reach;

impl<T> Play<Option<T>, View> for Reach {
    ghost use Rattle.um_site.specs.Tells.{reached};

    ghost then = { reached };
}

/// Records a step of a cell and gives the turn back.
pub struct Record<L, D> {
    local: PhantomData<L>,
    step: PhantomData<D>,
}

impl<T: Content, L: Local, D: Step> Play<Option<T>, View> for Record<L, D> {
    ghost use Rattle.um_site.specs.Tells.{recorded_by};

    ghost then = { recorded_by T.opens T.follows L.goes D.made };
}

/// Gives a turn back.
pub struct Return;

impl<T> Play<Option<T>, View> for Return {
    ghost use Rattle.um_site.specs.Tells.{returned};

    ghost then = { λ st me. returned me.0.filled st me };
}

/// Gives back the turn of a cell that was filled in it.
pub struct Fill;

impl<T> Play<Option<T>, View> for Fill {
    ghost use Rattle.std.specs.Prelude.{◌∷◌};
    ghost use Rattle.um_site.specs.Tells.{returned};

    ghost then = { λ st me. returned (st.word ∷ me.0.filled) st me };
}

/// Splits a seat off, or joins it.
pub struct Fork;

impl Split<View> for Fork {
    ghost use Rattle.um_site.specs.History.{splitter, newborn};

    ghost left = { splitter };

    ghost right = { newborn };
}

impl Join<View> for Fork {
    ghost use Rattle.um_site.specs.History.{joiner, spent};

    ghost both = { joiner };

    ghost spent = { spent };
}

/// Copies what a seat knows to one that isn't in use, which a closed board keeps.
pub struct Shadow;

impl Split<View> for Shadow {
    ghost use Rattle.um_site.specs.History.{shadow_of};

    ghost left = { λ v. v };

    ghost right = { shadow_of };
}
