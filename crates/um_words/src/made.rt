//! Steps as they were made.

use crate::fine::FineAct;
use std::marker::Model;

/// What goes between a processor and a site in a step and isn't in the act. Contracts see it as an `Exchange`; no value of it exists at run
/// time.
pub struct Moved {
    nothing: (),
}

impl Model for Moved {
    ghost use Rattle.um_words.specs.Exchanges.{Exchange};

    ghost Value = { Exchange };

    ghost view = { λ moved. Exchange.nothing };
}

/// A step: its site, its act, the word that it leaves there, and what goes between processor and site. It is ghost data: no value of it
/// exists at run time.
pub struct Made {
    pub site: u16,
    pub act: FineAct,
    pub word: u64,
    pub moved: Moved,
}
