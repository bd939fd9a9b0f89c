//! The objects that a processor has still to clean.

ghost use Rattle.std.specs.Prelude.{◌≡◌, ◌<◌, ◌≤◌, ◌++◌, ◌∷◌, [], drop, length, true, MatchOption};
ghost use Rattle.um_fine.specs.Places.{cleaning, cleaning_of, cleanings};
ghost use Rattle.um_processor.specs.Cleanings.{all_clean, behind_first, block_if, clean_todo};

use arrayvec::ArrayVec;
use std::default::Default;
use std::marker::Model;
use um_base::{Image, ROWS};
use um_steps::rows::thread_of_row;

/// How many objects there are at most: one more than there are dynamic rows, so that there is room even if each of them is queued.
pub const MOST: usize = 33;

/// An object that is gone, with its thread index where it is a thread object.
#[derive(Clone, Copy)]
pub struct Gone {
    pub row: u8,
    pub who: Option<u8>,
}

impl Default for Gone {
    fn default() -> Gone {
        Gone { row: 0, who: None }
    }
}

/// How far the cleaning of the first object is.
#[derive(Clone, Copy)]
pub enum CleanStage {
    /// The permissions of its thread from this row on, and all that comes after them.
    Empty(u8),
    Vacate,
    Recycle,
}

/// A step of cleaning, at a row.
#[derive(Clone, Copy)]
pub enum CleanStep {
    /// The permission of a thread that is gone is dropped.
    Pair { who: u8, row: u8 },
    Wipe(u8),
    Vacate(u8),
    Recycle(u8),
}

/// Objects to clean, in their order. Each is wholly cleaned before the next.
#[derive(Drop)]
pub struct Cleaning {
    gone: ArrayVec<Gone, MOST>,
    stage: CleanStage,
}

impl Model for Cleaning {
    ghost use Rattle.um_fine.specs.Places.{Todos};
    ghost use Rattle.um_processor.specs.Cleanings.{queued};

    ghost Value = { Todos };

    ghost view = { λ c. queued c.stage c.gone.items };
}

impl Cleaning {
    /// No object.
    pub fn new() -> Cleaning
        ensures { result ≡ [] }
    {
        Cleaning {
            gone: ArrayVec::new(),
            stage: CleanStage::Empty(0),
        }
    }

    /// Forgets all objects.
    pub fn clear(&mut self)
        ensures { self.new ≡ [] }
    {
        self.gone.clear();
    }

    /// How many objects are still to be recycled.
    #[tactic(auto, using(crate::proofs::Cleaned::counted))]
    pub fn len(&self) -> usize
        ensures { result ≡ cleanings self.now }
    {
        self.gone.len()
    }

    /// The next step.
    pub fn next(&self) -> Option<CleanStep>
        ensures { MatchOption result (self.now ≡ []) (λ step. self.now ≡ clean_todo step ∷ drop 1 self.now) }
    {
        let gone = match self.gone.as_slice().first() {
            None => return None,
            Some(gone) => *gone,
        };
        let step = match self.stage {
            CleanStage::Empty(row) => match gone.who {
                Some(who) => {
                    if (row as usize) < ROWS {
                        CleanStep::Pair { who, row }
                    } else {
                        CleanStep::Wipe(gone.row)
                    }
                }
                None => CleanStep::Wipe(gone.row),
            },
            CleanStage::Vacate => CleanStep::Vacate(gone.row),
            CleanStage::Recycle => CleanStep::Recycle(gone.row),
        };
        Some(step)
    }

    /// Goes on after the next step.
    #[tactic(auto, using(crate::proofs::Cleaned::queued_clean))]
    pub fn advance(&mut self)
        ensures rest { self.new ≡ behind_first self.old }
        ensures clean { all_clean self.new ≡ true }
    {
        match self.next() {
            None => {}
            Some(CleanStep::Pair { row, .. }) => self.stage = CleanStage::Empty(row + 1),
            Some(CleanStep::Wipe(_)) => self.stage = CleanStage::Vacate,
            Some(CleanStep::Vacate(_)) => self.stage = CleanStage::Recycle,
            Some(CleanStep::Recycle(_)) => {
                self.gone.remove(0);
                self.stage = CleanStage::Empty(0);
            }
        }
    }

    /// Adds an object, with its thread index if it is a thread object.
    #[tactic(auto, using(crate::proofs::Cleaned::counted, crate::proofs::Cleaned::one_more, crate::proofs::Cleaned::first_one))]
    pub fn push(&mut self, row: u8, who: Option<u8>)
        requires { cleanings self.old < MOST }
        ensures { self.new ≡ self.old ++ cleaning_of row who }
    {
        if self.gone.is_empty() {
            self.stage = CleanStage::Empty(0);
            self.gone.push(Gone { row, who });
            return;
        }
        self.gone.push(Gone { row, who });
    }

    /// Adds the object of a row.
    pub fn take_in(&mut self, image: &Image, row: u8)
        requires { cleanings self.old < MOST }
        ensures { self.new ≡ self.old ++ cleaning image.now row }
    {
        let who = match thread_of_row(image, row as usize) {
            Some(who) => Some(who as u8),
            None => None,
        };
        self.push(row, who);
    }

    /// The same, if the row came to cleaning.
    pub fn take_in_if(&mut self, image: &Image, row: u8, cleans: bool)
        requires { cleanings self.old < MOST }
        ensures { self.new ≡ self.old ++ block_if image.now row cleans }
    {
        if cleans {
            self.take_in(image, row);
        }
    }
}
