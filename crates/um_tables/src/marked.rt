//! A mark in the clock's cell.

ghost use Rattle.std.specs.Prelude.{◌≡◌, ◌==◌, ◌&&◌, false, true};
ghost use Rattle.um_fine.specs.Clock.{is_due, is_unsettled, same_mark};

use std::marker::Model;
use um_words::Mark;

/// A mark: it is settled once its wait, or its timer's start, was made, and given at most once.
#[derive(Drop)]
pub struct Marked {
    deadline: u64,
    mark: Mark,
    is_settled: bool,
    is_given: bool,
}

impl Model for Marked {
    ghost use Rattle.um_fine.specs.Clock.{Marked as Contents};

    ghost Value = { Contents };

    ghost view = { λ m. record {
      deadline = m.deadline;
      mark = m.mark;
      settled = m.is_settled;
      given = m.is_given;
    } };
}

/// Whether two marks are for the same thread in the same cell, or for the same timer.
fn same_mark(a: Mark, b: Mark) -> bool
    ensures { result ≡ same_mark a b }
{
    match a {
        Mark::Thread { who, site } => match b {
            Mark::Thread {
                who: other,
                site: there,
            } => who.0 == other.0 && site == there,
            Mark::Timer(_) => false,
        },
        Mark::Timer(row) => match b {
            Mark::Thread { .. } => false,
            Mark::Timer(other) => row.0 == other.0,
        },
    }
}

impl Marked {
    /// A mark that was armed just now.
    pub fn new(deadline: u64, mark: Mark) -> Marked
        ensures { result ≡ record { deadline = deadline; mark = mark; settled = false; given = false } }
    {
        Marked {
            deadline,
            mark,
            is_settled: false,
            is_given: false,
        }
    }

    pub fn deadline(&self) -> u64
        ensures { result ≡ self.now.deadline }
    {
        self.deadline
    }

    pub fn mark(&self) -> Mark
        ensures { result ≡ self.now.mark }
    {
        self.mark
    }

    /// Whether it is to be given.
    pub fn is_due(&self, now: u64) -> bool
        ensures { result ≡ is_due now self.now }
    {
        self.deadline <= now && self.is_settled && !self.is_given
    }

    /// Whether it is one with this deadline and mark that isn't settled.
    pub fn is_unsettled(&self, deadline: u64, mark: Mark) -> bool
        ensures { result ≡ is_unsettled deadline mark self.now }
    {
        !self.is_settled && self.deadline == deadline && same_mark(self.mark, mark)
    }

    pub fn settle(&mut self)
        ensures { self.new ≡ record self.old { settled = true } }
    {
        self.is_settled = true;
    }

    pub fn give(&mut self)
        ensures { self.new ≡ record self.old { given = true } }
    {
        self.is_given = true;
    }
}
