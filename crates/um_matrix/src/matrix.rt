//! A state that a run leads to, and its steps.

ghost use Rattle.std.specs.Prelude.{◌≡◌, ◌<◌, IfOk, OnOk, OnErr, IfErr, MatchOption, IsTrue, false};
ghost use Rattle.um_base.specs.{Lawful.{IsLawful}, declared.act.{Act.{Act}, Event.{Event}}};

use crate::tables::{Choice, Tables};
use std::alloc::Global;
use std::marker::Model;
use um_base::{Event, Image, OutOfMemory, THREADS};

/// The event is no step of the machine from its present state.
#[derive(Clone, Copy, PartialEq, Eq)]
pub struct NotAStep;

/// A state of the machine to which a run leads from the opening of its image, which contracts see as the definitions have it.
#[derive(Drop)]
pub struct Matrix<'a> {
    tables: Tables<'a>,
}

impl<'a> Model for Matrix<'a> {
    ghost use Rattle.um_machine.specs.State.{State};
    ghost use Rattle.um_matrix.specs.OfRun.{IsOfRun};

    ghost Value = { State };

    ghost view = { λ m. m.tables };

    ghost invariant = { λ m. IsOfRun m.tables };
}

impl<'a> Matrix<'a> {
    ghost use Rattle.um_machine.specs.Run.{IsComplete, Runs, Step, opening};
    ghost use Rattle.um_matrix.specs.Offered.{IsChoice, IsNoStep, IsRefusedAt, IsStep, after_choice};

    /// The opening state of an image. All room is reserved here.
    pub fn boot(alloc: Global, image: &'a Image) -> Result<Matrix<'a>, OutOfMemory>
        requires lawful { IsLawful image.now }
        ensures { IfOk result (λ matrix. matrix ≡ opening image.now) }
    {
        let _objects = image.objects.len();
        let tables = Tables::boot(alloc, image)?;
        Ok(Matrix { tables })
    }

    /// The tables of the state.
    pub fn tables(&self) -> &Tables<'a>
        ensures { result.now ≡ self.now }
    {
        &self.tables
    }

    /// Makes what was chosen of an act. It takes no memory.
    pub fn make(&mut self, t: usize, choice: &Choice)
        requires thread { t < THREADS }
        requires chosen { (act : Act) × IsChoice self.old t act choice.now }
        ensures { self.new ≡ after_choice self.old t choice.now }
    {
        self.tables.make_choice(t, choice);
    }

    /// Makes an event, where it is a step. A refusal changes nothing, and no call takes memory.
    pub fn apply(&mut self, event: &Event) -> Result<(), NotAStep>
        ensures ok { OnOk result (Step self.old event.now self.new) }
        ensures refused { OnErr result (IsNoStep self.old event.now) }
        ensures same { OnErr result (self.new ≡ self.old) }
    {
        match self.tables.choice(event) {
            None => Err(NotAStep),
            Some(choice) => {
                self.make(event.thread.0 as usize, &choice);
                Ok(())
            }
        }
    }

    /// Makes the events of a list, each a step: or those before the first that is none, whose place it answers.
    #[tactic(auto, using(crate::proofs::RunLemmas::runs_more))]
    pub fn judge(&mut self, events: &[Event]) -> Result<(), usize>
        ensures ok { OnOk result (Runs self.old events.now self.new) }
        ensures refused { IfErr result (λ k. IsRefusedAt self.old events.now k self.new) }
    {
        for (k, event) in events.iter().enumerate() {
            match self.apply(event) {
                Ok(()) => {}
                Err(NotAStep) => return Err(k),
            }
        }
        Ok(())
    }

    /// Whether two states of one image are the same.
    pub fn is_same(&self, other: &Matrix) -> bool
        requires { self.now.image ≡ other.now.image }
        ensures { IsTrue result → self.now ≡ other.now }
    {
        self.tables.is_same(&other.tables)
    }

    /// Takes over another state of the same image. Where memory runs out, nothing is changed.
    pub fn set_to(&mut self, alloc: Global, other: &Matrix) -> Result<(), OutOfMemory>
        requires { self.old.image ≡ other.now.image }
        ensures ok { OnOk result (self.new ≡ other.now) }
        ensures same { OnErr result (self.new ≡ self.old) }
    {
        self.tables.set_to(alloc, &other.tables)
    }

    /// A number that the same states have in common. Others may have it too.
    pub fn digest(&self) -> u64 {
        self.tables.digest()
    }

    /// Makes later comparisons with this state cheaper: it looks for the last bytes of its memory that aren't 0.
    pub fn trim(&mut self)
        ensures { self.new ≡ self.old }
    {
        self.tables.trim();
    }

    /// An event that is a step, or none where no event is one.
    pub fn next_event(&self) -> Option<Event>
        ensures { MatchOption result (IsComplete self.now) (λ event. IsStep self.now event) }
    {
        self.tables.next_event()
    }

    /// Whether no event is a step.
    pub fn is_final(&self) -> bool
        ensures yes { IsTrue result → IsComplete self.now }
        ensures no { result ≡ false → (event : Event) × IsStep self.now event }
    {
        match self.next_event() {
            Some(_) => false,
            None => true,
        }
    }
}
