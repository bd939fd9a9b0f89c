//! Which step an act is, by the steps that its thread is offered.

ghost use Rattle.std.specs.Prelude.{◌≡◌, ◌<◌, slice_get, IfSome, IfNone, IsTrue, Some, None, ℕ, length};
ghost use Rattle.um_machine.specs.{Limits.{IsSound}, declared.pending.Pending.{Pending}};
ghost use Rattle.um_matrix.specs.Offered.{rest_choice, row_count, is_skipped, is_tending, tending_of};

use crate::tables::Tables;
use crate::tables::checks::none_set;
use um_base::{Act, Event, FUTEX_CELL, ROWS, THREADS};
use um_machine::places::instruction_at;
use um_machine::{Life, Pending, Place};
use um_steps::same::same_act;
use um_steps::waits::{is_ending, may_go, must_stop};

/// What is made of an act that is a step.
#[derive(Clone, Copy)]
pub enum Choice {
    /// The thread begins the line of its place.
    Begins,
    /// The thread exits after its last line.
    Exits,
    /// The thread makes this step with this row. `taken` of its pending steps are over then.
    Makes {
        step: Pending,
        row: usize,
        taken: usize,
    },
    /// The thread ends since it was aborted.
    Stops,
    /// The thread, which ends, tells those who wait for it.
    Leaves,
    /// The thread makes this step, which isn't of its instruction, with this row or cell.
    Tends {
        step: Pending,
        row: usize,
    },
}

/// How many rows are tried for a step, or how many cells.
fn row_count(step: &Pending) -> usize
    ensures { result ≡ row_count step.now }
{
    match step {
        Pending::Inherit { .. }
        | Pending::Drops { .. }
        | Pending::Reserve { .. }
        | Pending::CleanPair { .. }
        | Pending::Recycle
        | Pending::Expire => ROWS,
        Pending::TimeOut { .. } | Pending::Cut { .. } => FUTEX_CELL + 1,
        Pending::Join { .. } => 2,
        _ => 1,
    }
}

/// The step that tends and says an act, if there is one.
fn tending_of(act: &Act) -> Option<Pending>
    ensures value { result ≡ tending_of act.now }
    ensures tends { IfSome result (λ step. IsTrue (is_tending step)) }
    ensures sound { IfSome result IsSound }
{
    match act {
        Act::DropPair { who, .. } => Some(Pending::CleanPair { who: *who }),
        Act::Recycle { .. } => Some(Pending::Recycle),
        Act::Tick { .. } => Some(Pending::Tick),
        Act::TimedOut { who } => Some(Pending::TimeOut { who: *who }),
        Act::Expire { .. } => Some(Pending::Expire),
        Act::Cut { who } => Some(Pending::Cut { who: *who }),
        _ => None,
    }
}

impl Choice {
    /// What is made of the act of a thread at rest.
    pub fn at_rest(act: &Act) -> Choice
        ensures { result ≡ rest_choice act.now }
    {
        match act {
            Act::Exit => Choice::Exits,
            Act::Killed => Choice::Stops,
            _ => Choice::Begins,
        }
    }
}

/// Whether a step may be left out where nothing is due.
fn is_skipped(step: Option<Pending>) -> bool
    ensures { result ≡ is_skipped step }
{
    match step {
        Some(Pending::Inherit { .. }) | Some(Pending::Drops { .. }) => true,
        _ => false,
    }
}

impl<'a> Tables<'a> {
    ghost use Rattle.um_machine.specs.{Joins.{is_ending}, Run.{MayChoose}, State.{State, instruction_at, thread_at, is_started}, Table.{act_of}};
    ghost use Rattle.um_matrix.specs.Offered.{IsNoStep, IsChoice, SaysNot, first_step, second_step, rest_step, rest_act, line_act};

    /// The next step of a thread's instruction.
    pub fn next_step(&self, t: usize) -> Option<Pending>
        requires { t < THREADS }
        ensures value { result ≡ slice_get (thread_at self.now t).pending 0 }
        ensures sound { IfSome result IsSound }
    {
        self.threads[t].pending.first()
    }

    /// The step after an inheritance or the drops of an end, where nothing is due.
    pub fn second_step(&self, t: usize) -> Option<Pending>
        requires { t < THREADS }
        ensures value { result ≡ second_step self.now t }
        ensures sound { IfSome result IsSound }
    {
        let thread = &self.threads[t];
        if is_skipped(thread.pending.first()) && none_set(&thread.due) {
            thread.pending.second()
        } else {
            None
        }
    }

    /// How many rows are tried for a step, or how many cells: all that there are, where it chooses one.
    pub fn row_count(&self, step: &Pending) -> usize
        ensures value { result ≡ row_count step.now }
        ensures objects { length self.now.objects ≡ ROWS }
        ensures pairs { length self.now.pairs ≡ ROWS }
    {
        let _pairs = self.pairs.len();
        row_count(step)
    }

    /// What a thread at rest says next.
    pub fn rest_act(&self, t: usize) -> Option<Act>
        requires { t < THREADS }
        ensures { result ≡ rest_act self.now t }
    {
        let thread = &self.threads[t];
        if thread.life != Life::Living {
            return None;
        }
        if may_go(thread) {
            return Some(self.line_act(thread.place));
        }
        if must_stop(thread) {
            Some(Act::Killed)
        } else {
            None
        }
    }

    /// What a thread says that goes on at a place.
    fn line_act(&self, place: Place) -> Act
        ensures { result ≡ line_act place (instruction_at self.now.image place) }
    {
        match instruction_at(self.image, place) {
            Some(_) => Act::Begin {
                script: place.script,
                line: place.line + 1,
            },
            None => Act::Exit,
        }
    }

    /// The row with which a step is this act.
    pub(crate) fn row_for(&self, t: usize, step: &Pending, act: &Act) -> Option<usize>
        requires thread { t < THREADS }
        requires sound { IsSound step.now }
        ensures inside { IfSome result (λ x. x < row_count step.now) }
        ensures found { IfSome result
            (λ x. MayChoose self.now t x step.now × (act.now ≡ act_of self.now t x step.now)) }
        ensures none { IfNone result (SaysNot self.now t act.now step.now) }
    {
        for x in 0..self.row_count(step) {
            if self.may_choose(t, x, step) && same_act(act, &self.says(t, x, step)) {
                return Some(x);
            }
        }
        None
    }

    /// The act as the begin of a line, or as an exit.
    fn at_rest(&self, t: usize, act: &Act) -> Option<Choice>
        requires thread { t < THREADS }
        requires rest { slice_get (thread_at self.now t).pending 0 ≡ None }
        ensures some { IfSome result (λ choice. IsChoice self.now t act.now choice) }
        ensures none { IfNone result
            ((step : Pending) → rest_step self.now t ≡ Some step → SaysNot self.now t act.now step) }
    {
        match self.rest_act(t) {
            None => None,
            Some(said) => {
                if !same_act(act, &said) {
                    return None;
                }
                Some(Choice::at_rest(act))
            }
        }
    }

    /// The act as the next step of a thread.
    fn by_first(&self, t: usize, act: &Act) -> Option<Choice>
        requires thread { t < THREADS }
        ensures some { IfSome result (λ choice. IsChoice self.now t act.now choice) }
        ensures none { IfNone result
            ((step : Pending) → first_step self.now t ≡ Some step → SaysNot self.now t act.now step) }
    {
        let Some(step) = self.next_step(t) else {
            return self.at_rest(t, act);
        };
        let row = self.row_for(t, &step, act)?;
        let taken = 1;
        Some(Choice::Makes { step, row, taken })
    }

    /// The act as the step after one that is left out.
    fn by_second(&self, t: usize, act: &Act) -> Option<Choice>
        requires thread { t < THREADS }
        ensures some { IfSome result (λ choice. IsChoice self.now t act.now choice) }
        ensures none { IfNone result
            ((step : Pending) → second_step self.now t ≡ Some step → SaysNot self.now t act.now step) }
    {
        let step = self.second_step(t)?;
        let row = self.row_for(t, &step, act)?;
        let taken = 2;
        Some(Choice::Makes { step, row, taken })
    }

    /// The act as one of a thread's own steps.
    fn by_steps(&self, t: usize, act: &Act) -> Option<Choice>
        requires thread { t < THREADS }
        ensures some { IfSome result (λ choice. IsChoice self.now t act.now choice) }
        ensures first { IfNone result
            ((step : Pending) → first_step self.now t ≡ Some step → SaysNot self.now t act.now step) }
        ensures second { IfNone result
            ((step : Pending) → second_step self.now t ≡ Some step → SaysNot self.now t act.now step) }
    {
        match self.by_first(t, act) {
            Some(choice) => Some(choice),
            None => match self.by_second(t, act) {
                Some(choice) => Some(choice),
                None => None,
            },
        }
    }

    /// Whether a thread is in its end.
    pub fn is_ending(&self, t: usize) -> bool
        requires { t < THREADS }
        ensures { result ≡ is_ending (thread_at self.now t) }
    {
        is_ending(&self.threads[t])
    }

    /// Whether a thread was started.
    pub fn is_started(&self, t: usize) -> bool
        requires { t < THREADS }
        ensures { result ≡ is_started (thread_at self.now t).life }
    {
        match self.threads[t].life {
            Life::Unborn => false,
            Life::Living => true,
            Life::Ended => true,
        }
    }

    /// The act as one that tells those who wait for the end of a thread.
    fn by_leaving(&self, t: usize, act: &Act) -> Option<Choice>
        requires thread { t < THREADS }
        ensures some { IfSome result (λ choice. IsChoice self.now t act.now choice) }
        ensures none { IfNone result
            (IsTrue (is_ending (thread_at self.now t)) → SaysNot self.now t act.now Pending.Left) }
    {
        if !self.is_ending(t) {
            return None;
        }
        match self.row_for(t, &Pending::Left, act) {
            Some(_) => Some(Choice::Leaves),
            None => None,
        }
    }

    /// The act as a step that isn't of an instruction.
    fn by_tending(&self, t: usize, act: &Act) -> Option<Choice>
        requires thread { t < THREADS }
        ensures some { IfSome result (λ choice. IsChoice self.now t act.now choice) }
        ensures none { IfNone result
            (IsTrue (is_started (thread_at self.now t).life) → (step : Pending) → IsTrue (is_tending step)
            → SaysNot self.now t act.now step) }
    {
        if !self.is_started(t) {
            return None;
        }
        match tending_of(act) {
            None => None,
            Some(step) => match self.row_for(t, &step, act) {
                Some(row) => Some(Choice::Tends { step, row }),
                None => None,
            },
        }
    }

    /// The act as a step that any thread may make of those that it is offered.
    fn by_other(&self, t: usize, act: &Act) -> Option<Choice>
        requires thread { t < THREADS }
        ensures some { IfSome result (λ choice. IsChoice self.now t act.now choice) }
        ensures leaves { IfNone result
            (IsTrue (is_ending (thread_at self.now t)) → SaysNot self.now t act.now Pending.Left) }
        ensures tends { IfNone result
            (IsTrue (is_started (thread_at self.now t).life) → (step : Pending) → IsTrue (is_tending step)
            → SaysNot self.now t act.now step) }
    {
        match self.by_leaving(t, act) {
            Some(choice) => Some(choice),
            None => match self.by_tending(t, act) {
                Some(choice) => Some(choice),
                None => None,
            },
        }
    }

    /// What is made of an event, where it is a step.
    #[tactic(auto, using(crate::proofs::OfferLemmas::no_steps))]
    pub(crate) fn choice(&self, event: &Event) -> Option<Choice>
        ensures thread { IfSome result (λ _. event.now.thread.0 < THREADS) }
        ensures some { IfSome result (λ choice. IsChoice self.now event.now.thread.0 event.now.act choice) }
        ensures none { IfNone result (IsNoStep self.now event.now) }
    {
        let t = event.thread.0 as usize;
        if t >= self.threads().len() {
            return None;
        }
        match self.by_steps(t, &event.act) {
            Some(choice) => Some(choice),
            None => match self.by_other(t, &event.act) {
                Some(choice) => Some(choice),
                None => None,
            },
        }
    }
}
