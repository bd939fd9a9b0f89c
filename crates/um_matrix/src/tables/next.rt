//! Which events are steps.

ghost use Rattle.std.specs.Prelude.{◌≡◌, ◌<◌, IfSome, IfNone, MatchOption, IsTrue, Some, None, ℕ, false, slice_get};
ghost use Rattle.um_base.specs.declared.act.Event.{Event};
ghost use Rattle.um_machine.specs.{Limits.{IsSound}, declared.pending.Pending.{Pending}};

use crate::tables::Tables;
use crate::tables::moves::holders_of;
use um_base::{Act, Event, ROWS, THREADS, ThreadIx};
use um_machine::Pending;
use um_steps::waits::is_waiting;

impl<'a> Tables<'a> {
    ghost use Rattle.um_machine.specs.{Joins.{is_ending}, Run.{MayChoose, IsComplete}, State.{thread_at, is_started, is_waiting}};
    ghost use Rattle.um_matrix.specs.Offered.{IsStep, event_of, first_step, second_step, is_tending, row_count, Says, ChoosesNone, IsIdle};

    /// The first row that a step may choose.
    fn least_row(&self, t: usize, step: &Pending) -> Option<usize>
        requires thread { t < THREADS }
        requires sound { IsSound step.now }
        ensures inside { IfSome result (λ x. x < row_count step.now) }
        ensures found { IfSome result (λ x. MayChoose self.now t x step.now) }
        ensures none { IfNone result (ChoosesNone self.now t step.now) }
    {
        for x in 0..self.row_count(step) {
            if self.may_choose(t, x, step) {
                return Some(x);
            }
        }
        None
    }

    /// What a thread says by a step, with the first row that it may choose.
    fn act_with(&self, t: usize, step: &Pending) -> Option<Act>
        requires thread { t < THREADS }
        requires sound { IsSound step.now }
        ensures says { IfSome result (λ act. Says self.now t act step.now) }
        ensures none { IfNone result (ChoosesNone self.now t step.now) }
    {
        let x = self.least_row(t, step)?;
        Some(self.says(t, x, step))
    }

    /// What a thread says by its next step.
    fn first_act(&self, t: usize) -> Option<Act>
        requires { t < THREADS }
        ensures some { IfSome result (λ act. IsStep self.now (event_of t act)) }
        ensures none { IfNone result
            ((step : Pending) → first_step self.now t ≡ Some step → ChoosesNone self.now t step) }
    {
        match self.next_step(t) {
            None => self.rest_act(t),
            Some(step) => self.act_with(t, &step),
        }
    }

    /// What a thread says by the step after one that is left out.
    fn second_act(&self, t: usize) -> Option<Act>
        requires { t < THREADS }
        ensures some { IfSome result (λ act. IsStep self.now (event_of t act)) }
        ensures none { IfNone result
            ((step : Pending) → second_step self.now t ≡ Some step → ChoosesNone self.now t step) }
    {
        match self.second_step(t) {
            None => None,
            Some(step) => self.act_with(t, &step),
        }
    }

    /// What a thread says by one of its own steps.
    fn step_act(&self, t: usize) -> Option<Act>
        requires { t < THREADS }
        ensures some { IfSome result (λ act. IsStep self.now (event_of t act)) }
        ensures first { IfNone result
            ((step : Pending) → first_step self.now t ≡ Some step → ChoosesNone self.now t step) }
        ensures second { IfNone result
            ((step : Pending) → second_step self.now t ≡ Some step → ChoosesNone self.now t step) }
    {
        match self.first_act(t) {
            Some(act) => Some(act),
            None => match self.second_act(t) {
                Some(act) => Some(act),
                None => None,
            },
        }
    }

    /// The first thread whose pair with a row may be cleaned.
    fn pair_to_clean(&self, t: usize, x: usize) -> Option<ThreadIx>
        requires { x < ROWS }
        ensures found { IfSome result (λ who. MayChoose self.now t x (Pending.CleanPair who)) }
        ensures none { IfNone result ((who : ThreadIx) → MayChoose self.now t x (Pending.CleanPair who) → ⊥) }
    {
        let pairs = self.pairs();
        for who in 0..holders_of(pairs, x).len() {
            let who = ThreadIx(who as u8);
            if self.may_clean_pair(t, x, who) {
                return Some(who);
            }
        }
        None
    }

    /// A step that cleans with a row.
    fn cleaning_of(&self, t: usize, x: usize) -> Option<Pending>
        requires { x < ROWS }
        ensures some { IfSome result (λ step. MayChoose self.now t x step × IsTrue (is_tending step)) }
        ensures sound { IfSome result IsSound }
        ensures inside { IfSome result (λ step. x < row_count step) }
        ensures pairs { IfNone result
            ((who : ThreadIx) → MayChoose self.now t x (Pending.CleanPair who) → ⊥) }
        ensures objects { IfNone result (MayChoose self.now t x Pending.Recycle → ⊥) }
    {
        if self.may_recycle(t, x) {
            return Some(Pending::Recycle);
        }
        match self.pair_to_clean(t, x) {
            Some(who) => Some(Pending::CleanPair { who }),
            None => None,
        }
    }

    /// What a thread says that cleans.
    fn cleaning_act(&self, t: usize) -> Option<Act>
        requires { t < THREADS }
        ensures some { IfSome result (λ act. IsStep self.now (event_of t act)) }
        ensures pairs { IfNone result
            (IsTrue (is_started (thread_at self.now t).life) → (who : ThreadIx)
            → ChoosesNone self.now t (Pending.CleanPair who)) }
        ensures objects { IfNone result
            (IsTrue (is_started (thread_at self.now t).life) → ChoosesNone self.now t Pending.Recycle) }
    {
        if !self.is_started(t) {
            return None;
        }
        for x in 0..self.pairs.len() {
            match self.cleaning_of(t, x) {
                Some(step) => return Some(self.says(t, x, &step)),
                None => {}
            }
        }
        None
    }

    /// What a thread says that tells those who wait for its end.
    fn leaving_act(&self, t: usize) -> Option<Act>
        requires { t < THREADS }
        ensures some { IfSome result (λ act. IsStep self.now (event_of t act)) }
        ensures none { IfNone result
            (IsTrue (is_ending (thread_at self.now t)) → ChoosesNone self.now t Pending.Left) }
    {
        if !self.is_ending(t) {
            return None;
        }
        match self.act_with(t, &Pending::Left) {
            Some(act) => Some(act),
            None => None,
        }
    }

    /// Whether a thread waits: its next step is to resume, and it was told nothing.
    pub fn is_waiting(&self, who: ThreadIx) -> bool
        ensures { result ≡ is_waiting (thread_at self.now who.0) }
    {
        match self.threads.get(who.0 as usize) {
            None => false,
            Some(thread) => is_waiting(thread),
        }
    }

    /// What a thread says by a step that ends the wait of another.
    fn waking_of(&self, t: usize, who: ThreadIx) -> Option<Act>
        requires thread { t < THREADS }
        requires started { IsTrue (is_started (thread_at self.now t).life) }
        ensures some { IfSome result (λ act. IsStep self.now (event_of t act)) }
        ensures times { IfNone result (ChoosesNone self.now t (Pending.TimeOut who)) }
        ensures cuts { IfNone result (ChoosesNone self.now t (Pending.Cut who)) }
    {
        if !self.is_waiting(who) {
            return None;
        }
        match self.act_with(t, &Pending::TimeOut { who }) {
            Some(act) => Some(act),
            None => match self.act_with(t, &Pending::Cut { who }) {
                Some(act) => Some(act),
                None => None,
            },
        }
    }

    /// What a thread says by a step that ends a wait.
    fn waking_act(&self, t: usize) -> Option<Act>
        requires thread { t < THREADS }
        requires started { IsTrue (is_started (thread_at self.now t).life) }
        ensures some { IfSome result (λ act. IsStep self.now (event_of t act)) }
        ensures times { IfNone result ((who : ThreadIx) → ChoosesNone self.now t (Pending.TimeOut who)) }
        ensures cuts { IfNone result ((who : ThreadIx) → ChoosesNone self.now t (Pending.Cut who)) }
    {
        for who in 0..self.threads().len() {
            match self.waking_of(t, ThreadIx(who as u8)) {
                Some(act) => return Some(act),
                None => {}
            }
        }
        None
    }

    /// What a thread says by a step of virtual time alone.
    fn clock_act(&self, t: usize) -> Option<Act>
        requires thread { t < THREADS }
        requires started { IsTrue (is_started (thread_at self.now t).life) }
        ensures some { IfSome result (λ act. IsStep self.now (event_of t act)) }
        ensures ticks { IfNone result (ChoosesNone self.now t Pending.Tick) }
        ensures timers { IfNone result (ChoosesNone self.now t Pending.Expire) }
    {
        match self.act_with(t, &Pending::Tick) {
            Some(act) => Some(act),
            None => match self.act_with(t, &Pending::Expire) {
                Some(act) => Some(act),
                None => None,
            },
        }
    }

    /// What a thread says by a step that isn't of an instruction.
    fn tending_act(&self, t: usize) -> Option<Act>
        requires { t < THREADS }
        ensures some { IfSome result (λ act. IsStep self.now (event_of t act)) }
        ensures none { IfNone result
            (IsTrue (is_started (thread_at self.now t).life) → (step : Pending) → IsTrue (is_tending step)
            → ChoosesNone self.now t step) }
    {
        if !self.is_started(t) {
            return None;
        }
        match self.cleaning_act(t) {
            Some(act) => Some(act),
            None => match self.waking_act(t) {
                Some(act) => Some(act),
                None => match self.clock_act(t) {
                    Some(act) => Some(act),
                    None => None,
                },
            },
        }
    }

    /// What a thread says that isn't of its instruction.
    fn other_act(&self, t: usize) -> Option<Act>
        requires { t < THREADS }
        ensures some { IfSome result (λ act. IsStep self.now (event_of t act)) }
        ensures leaves { IfNone result
            (IsTrue (is_ending (thread_at self.now t)) → ChoosesNone self.now t Pending.Left) }
        ensures tends { IfNone result
            (IsTrue (is_started (thread_at self.now t).life) → (step : Pending) → IsTrue (is_tending step)
            → ChoosesNone self.now t step) }
    {
        match self.leaving_act(t) {
            Some(act) => Some(act),
            None => match self.tending_act(t) {
                Some(act) => Some(act),
                None => None,
            },
        }
    }

    /// What a thread may say.
    #[tactic(auto, using(crate::proofs::OfferLemmas::no_steps))]
    fn act_by(&self, t: usize) -> Option<Act>
        requires { t < THREADS }
        ensures some { IfSome result (λ act. IsStep self.now (event_of t act)) }
        ensures none { IfNone result (IsIdle self.now t) }
    {
        match self.step_act(t) {
            Some(act) => Some(act),
            None => match self.other_act(t) {
                Some(act) => Some(act),
                None => None,
            },
        }
    }

    /// An event that is a step, or none where no event is one.
    pub(crate) fn next_event(&self) -> Option<Event>
        ensures { MatchOption result (IsComplete self.now) (λ event. IsStep self.now event) }
    {
        let threads = self.threads();
        for t in 0..threads.len() {
            match self.act_by(t) {
                Some(act) => {
                    return Some(Event {
                        thread: ThreadIx(t as u8),
                        act,
                    });
                }
                None => {}
            }
        }
        None
    }
}
