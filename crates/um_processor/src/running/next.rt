//! The first fine step of a thread's next step.

ghost use Rattle.std.specs.Prelude.{◌≡◌, ◌<◌, ◌∷◌, [], false, true, if◌then◌else◌, ◌==◌, is_some, IfSome, MatchOption, drop};
ghost use Rattle.um_base.specs.declared.image.Image.{Image};
ghost use Rattle.um_base.specs.declared.limits.TheConstants.{ROWS};
ghost use Rattle.um_fine.specs.{Addresses.{row_named}, Context.{Context}, Continues.{newborn}, Places.{armed_for, but}};
ghost use Rattle.um_machine.specs.Limits.{IsSound};
ghost use Rattle.um_machine.specs.declared.pending.Pending.TheVariants as Pending;
ghost use Rattle.um_processor.specs.declared.phase.Phase.TheVariants as Phase;
ghost use Rattle.um_processor.specs.{Events.{rest_of}, Phases.{act_phase, cell_of, clearing_phase, domain_named, first_of, first_phase, has_visits, is_direct, is_own, is_own_object, own_phase, phase_of_amount, queue_of, row_of_amount, settled_mark, settles_at}, Processors.{processor_of, ready_for, ready_of, refilled}};
ghost use Rattle.um_tables.specs.Contexts.{born, steps_behind};

use crate::phase::Phase;
use crate::running::Running;
use crate::running::timed::{act_of, armed_for, is_untimed, mark_for, noted_cell, noting_phase};
use um_base::{Addr, Image, ROWS, ThreadIx};
use um_machine::places::first_place;
use um_machine::{Amount, Pending};
use um_steps::rows::{own_row, row_at};
use um_tables::{Context, NOBODY, Newborn};

/// The first phase of a copy. A copy of a message begins with a look at the message's size.
fn phase_of_amount(amount: &Amount) -> Phase
    ensures { result ≡ phase_of_amount amount.now }
{
    match amount {
        Amount::Bytes(_) => Phase::Hold,
        Amount::MessageOf(_) => Phase::SizeLook,
    }
}

/// The first phase of a call on an object.
#[inline(always)]
fn act_phase(image: &Image, context: &Context, step: &Pending, untimed: bool) -> Phase
    ensures { result ≡ act_phase image.now context.now step.now untimed }
{
    if untimed {
        return Phase::Show;
    }
    noting_phase(context, noted_cell(image, step), Phase::Act)
}

/// The first phase of the clearing of a mark: a thread that clears its own object ends.
fn clearing_phase(image: &Image, context: &Context, addr: Addr) -> Phase
    ensures { result ≡ clearing_phase (is_own_object image.now context.now.thread addr) }
{
    if row_named(image, addr) as usize == own_row(image, context.thread() as usize) {
        Phase::Leave
    } else {
        Phase::Show
    }
}

/// The first phase of a step, by the one behind it.
#[inline(always)]
pub fn first_phase(image: &Image, context: &Context, step: &Pending, behind: &Pending) -> Phase
    ensures { result ≡ first_phase image.now context.now step.now behind.now }
{
    match step {
        Pending::Work { ask, .. } => act_phase(image, context, step, is_untimed(context, ask)),
        Pending::Join { .. } => noting_phase(context, noted_cell(image, step), Phase::Act),
        Pending::FutexWait { .. } => noting_phase(context, noted_cell(image, step), Phase::Hold),
        Pending::Arm { .. } => noting_phase(context, noted_cell(image, behind), Phase::Owe),
        Pending::ArmTimer { .. } => Phase::Owe,
        Pending::ClearInit { addr } => clearing_phase(image, context, *addr),
        Pending::FutexWake { .. } => Phase::Hold,
        Pending::Abort { .. } | Pending::Suspend { .. } => Phase::Show,
        Pending::Continue { .. } | Pending::Killed | Pending::Left => Phase::Show,
        Pending::Tick | Pending::TimeOut { .. } | Pending::Expire => Phase::Show,
        Pending::Cut { .. } => Phase::Show,
        Pending::Load { .. } | Pending::Store { .. } | Pending::Fetch { .. } => Phase::Hold,
        Pending::CopyOut { .. } | Pending::CopyStr { .. } => Phase::Hold,
        Pending::Probe { amount, .. } => phase_of_amount(amount),
        Pending::CopyIn { amount, .. } => phase_of_amount(amount),
        Pending::DomInit { .. } | Pending::DomAdd { .. } => Phase::WriteClaim,
        Pending::DomRemove { .. } => Phase::WriteClaim,
        Pending::DomMove { .. } => Phase::MoveClaim,
        Pending::Start { .. } => Phase::StartHold,
        Pending::Begin | Pending::Exit | Pending::Check { .. } => Phase::Show,
        Pending::Erase { .. } | Pending::Resume => Phase::Show,
        Pending::Answer { .. } | Pending::Grant { .. } | Pending::Own { .. } => Phase::Show,
        Pending::Inherit { .. } | Pending::DropPair { .. } => Phase::Show,
        Pending::Publish { .. } | Pending::SetInit { .. } => Phase::Show,
        Pending::Named { .. } => Phase::Show,
        Pending::Reserve { .. } | Pending::Born { .. } | Pending::Buffer { .. } => Phase::Show,
        Pending::Unbuffer { .. } | Pending::EnterUser { .. } => Phase::Show,
        Pending::Fatal { .. } | Pending::Drops { .. } | Pending::Dooms { .. } => Phase::Show,
        Pending::CleanPair { .. } | Pending::Recycle => Phase::Show,
    }
}

/// Whether a phase is one of the thread's own next step: there is a thread, and no row is visited, and it is no errand.
fn is_own(phase: Phase) -> bool
    ensures { result ≡ is_own phase }
{
    match phase {
        Phase::Idle | Phase::Pass | Phase::Drop => false,
        Phase::Look | Phase::TellCut | Phase::Rouse | Phase::AddRoused => false,
        Phase::Handle | Phase::Paid => false,
        _ => true,
    }
}

/// Such a phase, or that in which the thread is put back.
pub fn own_phase(phase: Phase) -> Phase
    ensures { result ≡ own_phase phase }
{
    if is_own(phase) { phase } else { Phase::Park }
}

/// The first phase of a direct step, by its kind alone: no visits come before it, and its fine steps name no queue, no new thread, no cell
/// and no mark. `None` for any other step.
#[inline(always)]
fn direct_phase(step: &Pending) -> Option<Phase>
    ensures { MatchOption result (is_direct step.now ≡ false)
        (λ phase. (is_direct step.now ≡ true)
        × ((image : Image) (c : Context) → first_phase image c step.now Pending.Resume ≡ phase)) }
{
    match step {
        Pending::Work { .. } | Pending::ClearInit { .. } => None,
        Pending::Arm { .. } | Pending::Join { .. } | Pending::FutexWait { .. } => None,
        Pending::Resume | Pending::Inherit { .. } | Pending::Drops { .. } => None,
        Pending::Probe { .. } | Pending::CopyIn { .. } | Pending::Start { .. } => None,
        Pending::ArmTimer { .. } => Some(Phase::Owe),
        Pending::FutexWake { .. } => Some(Phase::Hold),
        Pending::Load { .. } | Pending::Store { .. } | Pending::Fetch { .. } => Some(Phase::Hold),
        Pending::CopyOut { .. } | Pending::CopyStr { .. } => Some(Phase::Hold),
        Pending::DomInit { .. } | Pending::DomAdd { .. } => Some(Phase::WriteClaim),
        Pending::DomRemove { .. } => Some(Phase::WriteClaim),
        Pending::DomMove { .. } => Some(Phase::MoveClaim),
        Pending::Abort { .. } | Pending::Suspend { .. } => Some(Phase::Show),
        Pending::Continue { .. } | Pending::Killed | Pending::Left => Some(Phase::Show),
        Pending::Tick | Pending::TimeOut { .. } | Pending::Expire => Some(Phase::Show),
        Pending::Cut { .. } | Pending::Erase { .. } => Some(Phase::Show),
        Pending::Begin | Pending::Exit | Pending::Check { .. } => Some(Phase::Show),
        Pending::Answer { .. } | Pending::Grant { .. } | Pending::Own { .. } => Some(Phase::Show),
        Pending::DropPair { .. } | Pending::Publish { .. } => Some(Phase::Show),
        Pending::SetInit { .. } | Pending::Named { .. } => Some(Phase::Show),
        Pending::Reserve { .. } | Pending::Born { .. } | Pending::Buffer { .. } => Some(
            Phase::Show,
        ),
        Pending::Unbuffer { .. } | Pending::EnterUser { .. } => Some(Phase::Show),
        Pending::Fatal { .. } | Pending::Dooms { .. } => Some(Phase::Show),
        Pending::CleanPair { .. } | Pending::Recycle => Some(Phase::Show),
    }
}

/// The row at an address that was checked.
pub fn row_named(image: &Image, addr: Addr) -> u8
    ensures value { result ≡ row_named image.now addr }
    ensures small { result < ROWS }
{
    match row_at(image, addr.0) {
        Some(x) => x as u8,
        None => 0,
    }
}

fn row_of_amount(image: &Image, amount: &Amount) -> u8
    ensures { result ≡ row_of_amount image.now amount.now }
{
    match amount {
        Amount::Bytes(_) => 0,
        Amount::MessageOf(addr) => row_named(image, *addr),
    }
}

/// The row of the queue whose message size a copy looks at.
fn queue_of(image: &Image, step: &Pending) -> u8
    ensures { result ≡ queue_of image.now step.now }
{
    match step {
        Pending::Probe { amount, .. } => row_of_amount(image, amount),
        Pending::CopyIn { amount, .. } => row_of_amount(image, amount),
        _ => 0,
    }
}

/// The domain that a call names.
pub fn domain_named(call: &Pending) -> u8
    ensures { result ≡ domain_named call.now }
{
    match call {
        Pending::DomInit { domain, .. } => *domain,
        Pending::DomAdd { domain, .. } => *domain,
        Pending::DomRemove { domain, .. } => *domain,
        Pending::DomMove { domain, .. } => *domain,
        _ => 0,
    }
}

/// The thread that a step starts.
fn newborn(image: &Image, context: &Context, step: &Pending) -> Newborn
    ensures { born result ≡ newborn image.now context.now step.now }
{
    match step {
        Pending::Start {
            who,
            script,
            stack,
            priority,
            mode,
        } => Newborn {
            thread: *who,
            mode: *mode,
            stack: *stack,
            priority: *priority,
            pool: context.pool(),
            place: first_place(image, *script),
        },
        _ => NOBODY,
    }
}

/// This row, or the next one if this is the thread's own.
pub fn but(own: usize, row: u8) -> u8
    requires { row < 255 }
    ensures { result ≡ but own row }
{
    if row as usize == own { row + 1 } else { row }
}

impl Running {
    /// Whether visits of rows came before the next step.
    pub fn has_visited(&self) -> bool
        ensures { result ≡ self.now.visited }
    {
        self.visited
    }

    /// The next step, if there is one. No visits came before it.
    #[inline(always)]
    pub fn first(&self) -> Option<Pending>
        requires { self.now.visited ≡ false }
        ensures step { let steps = steps_behind self.now.visited self.now.context.value.pending
            in MatchOption result (steps ≡ []) (λ step. steps ≡ step ∷ rest_of self.now) }
        ensures sound { IfSome result IsSound }
    {
        self.context.first()
    }

    /// The next step after the visits, if there is one.
    #[tactic(auto, using(um_tables::proofs::Fronts::dropped_twice))]
    #[inline(always)]
    pub fn next_step(&self) -> Option<Pending>
        ensures step { let steps = steps_behind self.now.visited self.now.context.value.pending
            in MatchOption result (steps ≡ []) (λ step. steps ≡ step ∷ rest_of self.now) }
        ensures sound { IfSome result IsSound }
    {
        if self.visited {
            return self.context.second();
        }
        self.context.first()
    }

    /// The next step after the visits.
    #[inline(always)]
    pub fn step(&self) -> Pending
        ensures { result ≡ first_of (steps_behind self.now.visited self.now.context.value.pending) }
    {
        match self.next_step() {
            Some(step) => step,
            None => Pending::Resume,
        }
    }

    /// Readies the cell and the mark of this step, by the one behind it.
    fn readies_act(&mut self, image: &Image, step: &Pending, behind: &Pending)
        ensures cell { self.new.cell ≡ cell_of image.now step.now behind.now }
        ensures settles { self.new.settles ≡ is_some (armed_for image.now self.old.context.value step.now) }
        ensures deadline { self.new.deadline ≡ settles_at image.now self.old.context.value step.now }
        ensures mark { self.new.mark ≡ settled_mark image.now self.old.context.value step.now }
        ensures rest { self.new
            ≡ record self.old {
              cell = self.new.cell;
              settles = self.new.settles;
              deadline = self.new.deadline;
              mark = self.new.mark;
              rereads = false;
            } }
    {
        let armed = armed_for(image, &self.context, step);
        self.cell = noted_cell(image, act_of(step, behind)).unwrap_or(0);
        self.settles = armed.is_some();
        self.deadline = armed.unwrap_or(0);
        self.mark = mark_for(image, self.context.thread(), step);
        self.rereads = false;
    }

    /// Readies this step, by the one behind it. `visited` says whether visits come before it.
    #[inline(always)]
    fn readies(&mut self, image: &Image, step: &Pending, behind: &Pending, visited: bool)
        ensures ready { ready_of self.new ≡ ready_for image.now self.old.context.value step.now behind.now }
        ensures rest { self.new
            ≡ record self.old {
              queue = self.new.queue;
              newborn = self.new.newborn;
              cell = self.new.cell;
              settles = self.new.settles;
              deadline = self.new.deadline;
              mark = self.new.mark;
              rereads = false;
              visited = visited;
              next = first_phase image.now self.old.context.value step.now behind.now;
              phase = first_phase image.now self.old.context.value step.now behind.now;
            } }
    {
        self.readies_act(image, step, behind);
        self.queue = queue_of(image, step);
        self.newborn = newborn(image, &self.context, step);
        self.visited = visited;
        self.next = first_phase(image, &self.context, step, behind);
        self.phase = self.next;
    }

    /// Goes to the first fine step of the thread's next step. Most steps are direct, and of these no more than the kind is looked at.
    pub fn expands(&mut self, image: &Image)
        ensures { processor_of self.new ≡ refilled image.now self.old }
    {
        let Some(step) = self.context.first() else {
            return self.ends_turn();
        };
        match direct_phase(&step) {
            Some(phase) => {
                self.visited = false;
                self.phase = phase;
            }
            None => self.expands_other(image),
        }
    }

    /// The same for a step that isn't direct.
    #[inline(always)]
    fn expands_other(&mut self, image: &Image)
        ensures { processor_of self.new ≡ refilled image.now self.old }
    {
        match self.context.first() {
            Some(Pending::Work { .. }) => self.expands_work(image),
            _ => self.expands_far(image),
        }
    }

    /// The same for a call on an object. Most of these can't wait and arm nothing.
    #[inline(never)]
    fn expands_work(&mut self, image: &Image)
        ensures { processor_of self.new ≡ refilled image.now self.old }
    {
        match self.context.first() {
            Some(Pending::Work { ask, .. }) if is_untimed(&self.context, &ask) => {
                self.visited = false;
                self.phase = Phase::Show;
            }
            _ => self.expands_far(image),
        }
    }

    /// Goes to the end of the thread's turn, where no step is left.
    fn ends_turn(&mut self)
        ensures { self.new
            ≡ record self.old { phase = if self.old.context.value.ended then Phase.Done else Phase.Park } }
    {
        self.phase = if self.context.has_ended() {
            Phase::Done
        } else {
            Phase::Park
        };
    }

    /// The second step of those that are left.
    pub fn second_step(&self) -> Pending
        ensures { result ≡ first_of (drop 1 self.now.context.value.pending) }
    {
        match self.context.second() {
            Some(step) => step,
            None => Pending::Resume,
        }
    }

    /// The third one.
    pub fn third_step(&mut self) -> Pending
        ensures step { result ≡ first_of (drop 2 self.old.context.value.pending) }
        ensures same { self.new ≡ self.old }
    {
        match self.context.third() {
            Some(step) => step,
            None => Pending::Resume,
        }
    }

    /// Goes to the first fine step of this step, before which no row is visited.
    #[tactic(auto, using(crate::proofs::Expanded::plain_goes))]
    fn expands_to(&mut self, image: &Image, first: &Pending)
        requires at { self.old.context.value.pending ≡ first.now ∷ drop 1 self.old.context.value.pending }
        requires plain { has_visits first.now ≡ false }
        ensures { processor_of self.new ≡ refilled image.now self.old }
    {
        let behind = self.second_step();
        self.readies(image, first, &behind, false);
    }

    /// Goes to the first row at which a permission is passed to this thread, and readies the step behind the visits.
    #[tactic(auto, using(crate::proofs::Expanded::alone_passes, crate::proofs::Expanded::passes_goes))]
    fn expands_passes(&mut self, image: &Image, who: ThreadIx)
        requires at { self.old.context.value.pending
            ≡ Pending.Inherit who ∷ drop 1 self.old.context.value.pending }
        ensures { processor_of self.new ≡ refilled image.now self.old }
    {
        let own = own_row(image, self.context.thread() as usize);
        match self.context.second() {
            None => self.readies(image, &Pending::Inherit { who }, &Pending::Resume, false),
            Some(second) => {
                let third = self.third_step();
                self.readies(image, &second, &third, true);
                self.visits(but(own, 0), Phase::Pass);
            }
        }
    }

    /// Goes to the first row at which a permission is dropped, and readies the step behind the visits.
    #[tactic(auto, using(crate::proofs::Expanded::alone_drops, crate::proofs::Expanded::drops_goes))]
    fn expands_drops(&mut self, image: &Image, from: u8)
        requires at { self.old.context.value.pending
            ≡ Pending.Drops from ∷ drop 1 self.old.context.value.pending }
        ensures { processor_of self.new ≡ refilled image.now self.old }
    {
        match self.context.second() {
            None => self.readies(image, &Pending::Drops { from }, &Pending::Resume, false),
            Some(second) => {
                let third = self.third_step();
                self.readies(image, &second, &third, true);
                self.visits(from, Phase::Drop);
            }
        }
    }

    /// The same for any step.
    #[inline(never)]
    fn expands_far(&mut self, image: &Image)
        ensures { processor_of self.new ≡ refilled image.now self.old }
    {
        let first = match self.context.first() {
            None => return self.ends_turn(),
            Some(first) => first,
        };
        match first {
            Pending::Resume => self.phase = Phase::Park,
            Pending::Inherit { who } => self.expands_passes(image, who),
            Pending::Drops { from } => self.expands_drops(image, from),
            _ => self.expands_to(image, &first),
        }
    }
}
