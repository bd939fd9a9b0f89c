//! What is timed in a thread's next step: the cell in which it may wait, and the mark that is armed for it.

ghost use Rattle.std.specs.Prelude.{◌≡◌, ◌∷◌, [], if◌then◌else◌};
ghost use Rattle.um_fine.specs.Places.{armed_for, is_patient, is_timer_start, mark_for, may_wait, noted_cell};
ghost use Rattle.um_processor.specs.Phases.{act_of, is_untimed, noting_phase};

use crate::phase::Phase;
use crate::running::next::row_named;
use um_base::{Ask, Image, Row, ThreadIx, Timeout};
use um_machine::Pending;
use um_tables::Context;
use um_words::Mark;

/// The site of the cell of memory.
const MEMORY: u16 = 304;

/// That of the joins.
const JOINS: u16 = 308;

/// That of the object of row 0.
const OBJECTS: u16 = 168;

/// Whether a call waits that can't go on.
pub fn is_patient(timeout: Timeout) -> bool
    ensures { result ≡ is_patient timeout }
{
    match timeout {
        Timeout::NoWait => false,
        Timeout::Forever | Timeout::Ticks(_) => true,
    }
}

/// Whether a call on an object may wait.
#[inline(always)]
pub fn may_wait(ask: &Ask) -> bool
    ensures { result ≡ may_wait ask.now }
{
    match ask {
        Ask::SemTake { timeout } => is_patient(*timeout),
        Ask::MutexLock { timeout } => is_patient(*timeout),
        Ask::MsgqPut { timeout } => is_patient(*timeout),
        Ask::MsgqGet { timeout } => is_patient(*timeout),
        Ask::StackPop { timeout } => is_patient(*timeout),
        Ask::PipeWrite { timeout, .. } => is_patient(*timeout),
        Ask::PipeRead { timeout, .. } => is_patient(*timeout),
        Ask::TimerSync => true,
        _ => false,
    }
}

#[inline(always)]
fn is_timer_start(ask: &Ask) -> bool
    ensures { result ≡ is_timer_start ask.now }
{
    match ask {
        Ask::TimerStart { .. } => true,
        _ => false,
    }
}

/// Whether a call on an object can't wait, and nothing is armed for it.
#[inline(always)]
pub fn is_untimed(context: &Context, ask: &Ask) -> bool
    ensures { result ≡ is_untimed context.now ask.now }
{
    !may_wait(ask) && !is_timer_start(ask) && context.until().is_none()
}

/// The site of the cell in which an act may wait.
pub fn noted_cell(image: &Image, act: &Pending) -> Option<u16>
    ensures { result ≡ noted_cell image.now (act.now ∷ []) }
{
    match act {
        Pending::Work { addr, ask } => {
            if may_wait(ask) {
                Some(OBJECTS + row_named(image, *addr) as u16)
            } else {
                None
            }
        }
        Pending::Join { timeout, .. } => {
            if is_patient(*timeout) {
                Some(JOINS)
            } else {
                None
            }
        }
        Pending::FutexWait { timeout, .. } => {
            if is_patient(*timeout) {
                Some(MEMORY)
            } else {
                None
            }
        }
        _ => None,
    }
}

/// The deadline that is armed for an act.
pub fn armed_for(image: &Image, context: &Context, act: &Pending) -> Option<u64>
    ensures { result ≡ armed_for image.now context.now act.now }
{
    match act {
        Pending::Work {
            ask: Ask::TimerStart { deadline },
            ..
        } => Some(*deadline),
        _ => context.until(),
    }
}

/// For what a deadline is armed, by the act behind it.
pub fn mark_for(image: &Image, thread: u8, act: &Pending) -> Mark
    ensures { result ≡ mark_for image.now thread (act.now ∷ []) }
{
    let who = ThreadIx(thread);
    match act {
        Pending::Work { addr, ask } => {
            let row = row_named(image, *addr);
            if is_timer_start(ask) {
                Mark::Timer(Row(row))
            } else {
                Mark::Thread {
                    who,
                    site: OBJECTS + row as u16,
                }
            }
        }
        Pending::Join { .. } => Mark::Thread { who, site: JOINS },
        _ => Mark::Thread { who, site: MEMORY },
    }
}

/// The act for which a deadline is armed, or is about to be: a step, or the one behind it.
pub fn act_of<'a>(step: &'a Pending, behind: &'a Pending) -> &'a Pending
    ensures { result.now ≡ act_of step.now behind.now }
{
    match step {
        Pending::Arm { .. } => behind,
        _ => step,
    }
}

/// The first phase of an act that may wait in this cell: its thread's word notes the cell, if it hasn't yet.
pub fn noting_phase(context: &Context, cell: Option<u16>, phase: Phase) -> Phase
    ensures { result ≡ noting_phase context.now cell phase }
{
    match cell {
        None => phase,
        Some(_) => {
            if context.noted().is_some() {
                phase
            } else {
                Phase::Note
            }
        }
    }
}
