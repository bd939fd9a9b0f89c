//! The steps of each instruction, by its subject.

ghost use Rattle.std.specs.Prelude.{◌≡◌, ◌<◌, IsTrue};
ghost use Rattle.um_machine.specs.Order.{steps_of};
ghost use Rattle.um_steps.specs.Accesses.{is_sized};

use crate::order::follow::refuses;
use crate::order::{accesses, domains, futexes, objects, services, stops, threads, timers};
use um_base::{Cause, Image, Instr, THREADS};
use um_machine::{Pending, Thread};

/// A thread goes on with the steps of the instruction that it begins.
pub fn begins(image: &Image, t: usize, me: &mut Thread, instr: &Instr)
    requires thread { t < THREADS }
    requires sized { IsTrue (is_sized instr.now) }
    ensures { me.new ≡ record me.old { pending = steps_of image.now t me.old instr.now } }
{
    match instr {
        Instr::Set { .. } | Instr::Add { .. } | Instr::End | Instr::Repeat { .. } => {
            me.pending.clear();
        }
        Instr::Oops => me.turns_to(&Pending::Fatal {
            reason: 3,
            cause: Cause::KOops,
        }),
        Instr::Panic => me.turns_to(&refuses(me.mode, Cause::KPanic)),
        Instr::Load { .. } | Instr::Store { .. } | Instr::Exec { .. } => {
            accesses::begins(me, instr);
        }
        Instr::DomainInit { .. }
        | Instr::DomainAdd { .. }
        | Instr::DomainRemove { .. }
        | Instr::DomainMove { .. } => domains::begins(image, me, instr),
        Instr::ObjectAlloc { .. }
        | Instr::Grant { .. }
        | Instr::Revoke { .. }
        | Instr::Release { .. }
        | Instr::AllGrant { .. } => objects::begins(image, t, me, instr),
        Instr::Create { .. } | Instr::UserMode { .. } | Instr::NameSet { .. } => {
            threads::begins(image, me, instr);
        }
        Instr::Abort { .. } | Instr::Join { .. } | Instr::Suspend { .. } | Instr::Continue { .. } =>
            stops::begins(image, t, me, instr),
        Instr::TimerStart { .. }
        | Instr::TimerStop { .. }
        | Instr::TimerStatus { .. }
        | Instr::TimerSync { .. } => timers::begins(me, instr),
        Instr::FutexWait { .. } | Instr::FutexWake { .. } => futexes::begins(me, instr),
        Instr::SemInit { .. }
        | Instr::SemTake { .. }
        | Instr::SemGive { .. }
        | Instr::SemReset { .. }
        | Instr::SemCount { .. }
        | Instr::MutexInit { .. }
        | Instr::MutexLock { .. }
        | Instr::MutexUnlock { .. }
        | Instr::MsgqInit { .. }
        | Instr::MsgqPut { .. }
        | Instr::MsgqGet { .. }
        | Instr::MsgqPeek { .. }
        | Instr::MsgqPurge { .. }
        | Instr::MsgqUsed { .. }
        | Instr::StackInit { .. }
        | Instr::StackPush { .. }
        | Instr::StackPop { .. }
        | Instr::PipeInit { .. }
        | Instr::PipeWrite { .. }
        | Instr::PipeRead { .. }
        | Instr::PipeReset { .. }
        | Instr::PipeClose { .. } => services::begins(me, instr),
    }
}
