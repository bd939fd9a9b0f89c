//! The event of a thread's next step.

ghost use Rattle.std.specs.Prelude.{IsTrue};
ghost use Rattle.um_processor.specs.{Events.{shows}, Subjects.{is_plain}, Turns.{CanTurn, HasRun}};

use crate::phase::Turn;
use crate::running::Running;
use crate::running::calls::Wanted;
use um_machine::Pending;
use um_tables::{Here, Sites};

impl Running {
    /// Makes the event of a step after which the thread goes on at once.
    pub fn show<S: Sites>(&mut self, here: &Here, step: &Pending, sites: &mut S) -> Turn
        requires plain { IsTrue (is_plain step.now) }
        requires goes { CanTurn S.Sites here.now sites.old (shows step.now self.old) }
        ensures turn { HasRun S.Sites result here.now sites.old sites.new
            (shows step.now self.old) self.old self.new }
    {
        match step {
            Pending::Load { to, addr, size } => self.load(here, *to, *addr, *size, sites),
            Pending::CopyIn { addr, amount } => self.copy_in(here, *addr, amount, sites),
            Pending::CopyOut { addr } => self.copy_out(here, *addr, sites),
            Pending::CopyStr { addr } => self.copy_text(here, *addr, sites),
            Pending::Check {
                addr,
                kind,
                want,
                refusal,
            } => {
                let wanted = Wanted {
                    addr: *addr,
                    kind: *kind,
                    want: *want,
                    refusal: *refusal,
                };
                self.check(here, &wanted, sites)
            }
            Pending::SetInit { addr, strict, undo } => self.set_init(
                here, *addr, *strict, *undo, sites,
            ),
            Pending::Reserve { kind } => self.reserve(here, *kind, sites),
            Pending::Buffer { size } => self.buffer(here, *size, sites),
            Pending::Named { who } => self.name(here, *who, sites),
            Pending::Arm { ticks } => self.arm(here, *ticks, sites),
            Pending::ArmTimer { ticks } => self.arm_timer(here, *ticks, sites),
            Pending::Abort { who } => self.abort(here, *who, sites),
            Pending::Suspend { who } => self.suspend(here, *who, sites),
            Pending::Continue { who } => self.resume(here, *who, sites),
            Pending::Join { who, timeout } => self.join(here, *who, *timeout, sites),
            Pending::FutexWait {
                addr,
                value,
                timeout,
            } => self.futex_wait(here, *addr, *value, *timeout, sites),
            _ => self.show_quiet(here, step, sites),
        }
    }
}
