//! Calls on timers.

ghost use Rattle.std.specs.Prelude.{◌≡◌, ℕ, IsTrue};
ghost use Rattle.um_base.specs.declared.image.Image.{Image};
ghost use Rattle.um_machine.specs.Order.{steps_of};
ghost use Rattle.um_steps.specs.Subjects.{is_on_timer};

use crate::order::calls::{counts, simple};
use crate::order::operands::value_of;
use crate::order::steps::{ANSWER, needs, turn, work};
use um_base::{Ask, Instr, Kind, Want};
use um_machine::{Pending, Thread};

/// A thread goes on with the steps of a call on a timer.
pub fn begins(me: &mut Thread, instr: &Instr)
    requires { IsTrue (is_on_timer instr.now) }
    ensures { (image : Image) (t : ℕ)
        → me.new ≡ record me.old { pending = steps_of image t me.old instr.now } }
{
    match instr {
        Instr::TimerStart { object, ticks } => {
            let x = value_of(&me.registers, object);
            let arm = Pending::ArmTimer {
                ticks: value_of(&me.registers, ticks),
            };
            let start = work(x, &Ask::TimerStart { deadline: 0 });
            turn(
                &mut me.pending,
                &[needs(x, Kind::Timer, Want::Init), arm, start, ANSWER],
            );
        }
        Instr::TimerStop { object } => simple(me, object, Kind::Timer, &Ask::TimerStop),
        Instr::TimerStatus { object, to } => {
            counts(me, object, Kind::Timer, &Ask::TimerStatus, *to);
        }
        Instr::TimerSync { object, to } => counts(me, object, Kind::Timer, &Ask::TimerSync, *to),
        _ => unreachable!(),
    }
}
