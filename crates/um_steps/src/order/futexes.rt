//! Calls on futexes.

ghost use Rattle.std.specs.Prelude.{◌≡◌, ℕ, IsTrue};
ghost use Rattle.um_base.specs.declared.image.Image.{Image};
ghost use Rattle.um_machine.specs.Order.{steps_of};
ghost use Rattle.um_steps.specs.Subjects.{is_on_futex};

use crate::order::operands::value_of;
use crate::order::steps::{ANSWER, arms, turn};
use um_base::{Addr, Instr};
use um_machine::{Pending, Thread};

/// A thread goes on with the steps of a call on a futex.
pub fn begins(me: &mut Thread, instr: &Instr)
    requires { IsTrue (is_on_futex instr.now) }
    ensures { (image : Image) (t : ℕ)
        → me.new ≡ record me.old { pending = steps_of image t me.old instr.now } }
{
    match instr {
        Instr::FutexWait {
            addr,
            value,
            timeout,
        } => {
            let wait = Pending::FutexWait {
                addr: Addr(value_of(&me.registers, addr)),
                value: value_of(&me.registers, value),
                timeout: *timeout,
            };
            turn(&mut me.pending, &[wait, ANSWER]);
            arms(&mut me.pending, *timeout);
        }
        Instr::FutexWake { addr, all } => {
            let wake = Pending::FutexWake {
                addr: Addr(value_of(&me.registers, addr)),
                all: *all,
            };
            turn(&mut me.pending, &[wake, ANSWER]);
        }
        _ => unreachable!(),
    }
}
