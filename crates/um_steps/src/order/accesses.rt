//! Loads, stores and fetches.

ghost use Rattle.std.specs.Prelude.{◌≡◌, ◌≤◌, ◌%◌, ◌^◌, ℕ, IsTrue};
ghost use Rattle.um_base.specs.declared.image.Image.{Image};
ghost use Rattle.um_machine.specs.Order.{steps_of};
ghost use Rattle.um_steps.specs.{Accesses.{is_sized}, Subjects.{is_access}};

use crate::order::operands::value_of;
use um_base::{Addr, Instr};
use um_machine::{Pending, Thread};

/// The lowest bytes of a number.
fn low_bytes(value: u32, size: u8) -> u32
    requires { size ≤ 4 }
    ensures { result ≡ value % 256 ^ size }
{
    match size {
        0 => 0,
        1 => value % 0x100,
        2 => value % 0x1_0000,
        3 => value % 0x100_0000,
        _ => value,
    }
}

/// A thread goes on with the step of an access.
pub fn begins(me: &mut Thread, instr: &Instr)
    requires subject { IsTrue (is_access instr.now) }
    requires sized { IsTrue (is_sized instr.now) }
    ensures { (image : Image) (t : ℕ)
        → me.new ≡ record me.old { pending = steps_of image t me.old instr.now } }
{
    match instr {
        Instr::Load { to, addr, size } => {
            let a = value_of(&me.registers, addr);
            me.turns_to(&Pending::Load {
                to: *to,
                addr: Addr(a),
                size: *size as u32,
            });
        }
        Instr::Store { addr, size, value } => {
            let a = value_of(&me.registers, addr);
            let n = value_of(&me.registers, value);
            me.turns_to(&Pending::Store {
                addr: Addr(a),
                size: *size as u32,
                value: low_bytes(n, *size),
            });
        }
        Instr::Exec { addr } => {
            let a = value_of(&me.registers, addr);
            me.turns_to(&Pending::Fetch { addr: Addr(a) });
        }
        _ => unreachable!(),
    }
}
