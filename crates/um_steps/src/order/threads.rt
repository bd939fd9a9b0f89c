//! Calls that create a thread, drop into user mode or name a thread.

ghost use Rattle.std.specs.Prelude.{◌≡◌, ◌∷◌, [], Some, ℕ, IsTrue};
ghost use Rattle.um_base.specs.Places.{thread_of_addr};
ghost use Rattle.um_base.specs.declared.names.Errno.TheVariants as Errno;
ghost use Rattle.um_base.specs.declared.names.Kind.TheVariants as Kind;
ghost use Rattle.um_base.specs.declared.names.Reply.TheVariants as Reply;
ghost use Rattle.um_base.specs.declared.names.Want.TheVariants as Want;
ghost use Rattle.um_machine.specs.declared.pending.Pending.TheVariants as Pending;
ghost use Rattle.um_machine.specs.declared.pending.Refusal.TheVariants as Refusal;
ghost use Rattle.um_machine.specs.Order.{steps_of, answer_zero, to_addr, to_thread};
ghost use Rattle.um_steps.specs.Subjects.{is_on_thread};

use crate::order::calls::privileged;
use crate::order::creation::{Creation, create};
use crate::order::operands::{number_of, thread_of_addr, value_of};
use crate::order::steps::{ANSWER_ZERO, turn};
use um_base::{Addr, Errno, Image, Instr, Kind, Reply, Want};
use um_machine::{Pending, Refusal, Thread};

/// The thread at an address is given the name at another.
fn names(image: &Image, me: &mut Thread, a: u32, name: u32)
    ensures { me.new ≡ record me.old {
      pending = Pending.Check (to_addr a) (Some Kind.Thread) Want.Init
          (Refusal.Answers (Reply.Fail Errno.EINVAL))
          ∷ Pending.CopyStr (to_addr name) ∷ Pending.Named (to_thread (thread_of_addr image.now a))
          ∷ answer_zero;
    } }
{
    let check = Pending::Check {
        addr: Addr(a),
        kind: Some(Kind::Thread),
        want: Want::Init,
        refusal: Refusal::Answers(Reply::Fail(Errno::EINVAL)),
    };
    let copy = Pending::CopyStr { addr: Addr(name) };
    let named = Pending::Named {
        who: thread_of_addr(image, a),
    };
    turn(&mut me.pending, &[check, copy, named, ANSWER_ZERO]);
}

/// A thread goes on with the steps of a call on a thread.
pub fn begins(image: &Image, me: &mut Thread, instr: &Instr)
    requires { IsTrue (is_on_thread instr.now) }
    ensures { (t : ℕ) → me.new ≡ record me.old { pending = steps_of image.now t me.old instr.now } }
{
    match instr {
        Instr::Create {
            thread,
            stack,
            size,
            script,
            priority,
            options,
        } => {
            let thread = value_of(&me.registers, thread);
            let stack = value_of(&me.registers, stack);
            let size = value_of(&me.registers, size);
            let script = number_of(script);
            let asked = Creation {
                thread,
                stack,
                size,
                script,
                priority: *priority,
                options: *options,
            };
            create(image, me, &asked);
        }
        Instr::UserMode { script } => {
            let erase = Pending::Erase { stack: me.stack };
            let script = number_of(script);
            privileged(me, &[erase, Pending::EnterUser { script }]);
        }
        Instr::NameSet { thread, addr } => {
            let a = value_of(&me.registers, thread);
            let name = value_of(&me.registers, addr);
            names(image, me, a, name);
        }
        _ => unreachable!(),
    }
}
