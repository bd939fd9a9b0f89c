//! Calls on objects of any kind: which are made, and who may use them.

ghost use Rattle.std.specs.Prelude.{◌≡◌, ◌<◌, ◌∷◌, IsTrue};
ghost use Rattle.um_base.specs.Places.{thread_of_addr};
ghost use Rattle.um_base.specs.declared.names.Kind.TheVariants as Kind;
ghost use Rattle.um_base.specs.declared.names.Want.TheVariants as Want;
ghost use Rattle.um_machine.specs.declared.pending.Pending.TheVariants as Pending;
ghost use Rattle.um_machine.specs.Order.{steps_of, privileged, needs, needs_any, answer_void, to_addr, to_thread};
ghost use Rattle.um_steps.specs.Subjects.{is_on_object};

use crate::order::calls::privileged;
use crate::order::operands::{thread_of_addr, value_of};
use crate::order::steps::{ANSWER_VOID, answer_to, needs, needs_any, turn};
use um_base::{Addr, Image, Instr, Kind, THREADS, ThreadIx, Want};
use um_machine::{Pending, Thread};

/// A thread is given permission on an object.
fn grants(image: &Image, me: &mut Thread, x: u32, a: u32)
    ensures { me.new ≡ record me.old {
      pending = needs a Kind.Thread Want.Any ∷ needs_any x ∷ Pending.Grant
          (to_thread (thread_of_addr image.now a)) (to_addr x) ∷ answer_void;
    } }
{
    let check = needs(a, Kind::Thread, Want::Any);
    let grant = Pending::Grant {
        who: thread_of_addr(image, a),
        addr: Addr(x),
    };
    turn(&mut me.pending, &[check, needs_any(x), grant, ANSWER_VOID]);
}

/// A thread's permission on an object is taken.
fn revokes(image: &Image, me: &mut Thread, x: u32, a: u32)
    ensures { me.new ≡ record me.old {
      pending = privileged me.old.mode (needs a Kind.Thread Want.Any ∷ needs_any x
          ∷ Pending.DropPair (to_thread (thread_of_addr image.now a)) (to_addr x) ∷ answer_void);
    } }
{
    let check = needs(a, Kind::Thread, Want::Any);
    let drops = Pending::DropPair {
        who: thread_of_addr(image, a),
        addr: Addr(x),
    };
    privileged(me, &[check, needs_any(x), drops, ANSWER_VOID]);
}

/// A thread goes on with the steps of a call on an object of any kind.
pub fn begins(image: &Image, t: usize, me: &mut Thread, instr: &Instr)
    requires thread { t < THREADS }
    requires subject { IsTrue (is_on_object instr.now) }
    ensures { me.new ≡ record me.old { pending = steps_of image.now t me.old instr.now } }
{
    let v = me.registers;
    match instr {
        Instr::ObjectAlloc { kind, to } => {
            let reserve = Pending::Reserve { kind: *kind };
            turn(&mut me.pending, &[reserve, answer_to(*to)]);
        }
        Instr::Grant { object, thread } => {
            grants(image, me, value_of(&v, object), value_of(&v, thread));
        }
        Instr::Revoke { object, thread } => {
            revokes(image, me, value_of(&v, object), value_of(&v, thread));
        }
        Instr::Release { object } => {
            let x = value_of(&v, object);
            let drops = Pending::DropPair {
                who: ThreadIx(t as u8),
                addr: Addr(x),
            };
            turn(&mut me.pending, &[needs_any(x), drops, ANSWER_VOID]);
        }
        Instr::AllGrant { object } => {
            let x = value_of(&v, object);
            let publish = Pending::Publish { addr: Addr(x) };
            privileged(me, &[needs_any(x), publish, ANSWER_VOID]);
        }
        _ => unreachable!(),
    }
}
