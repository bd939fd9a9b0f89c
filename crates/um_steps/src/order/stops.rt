//! Calls that abort, suspend or resume a thread, or wait for its end.

ghost use Rattle.std.specs.Prelude.{◌≡◌, ◌<◌, ◌∷◌, IsTrue};
ghost use Rattle.um_base.specs.Places.{thread_of_addr};
ghost use Rattle.um_base.specs.declared.names.Reply.TheVariants as Reply;
ghost use Rattle.um_machine.specs.declared.pending.Pending.TheVariants as Pending;
ghost use Rattle.um_machine.specs.declared.pending.Refusal.TheVariants as Refusal;
ghost use Rattle.um_machine.specs.Order.{steps_of, aborts, answer, arms, needs_thread, to_thread};
ghost use Rattle.um_steps.specs.Subjects.{is_on_life};

use crate::order::operands::{thread_of_addr, value_of};
use crate::order::steps::{ANSWER, ANSWER_VOID, arms, needs, needs_thread, turn};
use um_base::{Image, Instr, Kind, Reply, THREADS, Timeout, Want};
use um_machine::{Pending, Refusal, Thread};

/// The thread at an address is aborted: the caller ends at once where it is the one.
fn aborts(image: &Image, t: usize, me: &mut Thread, a: u32)
    requires { t < THREADS }
    ensures { me.new ≡ record me.old {
      pending = needs_thread a (Refusal.AnswersUninit Reply.Void)
          ∷ aborts t (thread_of_addr image.now a);
    } }
{
    let check = needs_thread(a, Refusal::AnswersUninit(Reply::Void));
    let who = thread_of_addr(image, a);
    let abort = Pending::Abort { who };
    if who.0 as usize == t {
        turn(&mut me.pending, &[check, abort, Pending::Killed]);
    } else {
        turn(&mut me.pending, &[check, abort, ANSWER_VOID]);
    }
}

/// The end of the thread at an address is awaited.
fn joins(image: &Image, me: &mut Thread, a: u32, timeout: Timeout)
    ensures { me.new ≡ record me.old {
      pending = needs_thread a (Refusal.AnswersUninit (Reply.Num 0))
          ∷ arms timeout (Pending.Join (to_thread (thread_of_addr image.now a)) timeout ∷ answer);
    } }
{
    let who = thread_of_addr(image, a);
    turn(&mut me.pending, &[Pending::Join { who, timeout }, ANSWER]);
    arms(&mut me.pending, timeout);
    let check = needs_thread(a, Refusal::AnswersUninit(Reply::Num(0)));
    me.pending.push(&check);
}

/// A thread goes on with the steps of a call on the life of a thread.
pub fn begins(image: &Image, t: usize, me: &mut Thread, instr: &Instr)
    requires thread { t < THREADS }
    requires subject { IsTrue (is_on_life instr.now) }
    ensures { me.new ≡ record me.old { pending = steps_of image.now t me.old instr.now } }
{
    match instr {
        Instr::Abort { thread } => {
            let a = value_of(&me.registers, thread);
            aborts(image, t, me, a);
        }
        Instr::Join { thread, timeout } => {
            let a = value_of(&me.registers, thread);
            joins(image, me, a, *timeout);
        }
        Instr::Suspend { thread } => {
            let a = value_of(&me.registers, thread);
            let suspend = Pending::Suspend {
                who: thread_of_addr(image, a),
            };
            turn(
                &mut me.pending,
                &[needs(a, Kind::Thread, Want::Init), suspend, ANSWER_VOID],
            );
        }
        Instr::Continue { thread } => {
            let a = value_of(&me.registers, thread);
            let resume = Pending::Continue {
                who: thread_of_addr(image, a),
            };
            turn(
                &mut me.pending,
                &[needs(a, Kind::Thread, Want::Init), resume, ANSWER_VOID],
            );
        }
        _ => unreachable!(),
    }
}
