//! Calls on semaphores, mutexes, message queues, stacks and pipes.

ghost use Rattle.std.specs.Prelude.{◌≡◌, ℕ, IsTrue};
ghost use Rattle.um_base.specs.declared.image.Image.{Image};
ghost use Rattle.um_machine.specs.declared.pending.Amount.TheVariants as Amount;
ghost use Rattle.um_machine.specs.{State.{value_of}, Order.{steps_of, to_addr}};
ghost use Rattle.um_steps.specs.Subjects.{is_service};

use crate::order::calls::{counts, gives, simple, takes, waits};
use crate::order::initialisations::{mutex, pipe, queue, semaphore, stack};
use crate::order::operands::value_of;
use um_base::{Addr, Ask, Instr, Kind, Term, Timeout};
use um_machine::{Amount, Thread};

/// The size of a message of the queue at an address.
fn message_of(registers: &[u32], object: &Term) -> Amount
    ensures { result ≡ Amount.MessageOf (to_addr (value_of registers.now object.now)) }
{
    Amount::MessageOf(Addr(value_of(registers, object)))
}

/// A thread goes on with the steps of a call of a service.
pub fn begins(me: &mut Thread, instr: &Instr)
    requires { IsTrue (is_service instr.now) }
    ensures { (image : Image) (t : ℕ)
        → me.new ≡ record me.old { pending = steps_of image t me.old instr.now } }
{
    match instr {
        Instr::SemInit {
            object,
            count,
            limit,
        } => semaphore(me, object, count, limit),
        Instr::SemTake { object, timeout } => {
            let ask = Ask::SemTake { timeout: *timeout };
            waits(me, object, Kind::Sem, *timeout, &ask);
        }
        Instr::SemGive { object } => simple(me, object, Kind::Sem, &Ask::SemGive),
        Instr::SemReset { object } => simple(me, object, Kind::Sem, &Ask::SemReset),
        Instr::SemCount { object, to } => counts(me, object, Kind::Sem, &Ask::SemCount, *to),
        Instr::MutexInit { object } => mutex(me, object),
        Instr::MutexLock { object, timeout } => {
            let ask = Ask::MutexLock { timeout: *timeout };
            waits(me, object, Kind::Mutex, *timeout, &ask);
        }
        Instr::MutexUnlock { object } => simple(me, object, Kind::Mutex, &Ask::MutexUnlock),
        Instr::MsgqInit {
            object,
            msg_size,
            max_msgs,
        } => queue(me, object, msg_size, max_msgs),
        Instr::MsgqPut {
            object,
            addr,
            timeout,
        } => {
            let amount = message_of(&me.registers, object);
            let ask = Ask::MsgqPut { timeout: *timeout };
            gives(me, object, Kind::Msgq, addr, amount, *timeout, &ask);
        }
        Instr::MsgqGet {
            object,
            addr,
            timeout,
        } => {
            let amount = message_of(&me.registers, object);
            let ask = Ask::MsgqGet { timeout: *timeout };
            takes(me, object, Kind::Msgq, addr, amount, *timeout, &ask);
        }
        Instr::MsgqPeek { object, addr } => {
            let amount = message_of(&me.registers, object);
            takes(
                me,
                object,
                Kind::Msgq,
                addr,
                amount,
                Timeout::NoWait,
                &Ask::MsgqPeek,
            );
        }
        Instr::MsgqPurge { object } => simple(me, object, Kind::Msgq, &Ask::MsgqPurge),
        Instr::MsgqUsed { object, to } => counts(me, object, Kind::Msgq, &Ask::MsgqUsed, *to),
        Instr::StackInit { object, entries } => stack(me, object, entries),
        Instr::StackPush { object, value } => {
            let value = value_of(&me.registers, value);
            simple(me, object, Kind::Stack, &Ask::StackPush { value });
        }
        Instr::StackPop {
            object,
            addr,
            timeout,
        } => {
            let ask = Ask::StackPop { timeout: *timeout };
            takes(
                me,
                object,
                Kind::Stack,
                addr,
                Amount::Bytes(4),
                *timeout,
                &ask,
            );
        }
        Instr::PipeInit { object, size } => pipe(me, object, size),
        Instr::PipeWrite {
            object,
            addr,
            length,
            timeout,
        } => {
            let length = value_of(&me.registers, length);
            let ask = Ask::PipeWrite {
                length,
                timeout: *timeout,
            };
            gives(
                me,
                object,
                Kind::Pipe,
                addr,
                Amount::Bytes(length),
                *timeout,
                &ask,
            );
        }
        Instr::PipeRead {
            object,
            addr,
            length,
            timeout,
        } => {
            let length = value_of(&me.registers, length);
            let ask = Ask::PipeRead {
                length,
                timeout: *timeout,
            };
            takes(
                me,
                object,
                Kind::Pipe,
                addr,
                Amount::Bytes(length),
                *timeout,
                &ask,
            );
        }
        Instr::PipeReset { object } => simple(me, object, Kind::Pipe, &Ask::PipeReset),
        Instr::PipeClose { object } => simple(me, object, Kind::Pipe, &Ask::PipeClose),
        _ => unreachable!(),
    }
}
