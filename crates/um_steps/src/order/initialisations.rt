//! Initialisations of objects.

ghost use Rattle.std.specs.Prelude.{◌≡◌, ◌<◌, ◌≤◌, ◌^◌, ◌*◌, ◌==◌, ◌&&◌, ◌||◌, ◌∷◌, nat_lt, if◌then◌else◌, true, false, None, unwrap_or, IsTrue};
ghost use Rattle.um_base.specs.Lawful.{is_within};
ghost use Rattle.um_base.specs.declared.ask.Ask.TheVariants as AskOf;
ghost use Rattle.um_base.specs.declared.names.Errno.TheVariants as Errno;
ghost use Rattle.um_base.specs.declared.names.Kind.TheVariants as Kind;
ghost use Rattle.um_base.specs.declared.names.Want.TheVariants as Want;
ghost use Rattle.um_machine.specs.declared.pending.Pending.TheVariants as Pending;
ghost use Rattle.um_machine.specs.{
  Limits.{is_sound_ask},
  State.{value_of},
  Order.{needs, work, buffered, answer_error, answer_zero, to_addr},
};

use crate::order::operands::value_of;
use crate::order::steps::{ANSWER_INVALID, ANSWER_ZERO, mark, needs, rounded, turn, work};
use um_base::{Ask, Kind, Term, Want};
use um_machine::{Pending, Pendings, Thread};

/// An initialisation with a buffer of this many bytes.
fn buffered(pending: &mut Pendings, a: u32, kind: Kind, size: u32, ask: &Ask)
    requires few { size < 2 ^ 31 }
    requires sound { IsTrue (is_sound_ask ask.now) }
    ensures { pending.new ≡ buffered a kind true size ask.now }
{
    let buffer = Pending::Buffer {
        size: rounded(size),
    };
    turn(
        pending,
        &[
            needs(a, kind, Want::Uninit),
            buffer,
            work(a, ask),
            mark(a),
            ANSWER_ZERO,
        ],
    );
}

/// An initialisation with a number out of its limits.
fn unbuffered(pending: &mut Pendings, a: u32, kind: Kind)
    ensures { pending.new ≡ needs a kind Want.Uninit ∷ answer_error Errno.EINVAL }
{
    turn(pending, &[needs(a, kind, Want::Uninit), ANSWER_INVALID]);
}

/// Whether a number lies between these, both included.
fn is_within(low: u32, high: u32, n: u32) -> bool
    ensures value { result ≡ is_within low high n }
    ensures most { IsTrue result → n ≤ high }
{
    low <= n && n <= high
}

/// The pool that pays for a buffer.
fn pool_of(pool: Option<u8>) -> u8
    ensures { result ≡ unwrap_or pool 0 }
{
    match pool {
        Some(pool) => pool,
        None => 0,
    }
}

/// An initialisation of a semaphore.
pub fn semaphore(me: &mut Thread, object: &Term, count: &Term, limit: &Term)
    ensures { let x = value_of me.old.registers object.now in
        let count = value_of me.old.registers count.now in
        let limit = value_of me.old.registers limit.now in
        me.new ≡ record me.old {
          pending = needs x Kind.Sem Want.Any
              ∷ (if limit == 0 || nat_lt limit count then answer_error Errno.EINVAL
              else work x (AskOf.SemInit count limit) ∷ Pending.SetInit (to_addr x) false None ∷ answer_zero);
        } }
{
    let x = value_of(&me.registers, object);
    let count = value_of(&me.registers, count);
    let limit = value_of(&me.registers, limit);
    let check = needs(x, Kind::Sem, Want::Any);
    if limit == 0 || limit < count {
        turn(&mut me.pending, &[check, ANSWER_INVALID]);
    } else {
        let init = work(x, &Ask::SemInit { count, limit });
        turn(&mut me.pending, &[check, init, mark(x), ANSWER_ZERO]);
    }
}

/// An initialisation of a mutex.
pub fn mutex(me: &mut Thread, object: &Term)
    ensures { let x = value_of me.old.registers object.now in
        me.new ≡ record me.old {
          pending = needs x Kind.Mutex Want.Any ∷ work x AskOf.MutexInit ∷ Pending.SetInit
              (to_addr x) false None ∷ answer_zero;
        } }
{
    let x = value_of(&me.registers, object);
    let check = needs(x, Kind::Mutex, Want::Any);
    let init = work(x, &Ask::MutexInit);
    turn(&mut me.pending, &[check, init, mark(x), ANSWER_ZERO]);
}

/// An initialisation of a message queue.
pub fn queue(me: &mut Thread, object: &Term, msg_size: &Term, max_msgs: &Term)
    ensures { let size = value_of me.old.registers msg_size.now in
        let most = value_of me.old.registers max_msgs.now in
        me.new ≡ record me.old {
          pending = buffered (value_of me.old.registers object.now) Kind.Msgq
              (is_within 1 256 size && is_within 1 64 most) (size * most)
              (AskOf.MsgqInit size most (unwrap_or me.old.pool 0));
        } }
{
    let x = value_of(&me.registers, object);
    let msg_size = value_of(&me.registers, msg_size);
    let max_msgs = value_of(&me.registers, max_msgs);
    if !is_within(1, 256, msg_size) {
        return unbuffered(&mut me.pending, x, Kind::Msgq);
    }
    if !is_within(1, 64, max_msgs) {
        return unbuffered(&mut me.pending, x, Kind::Msgq);
    }
    let ask = Ask::MsgqInit {
        msg_size,
        max_msgs,
        pool: pool_of(me.pool),
    };
    buffered(&mut me.pending, x, Kind::Msgq, msg_size * max_msgs, &ask);
}

/// An initialisation of a stack.
pub fn stack(me: &mut Thread, object: &Term, entries: &Term)
    ensures { let most = value_of me.old.registers entries.now in
        me.new ≡ record me.old {
          pending = buffered (value_of me.old.registers object.now) Kind.Stack (is_within 1 64 most)
              (4 * most)
              (AskOf.StackInit most (unwrap_or me.old.pool 0));
        } }
{
    let x = value_of(&me.registers, object);
    let entries = value_of(&me.registers, entries);
    if !is_within(1, 64, entries) {
        return unbuffered(&mut me.pending, x, Kind::Stack);
    }
    let ask = Ask::StackInit {
        entries,
        pool: pool_of(me.pool),
    };
    buffered(&mut me.pending, x, Kind::Stack, 4 * entries, &ask);
}

/// An initialisation of a pipe.
pub fn pipe(me: &mut Thread, object: &Term, size: &Term)
    ensures { let size = value_of me.old.registers size.now in
        me.new ≡ record me.old {
          pending = buffered (value_of me.old.registers object.now) Kind.Pipe (is_within 1 256 size) size
              (AskOf.PipeInit size (unwrap_or me.old.pool 0));
        } }
{
    let x = value_of(&me.registers, object);
    let size = value_of(&me.registers, size);
    if !is_within(1, 256, size) {
        return unbuffered(&mut me.pending, x, Kind::Pipe);
    }
    let ask = Ask::PipeInit {
        size,
        pool: pool_of(me.pool),
    };
    buffered(&mut me.pending, x, Kind::Pipe, size, &ask);
}
