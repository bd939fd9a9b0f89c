//! The forms that the calls of several subjects share.

ghost use Rattle.std.specs.{Prelude.{◌≡◌, ◌≤◌, ◌∷◌, length, IsTrue}, List.{list_all}};
ghost use Rattle.um_base.specs.declared.names.Want.TheVariants as Want;
ghost use Rattle.um_machine.specs.declared.pending.Pending.TheVariants as Pending;
ghost use Rattle.um_machine.specs.{
  State.{value_of},
  Limits.{is_sound, is_sound_ask},
  Order.{privileged, needs, work, simple, waits, arms, answer, answer_to, to_addr},
};

use crate::order::operands::value_of;
use crate::order::steps::{ANSWER, answer_to, arms, needs, turn, work};
use um_base::{Addr, Ask, Cause, Kind, Mode, Term, Timeout, Want};
use um_machine::{Amount, Pending, Thread};

/// What only a supervisor may do.
pub fn privileged(me: &mut Thread, steps: &[Pending])
    requires few { length steps.now ≤ 12 }
    requires sound { IsTrue (list_all is_sound steps.now) }
    ensures { me.new ≡ record me.old { pending = privileged me.old.mode steps.now } }
{
    match me.mode {
        Mode::User => me.turns_to(&Pending::Fatal {
            reason: 0,
            cause: Cause::Privileged,
        }),
        Mode::Supervisor => turn(&mut me.pending, steps),
    }
}

/// A check of an initialised object, and work on it.
pub fn simple(me: &mut Thread, object: &Term, kind: Kind, ask: &Ask)
    requires { IsTrue (is_sound_ask ask.now) }
    ensures { me.new ≡ record me.old {
      pending = simple
          (value_of me.old.registers object.now) kind ask.now;
    } }
{
    let x = value_of(&me.registers, object);
    turn(
        &mut me.pending,
        &[needs(x, kind, Want::Init), work(x, ask), ANSWER],
    );
}

/// The same of work that may wait.
pub fn waits(me: &mut Thread, object: &Term, kind: Kind, timeout: Timeout, ask: &Ask)
    requires { IsTrue (is_sound_ask ask.now) }
    ensures { me.new ≡ record me.old {
      pending = waits
          (value_of me.old.registers object.now) kind timeout ask.now;
    } }
{
    let x = value_of(&me.registers, object);
    turn(&mut me.pending, &[work(x, ask), ANSWER]);
    arms(&mut me.pending, timeout);
    me.pending.push(&needs(x, kind, Want::Init));
}

/// Work that doesn't wait, with a register that the answer is written to.
pub fn counts(me: &mut Thread, object: &Term, kind: Kind, ask: &Ask, to: u8)
    requires { IsTrue (is_sound_ask ask.now) }
    ensures { let x = value_of me.old.registers object.now in
        me.new ≡ record me.old { pending = needs x kind Want.Init ∷ work x ask.now ∷ answer_to to } }
{
    let x = value_of(&me.registers, object);
    turn(
        &mut me.pending,
        &[needs(x, kind, Want::Init), work(x, ask), answer_to(to)],
    );
}

/// Work that gives bytes, which are copied in before it.
pub fn gives(
    me: &mut Thread,
    object: &Term,
    kind: Kind,
    addr: &Term,
    amount: Amount,
    timeout: Timeout,
    ask: &Ask,
)
    requires { IsTrue (is_sound_ask ask.now) }
    ensures { let x = value_of me.old.registers object.now in
        me.new ≡ record me.old {
          pending = needs x kind Want.Init ∷ Pending.CopyIn
              (to_addr (value_of me.old.registers addr.now)) amount ∷ arms timeout (work x ask.now ∷ answer);
        } }
{
    let x = value_of(&me.registers, object);
    let copy = Pending::CopyIn {
        addr: Addr(value_of(&me.registers, addr)),
        amount,
    };
    turn(&mut me.pending, &[work(x, ask), ANSWER]);
    arms(&mut me.pending, timeout);
    me.pending.push(&copy);
    me.pending.push(&needs(x, kind, Want::Init));
}

/// Work that takes bytes, which are copied out to a buffer.
pub fn takes(
    me: &mut Thread,
    object: &Term,
    kind: Kind,
    addr: &Term,
    amount: Amount,
    timeout: Timeout,
    ask: &Ask,
)
    requires { IsTrue (is_sound_ask ask.now) }
    ensures { let x = value_of me.old.registers object.now in
        let a = to_addr (value_of me.old.registers addr.now) in
        me.new ≡ record me.old {
          pending = needs x kind Want.Init ∷ Pending.Probe a amount
              ∷ arms timeout (work x ask.now ∷ Pending.CopyOut a ∷ answer);
        } }
{
    let x = value_of(&me.registers, object);
    let addr = Addr(value_of(&me.registers, addr));
    let probe = Pending::Probe { addr, amount };
    let copy = Pending::CopyOut { addr };
    turn(&mut me.pending, &[work(x, ask), copy, ANSWER]);
    arms(&mut me.pending, timeout);
    me.pending.push(&probe);
    me.pending.push(&needs(x, kind, Want::Init));
}
