//! Single steps, and lists of them.

ghost use Rattle.std.specs.{
  Prelude.{◌≡◌, ◌≤◌, ◌+◌, ◌<◌, ◌^◌, length, false, IsTrue, None, Some},
  List.{list_all},
};
ghost use Rattle.um_machine.specs.{
  Limits.{is_sound},
  Order.{needs, needs_any, needs_thread, arms, work, rounded, refusal_reason, to_addr},
};

use um_base::{Addr, Ask, Errno, Kind, Mode, Reply, Timeout, Want};
use um_machine::{Pending, Pendings, Refusal};

/// The answer that was worked out.
pub const ANSWER: Pending = Pending::Answer {
    reply: None,
    to: None,
};

/// The answer `void`.
pub const ANSWER_VOID: Pending = Pending::Answer {
    reply: Some(Reply::Void),
    to: None,
};

/// The answer 0.
pub const ANSWER_ZERO: Pending = Pending::Answer {
    reply: Some(Reply::Num(0)),
    to: None,
};

/// The answer EINVAL.
pub const ANSWER_INVALID: Pending = Pending::Answer {
    reply: Some(Reply::Fail(Errno::EINVAL)),
    to: None,
};

/// Leaves these steps alone.
#[tactic(auto, using(crate::proofs::OrderLemmas::sound_step))]
pub fn turn(pending: &mut Pendings, steps: &[Pending])
    requires few { length steps.now ≤ 12 }
    requires sound { IsTrue (list_all is_sound steps.now) }
    ensures { pending.new ≡ steps.now }
{
    pending.clear();
    let mut i = steps.len();
    while i > 0 {
        i -= 1;
        pending.push(&steps[i]);
    }
}

/// With a number of ticks a call arms its deadline before the next steps, of which at most 3 are left.
pub fn arms(pending: &mut Pendings, timeout: Timeout)
    requires { length pending.old ≤ 3 }
    ensures steps { pending.new ≡ arms timeout pending.old }
    ensures few { length pending.new ≤ 4 }
{
    if let Timeout::Ticks(ticks) = timeout {
        pending.push(&Pending::Arm { ticks });
    }
}

/// The check of an object that a call needs.
pub fn needs(a: u32, kind: Kind, want: Want) -> Pending
    ensures { result ≡ needs a kind want }
{
    Pending::Check {
        addr: Addr(a),
        kind: Some(kind),
        want,
        refusal: Refusal::Fails,
    }
}

/// The check of an object of any kind whose permissions change.
pub fn needs_any(a: u32) -> Pending
    ensures { result ≡ needs_any a }
{
    Pending::Check {
        addr: Addr(a),
        kind: None,
        want: Want::Any,
        refusal: Refusal::FailsUser,
    }
}

/// The check of a thread object that is initialised, and what follows where it isn't.
pub fn needs_thread(a: u32, refusal: Refusal) -> Pending
    ensures { result ≡ needs_thread a refusal }
{
    Pending::Check {
        addr: Addr(a),
        kind: Some(Kind::Thread),
        want: Want::Init,
        refusal,
    }
}

/// Work on an object.
pub fn work(a: u32, ask: &Ask) -> Pending
    ensures { result ≡ work a ask.now }
{
    Pending::Work {
        addr: Addr(a),
        ask: *ask,
    }
}

/// The mark of an object that a call has initialised.
pub fn mark(a: u32) -> Pending
    ensures { result ≡ Pending.SetInit (to_addr a) false None }
{
    Pending::SetInit {
        addr: Addr(a),
        strict: false,
        undo: None,
    }
}

/// The answer that was worked out, which is also written to a register.
pub fn answer_to(to: u8) -> Pending
    ensures { result ≡ Pending.Answer None (Some to) }
{
    Pending::Answer {
        reply: None,
        to: Some(to),
    }
}

/// Bytes of a buffer as a pool counts them.
pub fn rounded(n: u32) -> u32
    requires { n < 2 ^ 31 }
    ensures { result ≡ rounded n }
{
    (n + 7) / 8 * 8
}

/// The reason of a refused call.
pub fn refusal_reason(mode: Mode) -> u8
    ensures { result ≡ refusal_reason mode }
{
    match mode {
        Mode::User => 3,
        Mode::Supervisor => 4,
    }
}
