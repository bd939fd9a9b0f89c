//! What follows a refusal, a copy that isn't allowed, or an error.

ghost use Rattle.std.specs.Prelude.{◌≡◌, ◌∷◌, [], drop, Some, IsTrue};
ghost use Rattle.um_base.specs.declared.act.Cause.TheVariants as Cause;
ghost use Rattle.um_machine.specs.{
  Goes.{at_steps, checked_way, error_way, steps_by},
  Limits.{IsSound, is_sound_ask},
  Order.{Steps, refuses, copy_fails, answer_error, to_deadline},
};

use crate::order::steps::{refusal_reason, rounded};
use um_base::{Ask, Cause, Errno, Image, Mode, Reply};
use um_machine::{Pending, Pendings, Refusal, Thread};

/// The end of a call that is refused.
pub fn refuses(mode: Mode, cause: Cause) -> Pending
    ensures value { refuses mode cause ≡ result ∷ [] }
    ensures sound { IsSound result }
{
    Pending::Fatal {
        reason: refusal_reason(mode),
        cause,
    }
}

/// What follows a copy that isn't allowed.
pub fn copy_fails(mode: Mode) -> Pending
    ensures value { copy_fails mode ≡ result ∷ [] }
    ensures sound { IsSound result }
{
    match mode {
        Mode::User => Pending::Fatal {
            reason: 3,
            cause: Cause::Refused(Errno::EFAULT),
        },
        Mode::Supervisor => Pending::Fatal {
            reason: 0,
            cause: Cause::Access,
        },
    }
}

/// The answer of an error.
pub fn answer_error(error: Errno) -> Pending
    ensures value { answer_error error ≡ result ∷ [] }
    ensures sound { IsSound result }
{
    Pending::Answer {
        reply: Some(Reply::Fail(error)),
        to: None,
    }
}

/// What follows a check that isn't ok.
pub fn refused(mode: Mode, refusal: Refusal, error: Errno) -> Pending
    ensures value { (left : Steps) → steps_by left (checked_way mode refusal (Some error)) ≡ result ∷ [] }
    ensures sound { IsSound result }
{
    match refusal {
        Refusal::Fails => refuses(mode, Cause::Refused(error)),
        Refusal::FailsUser => match mode {
            Mode::User => refuses(mode, Cause::Refused(error)),
            Mode::Supervisor => Pending::Answer {
                reply: Some(Reply::Void),
                to: None,
            },
        },
        Refusal::Answers(reply) => Pending::Answer {
            reply: Some(reply),
            to: None,
        },
        Refusal::AnswersUninit(reply) => match error {
            Errno::EINVAL => Pending::Answer {
                reply: Some(reply),
                to: None,
            },
            _ => refuses(mode, Cause::Refused(error)),
        },
    }
}

/// A timer is started next to the deadline that was armed.
#[inline(never)]
pub fn runs_to(pending: &mut Pendings, deadline: u64)
    ensures { pending.new ≡ to_deadline deadline pending.old }
{
    if let Some(
        Pending::Work {
            addr,
            ask: Ask::TimerStart { .. },
        },
    ) = pending.first()
    {
        pending.replace(&Pending::Work {
            addr,
            ask: Ask::TimerStart { deadline },
        });
    }
}

/// The buffer of an initialisation that was refused is given back.
#[inline(never)]
fn gives_back(me: &mut Thread, size: u32, error: Errno)
    ensures { me.new ≡ record me.old {
      pending = Pending.Unbuffer size ∷ refuses me.old.mode
          (Cause.Refused error);
    } }
{
    me.turns_to(&refuses(me.mode, Cause::Refused(error)));
    me.pending.push(&Pending::Unbuffer { size });
}

/// What follows work that answered an error.
#[inline(never)]
pub fn after_error(image: &Image, me: &mut Thread, ask: &Ask, error: Errno, taken: usize)
    requires { IsTrue (is_sound_ask ask.now) }
    ensures { me.new ≡ at_steps image.now me.old
        (steps_by (drop taken me.old.pending) (error_way me.old.mode ask.now error)) }
{
    match ask {
        Ask::SemInit { .. } | Ask::MutexInit => {
            me.turns_to(&refuses(me.mode, Cause::Refused(error)));
        }
        Ask::MsgqInit {
            msg_size,
            max_msgs,
            ..
        } => gives_back(me, rounded(*msg_size * *max_msgs), error),
        Ask::StackInit { entries, .. } => gives_back(me, rounded(4 * *entries), error),
        Ask::PipeInit { size, .. } => gives_back(me, rounded(*size), error),
        _ => me.skips_copy(image, taken),
    }
}
