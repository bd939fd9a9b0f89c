//! The words that traces and dumps have besides those of the vocabulary.

ghost use Rattle.std.specs.Prelude.{◌≡◌, ◌+◌, ◌≤◌, ◌++◌, codes, length, vec_len, vec_capacity};
ghost use Rattle.um_trace.specs.{Room.{Puts}, Said.{said_word}, Words.{any_kind_word, cause_word}};

use crate::room::{put_short, put_space};
use um_base::{Cause, Errno, Given, Kind, Leftover, SetSaid};
use um_vocabulary::{errno_word, kind_word};

/// A kind of object, or any.
#[tactic(auto, unfolding(crate::specs::Words::any_kind_word))]
pub fn any_kind_word(kind: Option<Kind>) -> &'static [u8]
    ensures value { result.now ≡ any_kind_word kind }
    ensures short { length result.now ≤ 12 }
{
    match kind {
        None => b"any",
        Some(kind) => kind_word(kind),
    }
}

/// What an act says in a word.
#[derive(Clone, Copy)]
pub enum Said {
    /// What a check says.
    Verdict(Option<Errno>),
    /// Whether a thread may do what it tries with memory.
    Reach(bool),
    /// Whether a pool has the bytes.
    Pool(bool),
    /// Whether an object still stood.
    Given(Given),
    /// Whether a thread lived that is stopped, or goes on.
    Done(bool),
    /// What a dropped permission left.
    Left(Leftover),
    /// What marking an object as initialised said.
    Set(SetSaid),
}

#[tactic(auto, unfolding(crate::specs::Words::verdict_word, crate::specs::Words::reach_word, crate::specs::Words::pool_word, crate::specs::Words::given_word, crate::specs::Words::done_word, crate::specs::Words::leftover_word, crate::specs::Words::set_word,))]
fn said_word(said: Said) -> &'static [u8]
    ensures value { result.now ≡ said_word said }
    ensures short { length result.now ≤ 10 }
{
    match said {
        Said::Verdict(None) => b"ok",
        Said::Verdict(Some(error)) => errno_word(error),
        Said::Reach(true) => b"ok",
        Said::Reach(false) => errno_word(Errno::EFAULT),
        Said::Pool(true) => b"ok",
        Said::Pool(false) => errno_word(Errno::ENOMEM),
        Said::Given(Given::Done) => b"ok",
        Said::Given(Given::Gone) => b"gone",
        Said::Done(true) => b"ok",
        Said::Done(false) => b"none",
        Said::Left(Leftover::Kept) => b"kept",
        Said::Left(Leftover::Gone) => b"gone",
        Said::Left(Leftover::NoPair) => b"none",
        Said::Set(SetSaid::Done) => b"ok",
        Said::Set(SetSaid::Gone) => b"gone",
        Said::Set(SetSaid::Fail(error)) => errno_word(error),
    }
}

/// A space, and what an act says.
pub fn put_said(room: &mut Vec<u8>, said: Said)
    requires { vec_len room.old + 11 ≤ vec_capacity room.old }
    ensures { Puts room.old room.new (codes " " ++ said_word said) 11 }
{
    put_space(room);
    put_short(room, said_word(said));
}

/// Why a thread fails.
#[tactic(auto, unfolding(crate::specs::Words::cause_word))]
pub fn cause_word(cause: Cause) -> &'static [u8]
    ensures value { result.now ≡ cause_word cause }
    ensures short { length result.now ≤ 15 }
{
    match cause {
        Cause::Refused(error) => errno_word(error),
        Cause::Size => b"size",
        Cause::NoUser => b"no_user",
        Cause::Essential => b"essential",
        Cause::Priority => b"priority",
        Cause::PriorityHigher => b"priority_higher",
        Cause::Access => b"access",
        Cause::Privileged => b"privileged",
        Cause::KOops => b"k_oops",
        Cause::KPanic => b"k_panic",
    }
}
