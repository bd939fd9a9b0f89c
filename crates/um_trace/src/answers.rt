//! What acts answer, and whom they wake.

ghost use Rattle.std.specs.{
  Prelude.{◌+◌, ◌*◌, ◌≤◌, length, vec_len, vec_capacity},
  List.{flat_map},
};
ghost use Rattle.um_trace.specs.{Acts.{answer_text, wake_text}, Room.{Puts}};

use crate::indexed::Indexed;
use crate::names::{put_of, put_reply};
use crate::room::{put_space, put_text};
use um_base::{Answer, Replies, Reply, ThreadIx};

/// What an act answers.
#[tactic(auto, unfolding(crate::specs::Acts::answer_text))]
pub fn put_answer(room: &mut Vec<u8>, image: &Indexed, answer: Answer)
    requires { vec_len room.old + 24 ≤ vec_capacity room.old }
    ensures { Puts room.old room.new (answer_text image.now answer) 24 }
{
    match answer {
        Answer::Now(reply) => put_reply(room, image, reply),
        Answer::Wait => put_text(room, "wait"),
    }
}

/// A thread that is woken, with its reply.
#[tactic(auto, unfolding(crate::specs::Acts::wake_text))]
fn put_wake(room: &mut Vec<u8>, image: &Indexed, woken: (ThreadIx, Reply))
    requires { vec_len room.old + 64 ≤ vec_capacity room.old }
    ensures { Puts room.old room.new (wake_text image.now woken) 64 }
{
    put_of(room, image, " wake ", woken.0);
    put_space(room);
    put_reply(room, image, woken.1);
}

/// The threads that an act wakes, in order, each with its reply.
pub fn put_wakes(room: &mut Vec<u8>, image: &Indexed, woken: &Replies)
    requires { vec_len room.old + 64 * length woken.now ≤ vec_capacity room.old }
    ensures { Puts room.old room.new (flat_map (wake_text image.now) woken.now) (64 * length woken.now) }
{
    for i in 0..woken.len() {
        put_wake(room, image, woken.at(i));
    }
}
