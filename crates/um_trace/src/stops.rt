//! The texts of acts that stop other threads, and of threads that are stopped or wait for an end.

ghost use Rattle.std.specs.Prelude.{◌+◌, ◌≤◌, vec_len, vec_capacity};
ghost use Rattle.um_trace.specs.{Acts.{stop_act_text}, Room.{Puts}};

use crate::answers::put_answer;
use crate::indexed::Indexed;
use crate::names::put_of;
use crate::room::{put_space, put_text};
use crate::words::{Said, put_said};
use um_base::Act;

/// The text of such an act. Of any other it puts nothing.
#[tactic(auto, unfolding(crate::specs::Acts::stop_act_text))]
pub fn put_stop_act(room: &mut Vec<u8>, image: &Indexed, act: &Act)
    requires { vec_len room.old + 100 ≤ vec_capacity room.old }
    ensures { Puts room.old room.new (stop_act_text image.now act.now) 100 }
{
    match act {
        Act::Abort { who, done } => {
            put_of(room, image, "abort ", *who);
            put_said(room, Said::Done(*done));
        }
        Act::Suspend { who, done } => {
            put_of(room, image, "suspend ", *who);
            put_said(room, Said::Done(*done));
        }
        Act::Continue { who, done } => {
            put_of(room, image, "continue ", *who);
            put_said(room, Said::Done(*done));
        }
        Act::Cut { who } => put_of(room, image, "cut ", *who),
        Act::Killed => put_text(room, "killed"),
        Act::Join { who, answer } => {
            put_of(room, image, "join ", *who);
            put_space(room);
            put_answer(room, image, *answer);
        }
        _ => {}
    }
}
