//! The texts of acts of virtual time.

ghost use Rattle.std.specs.Prelude.{◌+◌, ◌≤◌, vec_len, vec_capacity};
ghost use Rattle.um_trace.specs.{Acts.{time_act_text}, Room.{Puts}};

use crate::indexed::Indexed;
use crate::names::put_of;
use crate::room::{put_text, put_ticks};
use crate::stops::put_stop_act;
use um_base::Act;

/// The text of such an act, or of one that stops a thread.
#[tactic(auto, unfolding(crate::specs::Acts::time_act_text))]
pub fn put_time_act(room: &mut Vec<u8>, image: &Indexed, act: &Act)
    requires { vec_len room.old + 100 ≤ vec_capacity room.old }
    ensures { Puts room.old room.new (time_act_text image.now act.now) 100 }
{
    match act {
        Act::Arm { deadline } => {
            put_text(room, "arm ");
            put_ticks(room, *deadline);
        }
        Act::Tick { now } => {
            put_text(room, "tick ");
            put_ticks(room, *now);
        }
        Act::TimedOut { who } => put_of(room, image, "timeout ", *who),
        _ => put_stop_act(room, image, act),
    }
}
