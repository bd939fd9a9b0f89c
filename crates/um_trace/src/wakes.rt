//! The texts of acts that wake threads without a call on an object, and of calls on futexes.

ghost use Rattle.std.specs.Prelude.{◌+◌, ◌*◌, ◌≤◌, vec_len, vec_capacity};
ghost use Rattle.um_trace.specs.{Acts.{wake_act_text}, Room.{Puts}, Text.{woken_by}};

use crate::answers::{put_answer, put_wakes};
use crate::indexed::Indexed;
use crate::names::{put_of, put_on};
use crate::objects::put_object_act;
use crate::room::{put_address, put_space, put_text, put_value};
use um_base::Act;

/// The text of such an act, or of any other that isn't about memory.
#[tactic(auto, unfolding(crate::specs::Acts::wake_act_text))]
pub fn put_wake_act(room: &mut Vec<u8>, image: &Indexed, act: &Act)
    requires { vec_len room.old + 100 + 64 * woken_by act.now ≤ vec_capacity room.old }
    ensures { Puts room.old room.new (wake_act_text image.now act.now) (100 + 64 * woken_by act.now) }
{
    match act {
        Act::Expire { addr, woken } => {
            put_on(room, image, "expire ", *addr);
            put_wakes(room, image, woken);
        }
        Act::Left { who, woken } => {
            put_of(room, image, "left ", *who);
            put_wakes(room, image, woken);
        }
        Act::FutexWait {
            addr,
            value,
            answer,
        } => {
            put_text(room, "futex wait ");
            put_address(room, *addr);
            put_space(room);
            put_value(room, *value);
            put_space(room);
            put_answer(room, image, *answer);
        }
        Act::FutexWake {
            addr,
            answer,
            woken,
        } => {
            put_text(room, "futex wake ");
            put_address(room, *addr);
            put_space(room);
            put_answer(room, image, *answer);
            put_wakes(room, image, woken);
        }
        _ => put_object_act(room, image, act),
    }
}
