//! The texts of acts on objects.

ghost use Rattle.std.specs.Prelude.{◌+◌, ◌*◌, ◌≤◌, ◌++◌, codes, vec_len, vec_capacity};
ghost use Rattle.um_trace.specs.{
  Acts.{object_act_text},
  Room.{Puts},
  Text.{woken_by},
  Words.{any_kind_word, verdict_word},
};
ghost use Rattle.um_vocabulary.specs.Words.{want_word};

use crate::answers::{put_answer, put_wakes};
use crate::heap::put_heap_act;
use crate::indexed::Indexed;
use crate::names::put_on;
use crate::room::{put_short, put_space};
use crate::words::{Said, any_kind_word, put_said};
use um_base::{Act, Errno, Kind, Want};
use um_vocabulary::want_word;

/// The kind and the state that a check wants, and what it says.
fn put_check(room: &mut Vec<u8>, kind: Option<Kind>, want: Want, verdict: Option<Errno>)
    requires { vec_len room.old + 31 ≤ vec_capacity room.old }
    ensures { Puts room.old room.new
        (codes " " ++ any_kind_word kind ++ codes " " ++ want_word want ++ codes " "
        ++ verdict_word verdict) 31 }
{
    put_space(room);
    put_short(room, any_kind_word(kind));
    put_space(room);
    put_short(room, want_word(want));
    put_said(room, Said::Verdict(verdict));
}

/// The text of an act on an object, or of any other that isn't about memory.
#[tactic(auto, unfolding(crate::specs::Acts::object_act_text))]
pub fn put_object_act(room: &mut Vec<u8>, image: &Indexed, act: &Act)
    requires { vec_len room.old + 100 + 64 * woken_by act.now ≤ vec_capacity room.old }
    ensures { Puts room.old room.new (object_act_text image.now act.now) (100 + 64 * woken_by act.now) }
{
    match act {
        Act::Check {
            addr,
            kind,
            want,
            verdict,
        } => {
            put_on(room, image, "check ", *addr);
            put_check(room, *kind, *want, *verdict);
        }
        Act::Work {
            addr,
            answer,
            woken,
        } => {
            put_on(room, image, "act ", *addr);
            put_space(room);
            put_answer(room, image, *answer);
            put_wakes(room, image, woken);
        }
        Act::Publish { addr, given } => {
            put_on(room, image, "public ", *addr);
            put_said(room, Said::Given(*given));
        }
        Act::SetInit { addr, set } => {
            put_on(room, image, "setinit ", *addr);
            put_said(room, Said::Set(*set));
        }
        Act::ClearInit { addr } => put_on(room, image, "uninit ", *addr),
        _ => put_heap_act(room, image, act),
    }
}
