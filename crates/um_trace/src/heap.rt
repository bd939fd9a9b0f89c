//! The texts of acts on the heap of dynamic objects and buffers.

ghost use Rattle.std.specs.Prelude.{◌+◌, ◌≤◌, ◌++◌, codes, vec_len, vec_capacity};
ghost use Rattle.um_trace.specs.{Acts.{reserved_text, heap_act_text}, Room.{Puts}};
ghost use Rattle.um_vocabulary.specs.Words.{kind_word};

use crate::indexed::Indexed;
use crate::names::put_on;
use crate::pairs::put_pair_act;
use crate::room::{put_numbered, put_short, put_text};
use crate::words::{Said, put_said};
use um_base::{Act, Addr, Kind};
use um_vocabulary::kind_word;

/// The kind of a new object with its address, or none.
#[tactic(auto, unfolding(crate::specs::Acts::reserved_text))]
fn put_reserved(room: &mut Vec<u8>, image: &Indexed, kind: Kind, addr: Option<Addr>)
    requires { vec_len room.old + 45 ≤ vec_capacity room.old }
    ensures { Puts room.old room.new
        (codes "reserve " ++ kind_word kind ++ codes " " ++ reserved_text image.now addr) 45 }
{
    put_text(room, "reserve ");
    put_short(room, kind_word(kind));
    match addr {
        Some(addr) => put_on(room, image, " ", addr),
        None => put_text(room, " NULL"),
    }
}

/// The text of an act on the heap, on permissions, on a domain, or of what a thread does by itself. Of any other it puts nothing.
#[tactic(auto, unfolding(crate::specs::Acts::heap_act_text))]
pub fn put_heap_act(room: &mut Vec<u8>, image: &Indexed, act: &Act)
    requires { vec_len room.old + 100 ≤ vec_capacity room.old }
    ensures { Puts room.old room.new (heap_act_text image.now act.now) 100 }
{
    match act {
        Act::Reserve { kind, addr } => put_reserved(room, image, *kind, *addr),
        Act::Born { addr } => put_on(room, image, "born ", *addr),
        Act::Buffer { size, fits } => {
            put_numbered(room, "buffer ", *size);
            put_said(room, Said::Pool(*fits));
        }
        Act::Unbuffer { size } => put_numbered(room, "unbuffer ", *size),
        Act::Recycle { addr } => put_on(room, image, "recycle ", *addr),
        _ => put_pair_act(room, image, act),
    }
}
