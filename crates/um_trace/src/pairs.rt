//! The texts of acts on permissions.

ghost use Rattle.std.specs.Prelude.{◌+◌, ◌≤◌, vec_len, vec_capacity};
ghost use Rattle.um_trace.specs.{Acts.{pair_act_text}, Room.{Puts}};

use crate::domains::put_domain_act;
use crate::indexed::Indexed;
use crate::names::{put_of, put_on};
use crate::words::{Said, put_said};
use um_base::Act;

/// The text of an act on permissions, on a domain, or of what a thread does by itself. Of any other it puts nothing.
#[tactic(auto, unfolding(crate::specs::Acts::pair_act_text))]
pub fn put_pair_act(room: &mut Vec<u8>, image: &Indexed, act: &Act)
    requires { vec_len room.old + 100 ≤ vec_capacity room.old }
    ensures { Puts room.old room.new (pair_act_text image.now act.now) 100 }
{
    match act {
        Act::Grant { who, addr, given } => {
            put_of(room, image, "grant ", *who);
            put_on(room, image, " ", *addr);
            put_said(room, Said::Given(*given));
        }
        Act::Own { who, given } => {
            put_of(room, image, "own ", *who);
            put_said(room, Said::Given(*given));
        }
        Act::Inherit { who, addr } => {
            put_of(room, image, "inherit ", *who);
            put_on(room, image, " ", *addr);
        }
        Act::DropPair { who, addr, left } => {
            put_of(room, image, "drop ", *who);
            put_on(room, image, " ", *addr);
            put_said(room, Said::Left(*left));
        }
        _ => put_domain_act(room, image, act),
    }
}
