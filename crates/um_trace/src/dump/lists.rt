//! Lists with commas, and shares.

ghost use Rattle.std.specs.Prelude.{◌≡◌, ◌+◌, ◌≤◌, vec_len, vec_capacity};
ghost use Rattle.um_trace.specs.{Dump.{lead, share_text}, Room.{Puts}};

use crate::room::{put_decimal, put_text};

/// What stands before a piece of a list: a comma, but before the first nothing.
pub fn put_lead(room: &mut Vec<u8>, first: bool)
    requires { vec_len room.old + 1 ≤ vec_capacity room.old }
    ensures { Puts room.old room.new (lead first) 1 }
{
    if !first {
        put_text(room, ",");
    }
}

/// A share: a count, and the number that it is out of.
#[tactic(auto, unfolding(crate::specs::Dump::share_text))]
pub fn put_share(room: &mut Vec<u8>, part: u32, whole: u32)
    requires { vec_len room.old + 21 ≤ vec_capacity room.old }
    ensures { Puts room.old room.new (share_text part whole) 21 }
{
    put_decimal(room, part);
    put_text(room, "/");
    put_decimal(room, whole);
}
