//! The dump of a state.

ghost use Rattle.std.specs.Prelude.{◌+◌, ◌≤◌, vec_len, vec_capacity};
ghost use Rattle.um_trace.specs.{Dump.{dump}, Room.{Puts}};

mod domains;
mod lists;
mod memory;
mod objects;
pub mod standing;
mod state;
pub mod threads;

use crate::indexed::Indexed;
use crate::room::put_text;
use um_base::{PARTITION_AREA, STACK_AREA};
use um_steps::Dumped;

/// How many bytes a dump takes at most.
pub const DUMP_ROOM: usize = 3_000_000;

/// The dump of a state: threads, objects, domains, pools and memory.
#[tactic(auto, unfolding(crate::specs::Dump::dump))]
pub fn put_dump<D: Dumped>(room: &mut Vec<u8>, image: &Indexed, last: &D)
    requires { vec_len room.old + DUMP_ROOM ≤ vec_capacity room.old }
    ensures { Puts room.old room.new (dump image.now (D.state last.now)) DUMP_ROOM }
{
    put_text(room, "dump\n");
    threads::put_threads(room, image, last);
    objects::put_objects(room, image, last);
    domains::put_domains(room, image.image(), last);
    domains::put_pools(room, image.image(), last);
    memory::put_area(room, PARTITION_AREA, last.memory());
    memory::put_area(room, STACK_AREA, last.stacks());
}
