//! The texts of acts on domains.

ghost use Rattle.std.specs.Prelude.{◌+◌, ◌≤◌, length, vec_len, vec_capacity};
ghost use Rattle.um_trace.specs.{
  Acts.{domain_act_text},
  Operands.{operand_text, domain_call_text},
  Room.{Puts},
};

use self::Operand::{Alone, Part, Thread};
use crate::indexed::Indexed;
use crate::names::{put_domain, put_of, put_part, put_reply};
use crate::room::{put_space, put_text};
use crate::threads::put_thread_act;
use um_base::{Act, Attr, Range, Reply, ThreadIx};

/// What a call on a domain is about besides the domain.
#[derive(Clone, Copy)]
pub enum Operand {
    /// Nothing.
    Alone,
    /// Memory with its rights.
    Part(Range, Attr),
    /// A thread.
    Thread(ThreadIx),
}

/// What a call is about, with a space before it.
fn put_operand(room: &mut Vec<u8>, image: &Indexed, operand: Operand)
    requires { vec_len room.old + 34 ≤ vec_capacity room.old }
    ensures { Puts room.old room.new (operand_text image.now operand) 34 }
{
    match operand {
        Part(range, attr) => {
            put_space(room);
            put_part(room, range, attr);
        }
        Thread(who) => put_of(room, image, " ", who),
        Alone => {}
    }
}

/// A call on a domain, with what it is answered.
fn put_call(
    room: &mut Vec<u8>,
    image: &Indexed,
    word: &str,
    domain: u8,
    operand: Operand,
    reply: Reply,
)
    requires { vec_len room.old + length word.now + 90 ≤ vec_capacity room.old }
    ensures { Puts room.old room.new (domain_call_text image.now word.now domain operand reply)
        (length word.now + 90) }
{
    put_text(room, "domain ");
    put_text(room, word);
    put_domain(room, image.image(), domain);
    put_operand(room, image, operand);
    put_space(room);
    put_reply(room, image, reply);
}

/// The text of an act on a domain, or of what a thread does by itself. Of any other it puts nothing.
#[tactic(auto, unfolding(crate::specs::Acts::domain_act_text))]
pub fn put_domain_act(room: &mut Vec<u8>, image: &Indexed, act: &Act)
    requires { vec_len room.old + 100 ≤ vec_capacity room.old }
    ensures { Puts room.old room.new (domain_act_text image.now act.now) 100 }
{
    match act {
        Act::DomInit { domain, reply } => put_call(room, image, "init ", *domain, Alone, *reply),
        Act::DomAdd {
            domain,
            range,
            attr,
            reply,
        } => {
            put_call(room, image, "add ", *domain, Part(*range, *attr), *reply);
        }
        Act::DomRemove {
            domain,
            range,
            attr,
            reply,
        } => {
            put_call(room, image, "remove ", *domain, Part(*range, *attr), *reply);
        }
        Act::DomMove { domain, who, reply } => {
            put_call(room, image, "move ", *domain, Thread(*who), *reply);
        }
        _ => put_thread_act(room, image, act),
    }
}
