//! The texts of what threads do by themselves.

ghost use Rattle.std.specs.Prelude.{◌+◌, ◌≤◌, ◌++◌, length, vec_len, vec_capacity};
ghost use Rattle.um_trace.specs.{Acts.{thread_act_text}, Names.{script_text}, Room.{Puts}};

use crate::indexed::Indexed;
use crate::names::{put_of, put_reply};
use crate::room::{put_decimal, put_numbered, put_short, put_space, put_text};
use crate::time::put_time_act;
use crate::words::cause_word;
use um_base::{Act, Image};

/// A word, and a script by its name.
#[tactic(auto, unfolding(crate::specs::Names::script_text))]
fn put_script(room: &mut Vec<u8>, image: &Image, word: &str, script: u8)
    requires { vec_len room.old + length word.now + 24 ≤ vec_capacity room.old }
    ensures { Puts room.old room.new (word.now ++ script_text image.now script) (length word.now + 24) }
{
    put_text(room, word);
    match image.scripts.as_slice().get(script as usize) {
        Some(script) => put_short(room, script.name.as_slice()),
        None => {}
    }
}

/// The text of such an act, or of one of virtual time or that stops a thread.
#[tactic(auto, unfolding(crate::specs::Acts::thread_act_text))]
pub fn put_thread_act(room: &mut Vec<u8>, image: &Indexed, act: &Act)
    requires { vec_len room.old + 100 ≤ vec_capacity room.old }
    ensures { Puts room.old room.new (thread_act_text image.now act.now) 100 }
{
    match act {
        Act::Begin { script, line } => {
            put_script(room, image.image(), "begin ", *script);
            put_space(room);
            put_decimal(room, *line as u32);
        }
        Act::Resume => put_text(room, "resume"),
        Act::Answered { reply } => {
            put_text(room, "reply ");
            put_reply(room, image, *reply);
        }
        Act::Named { who } => put_of(room, image, "name ", *who),
        Act::Start { who } => put_of(room, image, "start ", *who),
        Act::EnterUser => put_text(room, "user"),
        Act::Fatal { reason, cause } => {
            put_numbered(room, "fatal ", *reason as u32);
            put_space(room);
            put_short(room, cause_word(*cause));
        }
        Act::Doom { who } => put_numbered(room, "doom ", who.0 as u32),
        Act::Exit => put_text(room, "exit"),
        _ => put_time_act(room, image, act),
    }
}
