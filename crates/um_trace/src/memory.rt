//! The texts of acts on memory, and of all others.

ghost use Rattle.std.specs.Prelude.{◌+◌, ◌*◌, ◌≤◌, ◌++◌, length, codes, vec_len, vec_capacity};
ghost use Rattle.um_trace.specs.{
  Acts.{range_text, found_text, act_text},
  Digits.{value},
  Room.{Puts},
  Text.{woken_by},
  Words.{reach_word},
};

use crate::indexed::Indexed;
use crate::names::put_row;
use crate::room::{put_address, put_decimal, put_short, put_space, put_text, put_value};
use crate::wakes::put_wake_act;
use crate::words::{Said, put_said};
use um_base::{Act, Addr, Found};
use um_vocabulary::access_word;

/// Bytes of memory.
#[tactic(auto, unfolding(crate::specs::Acts::range_text))]
pub fn put_range(room: &mut Vec<u8>, addr: Addr, size: u32)
    requires { vec_len room.old + 21 ≤ vec_capacity room.old }
    ensures { Puts room.old room.new (range_text addr.0 size) 21 }
{
    put_address(room, addr);
    put_space(room);
    put_decimal(room, size);
}

/// A word, bytes of memory, and a space.
fn put_span(room: &mut Vec<u8>, word: &str, addr: Addr, size: u32)
    requires { vec_len room.old + length word.now + 22 ≤ vec_capacity room.old }
    ensures { Puts room.old room.new (word.now ++ range_text addr.0 size ++ codes " ")
        (length word.now + 22) }
{
    put_text(room, word);
    put_range(room, addr, size);
    put_space(room);
}

/// A word, bytes of memory, and whether the thread may do that with them.
fn put_reach(room: &mut Vec<u8>, word: &str, addr: Addr, size: u32, fits: bool)
    requires { vec_len room.old + length word.now + 32 ≤ vec_capacity room.old }
    ensures { Puts room.old room.new (word.now ++ range_text addr.0 size ++ codes " " ++ reach_word fits)
        (length word.now + 32) }
{
    put_text(room, word);
    put_range(room, addr, size);
    put_said(room, Said::Reach(fits));
}

/// What a string read found.
#[tactic(auto, unfolding(crate::specs::Acts::found_text))]
fn put_found(room: &mut Vec<u8>, found: Found)
    requires { vec_len room.old + 10 ≤ vec_capacity room.old }
    ensures { Puts room.old room.new (found_text found) 10 }
{
    match found {
        Found::Length(n) => put_decimal(room, n),
        Found::Unreadable => put_text(room, "unreadable"),
        Found::TooLong => put_text(room, "toolong"),
    }
}

/// The text of an act.
#[tactic(auto, unfolding(crate::specs::Acts::act_text))]
pub fn put_act(room: &mut Vec<u8>, image: &Indexed, act: &Act)
    requires { vec_len room.old + 100 + 64 * woken_by act.now ≤ vec_capacity room.old }
    ensures { Puts room.old room.new (act_text image.now act.now) (100 + 64 * woken_by act.now) }
{
    match act {
        Act::Load { addr, size, value } => {
            put_span(room, "load ", *addr, *size);
            put_value(room, *value);
        }
        Act::Store { addr, size, value } => {
            put_span(room, "store ", *addr, *size);
            put_value(room, *value);
        }
        Act::Fetch { addr } => {
            put_text(room, "exec ");
            put_address(room, *addr);
        }
        Act::Fault { access, addr, size } => {
            put_text(room, "fault ");
            put_short(room, access_word(*access));
            put_space(room);
            put_range(room, *addr, *size);
        }
        Act::Probe { addr, size, fits } => put_reach(room, "probe ", *addr, *size, *fits),
        Act::CopyIn { addr, size, fits } => put_reach(room, "copyin ", *addr, *size, *fits),
        Act::CopyOut { addr, size, fits } => put_reach(room, "copyout ", *addr, *size, *fits),
        Act::CopyStr { addr, found } => {
            put_text(room, "copystr ");
            put_address(room, *addr);
            put_space(room);
            put_found(room, *found);
        }
        Act::Erase { stack } => {
            put_text(room, "erase ");
            put_row(room, image.image(), stack.0 as usize);
        }
        _ => put_wake_act(room, image, act),
    }
}
