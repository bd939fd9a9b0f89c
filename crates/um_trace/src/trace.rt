//! The text of a run.

ghost use Rattle.std.specs.{
  Prelude.{◌≡◌, ◌+◌, ◌*◌, ◌<◌, ◌≤◌, ◌^◌, ◌++◌, length, vec_len, vec_capacity},
  List.{flat_map, sum_by},
};
ghost use Rattle.um_base.specs.declared.limits.TheConstants.{THREADS};
ghost use Rattle.um_trace.specs.{Acts.{event_line}, Room.{Puts}, Text.{woken_by, line_room, room_for, text}};

use crate::dump::{DUMP_ROOM, put_dump};
use crate::indexed::Indexed;
use crate::memory::put_act;
use crate::names::put_thread;
use crate::room::{put_newline, put_space};
use um_base::{Act, Event, Image};
use um_steps::Dumped;

/// How many threads an act wakes.
#[inline(always)]
pub fn woken_by(act: &Act) -> usize
    ensures value { result ≡ woken_by act.now }
    ensures few { result ≤ THREADS }
{
    match act {
        Act::Work {
            addr: _,
            answer: _,
            woken,
        } => woken.len(),
        Act::Expire { woken, .. } => woken.len(),
        Act::Left { woken, .. } => woken.len(),
        Act::FutexWake { woken, .. } => woken.len(),
        _ => 0,
    }
}

/// How many bytes the text of these events takes at most, whatever the image and the last state.
#[tactic(auto, unfolding(crate::specs::Text::room_for))]
pub fn text_room(events: &[Event]) -> usize
    requires few { length events.now ≤ 2 ^ 32 }
    ensures { result ≡ room_for events.now }
{
    let mut most = DUMP_ROOM;
    for event in events {
        most += 128 + 64 * woken_by(&event.act);
    }
    most
}

/// The line of an event.
#[tactic(auto, unfolding(crate::specs::Acts::event_line))]
pub fn put_event(room: &mut Vec<u8>, image: &Indexed, event: &Event)
    requires { vec_len room.old + line_room event.now ≤ vec_capacity room.old }
    ensures { Puts room.old room.new (event_line image.now event.now) (line_room event.now) }
{
    put_thread(room, image, event.thread.0);
    put_space(room);
    put_act(room, image, &event.act);
    put_newline(room);
}

/// The lines of events.
fn put_events(room: &mut Vec<u8>, image: &Indexed, events: &[Event])
    requires { vec_len room.old + sum_by line_room events.now ≤ vec_capacity room.old }
    ensures { Puts room.old room.new (flat_map (event_line image.now) events.now)
        (sum_by line_room events.now) }
{
    for event in events {
        put_event(room, image, event);
    }
}

/// Appends the text of a run: a line for each event, and then the dump of the last state. The room is reserved, so it takes no memory.
#[tactic(auto, unfolding(crate::specs::Text::text, crate::specs::Text::room_for))]
pub fn trace_text<D: Dumped>(image: &Image, events: &[Event], last: &D, room: &mut Vec<u8>)
    requires room { vec_len room.old + room_for events.now ≤ vec_capacity room.old }
    ensures text { room.new.items ≡ room.old.items ++ text image.now events.now (D.state last.now) }
    ensures capacity { vec_capacity room.old ≤ vec_capacity room.new }
{
    let image = Indexed::of_text(image);
    put_events(room, &image, events);
    put_dump(room, &image, last);
}
