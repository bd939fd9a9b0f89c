//! How much a run did.

ghost use Rattle.std.specs.Prelude.{◌≡◌, ◌+◌, ◌≤◌, ◌++◌, length, vec_len, vec_capacity};
ghost use Rattle.um_trace.specs.{Room.{Puts}, Summary.{count_line, summary_text}};

pub mod events;
pub mod threads;

use crate::room::{put_count, put_newline, put_space, put_text};
use crate::summary::events::{Counted, events_that};
use crate::summary::threads::{Shown, threads_that};
use um_base::{Event, Image};
use um_steps::Dumped;

/// How many bytes a summary takes at most.
pub const SUMMARY_ROOM: usize = 288;

/// A word and a count.
#[tactic(auto, unfolding(crate::specs::Summary::count_line))]
fn put_line(room: &mut Vec<u8>, word: &str, count: usize)
    requires room { vec_len room.old + 32 ≤ vec_capacity room.old }
    requires short { length word.now ≤ 8 }
    ensures { Puts room.old room.new (count_line word.now count) 32 }
{
    put_text(room, word);
    put_space(room);
    put_count(room, count);
    put_newline(room);
}

/// Appends the summary of a run: counts of its events, and of the threads that the dump of its last state shows. The room is reserved, so
/// it takes no memory.
#[tactic(auto, unfolding(crate::specs::Summary::summary_text))]
pub fn summary_text<D: Dumped>(image: &Image, events: &[Event], last: &D, room: &mut Vec<u8>)
    requires room { vec_len room.old + SUMMARY_ROOM ≤ vec_capacity room.old }
    ensures text { room.new.items ≡ room.old.items ++ summary_text image.now events.now (D.state last.now) }
    ensures capacity { vec_capacity room.old ≤ vec_capacity room.new }
{
    put_line(room, "events", events.len());
    put_line(room, "begins", events_that(Counted::Begins, events));
    put_line(room, "checks", events_that(Counted::Checks, events));
    put_line(room, "refused", events_that(Counted::Refused, events));
    put_line(room, "fatals", events_that(Counted::Fatals, events));
    put_line(room, "waits", events_that(Counted::Waits, events));
    put_line(room, "recycles", events_that(Counted::Recycles, events));
    put_line(room, "ended", threads_that(Shown::Ended, image, last));
    put_line(room, "waiting", threads_that(Shown::Waiting, image, last));
}
