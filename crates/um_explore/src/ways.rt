//! The ways in which runs end, as a search finds them.

ghost use Rattle.std.specs.Prelude.{◌≡◌, ◌≤◌, ◌+◌, ◌++◌, [], IfOk, length, vec_capacity};
ghost use Rattle.um_machine.specs.Run.{IsComplete};
ghost use Rattle.um_trace.specs.Dump.{threads_text};
ghost use Rattle.um_explore.specs.{
  Ends.{AreWays, IsPlaceOf, failure_lines},
  Met.{AreMet, AreRooms, Leads},
};

use crate::failures::{Failure, failures_of};
use crate::met::{Link, path};
use crate::rooms::Rooms;
use std::alloc::Global;
use um_base::{Act, Event, Image, OutOfMemory, THREADS, ThreadIx};
use um_matrix::Matrix;
use um_trace::{LINE_ROOM, THREADS_ROOM, line_text, threads_text};

/// A way to end: what is shown of it, and the number of the first state in which a run ended so.
#[derive(Drop)]
pub struct Way {
    pub text: Vec<u8>,
    pub number: usize,
}

/// The ways to end that were found, and in how many states each was.
#[derive(Drop)]
pub struct Ways {
    pub ways: Vec<Way>,
    pub counts: Vec<usize>,
}

/// Adds the lines of how threads failed.
fn add_failures(
    image: &Image,
    notes: &[Option<Failure>],
    text: &mut Vec<u8>,
    room: &mut Vec<u8>,
) -> Result<(), OutOfMemory>
    requires few { length notes.now ≤ THREADS }
    requires room { LINE_ROOM ≤ vec_capacity room.old }
    ensures text { IfOk result (λ _. text.new.items ≡ text.old.items ++ failure_lines image.now 0 notes.now) }
    ensures capacity { vec_capacity room.old ≤ vec_capacity room.new }
{
    for (t, note) in notes.iter().enumerate() {
        match note {
            Some(failure) => {
                let act = Act::Fatal {
                    reason: failure.reason,
                    cause: failure.cause,
                };
                let thread = ThreadIx(t as u8);
                line_text(image, &Event { thread, act }, room);
                text.extend_from_slice(room.as_slice())?;
            }
            None => {}
        }
    }
    Ok(())
}

/// How the threads stand in a state, and how they failed on the way to it.
fn text_of(
    alloc: Global,
    image: &Image,
    state: &Matrix,
    notes: &[Option<Failure>],
    room: &mut Vec<u8>,
) -> Result<Vec<u8>, OutOfMemory>
    requires few { length notes.now ≤ THREADS }
    requires line { LINE_ROOM ≤ vec_capacity room.old }
    requires room { THREADS_ROOM ≤ vec_capacity room.old }
    ensures text { IfOk result
        (λ text. text.items ≡ threads_text image.now state.now ++ failure_lines image.now 0 notes.now) }
    ensures capacity { vec_capacity room.old ≤ vec_capacity room.new }
{
    threads_text(image, state.tables(), room);
    let mut text = Vec::new(alloc);
    text.extend_from_slice(room.as_slice())?;
    add_failures(image, notes, &mut text, room)?;
    Ok(text)
}

/// Where a text stands among the ways to end.
fn place_of(ways: &[Way], text: &[u8]) -> Option<usize>
    ensures { IsPlaceOf ways.now text.now result }
{
    for (i, way) in ways.iter().enumerate() {
        if way.text.as_slice() == text {
            return Some(i);
        }
    }
    None
}

/// Counts a state more that ends so.
fn count(counts: &mut Vec<usize>, i: usize) {
    if i < counts.len() {
        counts[i] = counts[i].saturating_add(1);
    }
}

impl Ways {
    /// None.
    pub fn new(alloc: Global) -> Ways
        ensures { result.ways.items ≡ [] }
    {
        Ways {
            ways: Vec::new(alloc),
            counts: Vec::new(alloc),
        }
    }

    /// Takes the state of a number into account, in which runs end, and which stands in a room.
    pub(crate) fn add(
        &mut self,
        alloc: Global,
        image: &Image,
        rooms: &Rooms,
        links: &[Link],
        k: usize,
        room: &mut Vec<u8>,
    ) -> Result<(), OutOfMemory>
        requires are { AreMet image.now links.now }
        requires met { k ≤ length links.now }
        requires leads { Leads image.now links.now k rooms.now.here }
        requires complete { IsComplete rooms.now.here }
        requires line { LINE_ROOM ≤ vec_capacity room.old }
        requires room { THREADS_ROOM ≤ vec_capacity room.old }
        requires ways { AreWays image.now links.now k self.old.ways.items }
        ensures ways { IfOk result (λ _. AreWays image.now links.now (k + 1) self.new.ways.items) }
        ensures capacity { vec_capacity room.old ≤ vec_capacity room.new }
    {
        let events = path(alloc, links, k)?;
        let notes = failures_of(&events);
        let text = text_of(alloc, image, &rooms.here, &notes, room)?;
        match place_of(&self.ways, &text) {
            Some(i) => count(&mut self.counts, i),
            None => {
                self.ways.push(Way { text, number: k })?;
                self.counts.push(1)?;
            }
        }
        Ok(())
    }
}
