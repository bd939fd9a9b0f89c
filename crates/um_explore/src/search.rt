//! The search through the states that runs of an image reach.

ghost use Rattle.std.specs.Prelude.{◌≡◌, ◌≤◌, ◌<◌, ◌^◌, [], IfOk, length, vec_capacity};
ghost use Rattle.um_invariants.specs.Described.{IsDescribed};
ghost use Rattle.um_question.specs.Asked.{is_met};
ghost use Rattle.um_question.specs.Sound.{IsSoundQuestion};
ghost use Rattle.um_explore.specs.Met.{AreLayered, AreMet, AreRooms, Ends, Expands, Grows, IsNear};

use crate::failures::{failures_of, note};
use crate::met::Met;
use crate::rooms::{Rooms, rebuild};
use crate::steps::steps_of;
use std::alloc::Global;
use um_base::{Event, Image, OutOfMemory};
use um_question::{Question, meets};
use um_trace::LINE_ROOM;

/// What is asked: whether any run of an image comes to what a question asks. At most so many states are kept beside the opening.
#[derive(Clone, Copy)]
pub struct Asked<'q> {
    pub image: &'q Image,
    pub question: &'q Question,
    pub most: usize,
}

/// How the search went on from a state.
pub(crate) enum Expanded {
    /// None of its steps comes to what is asked, and the states to which they lead were met.
    Done,
    /// It has no step: the run is complete.
    Last,
    /// This step comes to it.
    Hit(Event),
    /// More states would be met than are kept.
    Full,
}

/// How the search ended.
pub enum Outcome {
    /// No run comes to what is asked.
    Never,
    /// From the state of this number, a step comes to it.
    Hit { number: usize, event: Event },
    /// More states would have been met than are kept. The steps of all states from this number on were not looked at.
    Full { from: usize },
}

/// Looks at the steps of the state of a number, which is made anew.
pub(crate) fn expand(
    alloc: Global,
    asked: &Asked,
    rooms: &mut Rooms,
    met: &mut Met,
    k: usize,
    events: &mut Vec<Event>,
    room: &mut Vec<u8>,
) -> Result<Expanded, OutOfMemory>
    requires are { AreMet asked.now.image.now met.old.links.items }
    requires rooms { AreRooms asked.now.image.now rooms.old }
    requires met { k ≤ length met.old.links.items }
    requires layered { AreLayered met.old.links.items }
    requires near { IsNear met.old.links.items k }
    requires few { length met.old.links.items ≤ asked.now.most }
    requires room { LINE_ROOM ≤ vec_capacity room.old }
    requires sound { IsSoundQuestion asked.now.question.now }
    ensures are { IfOk result (λ _. AreMet asked.now.image.now met.new.links.items) }
    ensures rooms { IfOk result (λ _. AreRooms asked.now.image.now rooms.new) }
    ensures layered { IfOk result (λ _. AreLayered met.new.links.items) }
    ensures near { IfOk result (λ _. IsNear met.new.links.items k) }
    ensures few { IfOk result (λ _. length met.new.links.items ≤ asked.now.most) }
    ensures grows { IfOk result (λ _. Grows asked.now.image.now met.old.links.items met.new.links.items) }
    ensures expands { IfOk result
        (λ expanded. Expands asked.now.image.now (is_met asked.now.image.now asked.now.question.now)
        met.new.links.items k rooms.new.here expanded) }
    ensures capacity { vec_capacity room.old ≤ vec_capacity room.new }
{
    let path = rebuild(
        alloc,
        asked.image,
        &rooms.opens,
        &mut rooms.here,
        met.links.as_slice(),
        k,
    )?;
    let before = failures_of(&path);
    steps_of(rooms.here.tables(), events)?;
    let steps = events.as_slice();
    if steps.is_empty() {
        return Ok(Expanded::Last);
    }
    for event in steps {
        rooms.step(alloc, asked.image, event)?;
        if meets(
            asked.image,
            asked.question,
            Some(event),
            rooms.there.tables(),
            room,
        ) {
            return Ok(Expanded::Hit(*event));
        }
        let mut notes = before;
        note(&mut notes, event);
        if !met.take(alloc, asked.image, rooms, &notes, k, event, asked.most)? {
            return Ok(Expanded::Full);
        }
    }
    Ok(Expanded::Done)
}

/// Looks at the steps of all states that runs reach, until one comes to what is asked.
pub(crate) fn search(
    alloc: Global,
    asked: &Asked,
    rooms: &mut Rooms,
    met: &mut Met,
    room: &mut Vec<u8>,
) -> Result<Outcome, OutOfMemory>
    requires described { IsDescribed asked.now.image.now }
    requires rooms { AreRooms asked.now.image.now rooms.old }
    requires opening { met.old.links.items ≡ [] }
    requires few { asked.now.most < 2 ^ 32 }
    requires room { LINE_ROOM ≤ vec_capacity room.old }
    requires sound { IsSoundQuestion asked.now.question.now }
    ensures are { IfOk result (λ _. AreMet asked.now.image.now met.new.links.items) }
    ensures rooms { IfOk result (λ _. AreRooms asked.now.image.now rooms.new) }
    ensures layered { IfOk result (λ _. AreLayered met.new.links.items) }
    ensures ends { IfOk result
        (λ outcome. Ends asked.now.image.now (is_met asked.now.image.now asked.now.question.now)
        met.new.links.items outcome) }
{
    let mut events = Vec::new(alloc);
    let mut k = 0;
    while k <= met.links.as_slice().len() {
        match expand(alloc, asked, rooms, met, k, &mut events, room)? {
            Expanded::Done => k += 1,
            Expanded::Last => k += 1,
            Expanded::Hit(event) => return Ok(Outcome::Hit { number: k, event }),
            Expanded::Full => return Ok(Outcome::Full { from: k }),
        }
    }
    Ok(Outcome::Never)
}
