//! The states that a search met.

ghost use Rattle.std.specs.Prelude.{◌≡◌, ◌≤◌, ◌+◌, [], List, IfOk, length, true};
ghost use Rattle.um_machine.specs.Run.{Step, opening};
ghost use Rattle.um_explore.specs.Failures.{failures, noted};
ghost use Rattle.um_explore.specs.Met.{Adds, AreLayered, AreMet, AreRooms, Grows, IsKnown, IsLed, IsNear, IsTree, LeadsOn, PathTo};
ghost use Rattle.um_base.specs.declared.act.Event.{Event};

use crate::digest::digest;
use crate::failures::{Failure, failures_of, same_failures};
use crate::rooms::{Rooms, rebuild};
use std::alloc::Global;
use um_base::{Act, Event, Image, OutOfMemory};
use um_matrix::Matrix;

/// A state that a search met, with how threads failed on the way to it: the number of the state that it comes from, and the event that
/// leads from there. The opening has number 0, and the state of the link at index `n` the number `n + 1`.
#[derive(Clone, Copy)]
pub struct Link {
    pub parent: usize,
    pub event: Event,
    /// A number that states with the same parts have in common.
    pub digest: u64,
    /// The state with the same bucket that was met before, or 0.
    pub before: usize,
}

/// What a search met.
#[derive(Drop)]
pub struct Met {
    /// The states, but for the opening.
    pub links: Vec<Link>,
    /// The number of the state that was met last, by bucket, or 0.
    pub buckets: Vec<usize>,
}

/// The events that lead from the opening to the state of a number.
pub(crate) fn path(alloc: Global, links: &[Link], k: usize) -> Result<Vec<Event>, OutOfMemory>
    requires tree { IsTree links.now }
    requires met { k ≤ length links.now }
    ensures { IfOk result (λ events. PathTo links.now k events.items) }
{
    let mut events = Vec::new(alloc);
    let mut at = k;
    while at > 0 {
        let link = links[at - 1];
        events.push(link.event)?;
        at = link.parent;
    }
    events.reverse();
    Ok(events)
}

/// Whether a state is that of a number, with the same failures on the way. The state of the number is made anew in a room.
fn is_state_of(
    alloc: Global,
    image: &Image,
    opens: &Matrix,
    state: &Matrix,
    room: &mut Matrix,
    links: &[Link],
    k: usize,
    notes: &[Option<Failure>],
) -> Result<bool, OutOfMemory>
    requires are { AreMet image.now links.now }
    requires met { k ≤ length links.now }
    requires opens { opens.now ≡ opening image.now }
    requires state { state.now.image ≡ image.now }
    requires room { room.old.image ≡ image.now }
    ensures room { IfOk result (λ _. room.new.image ≡ image.now) }
    ensures known { IfOk result (λ same. same ≡ true → IsKnown image.now links.now notes.now state.now) }
{
    let events = rebuild(alloc, image, opens, room, links, k)?;
    let failures = failures_of(&events);
    if !same_failures(&failures, notes) {
        return Ok(false);
    }
    Ok(room.is_same(state))
}

impl Met {
    /// The opening alone.
    pub fn new(alloc: Global, buckets: usize) -> Result<Met, OutOfMemory>
        ensures { IfOk result (λ met. met.links.items ≡ []) }
    {
        Ok(Met {
            links: Vec::new(alloc),
            buckets: vec![in alloc; 0; buckets]?,
        })
    }

    /// The bucket of a digest.
    fn bucket(&self, digest: u64) -> usize {
        let buckets = self.buckets.len();
        if buckets == 0 {
            0
        } else {
            (digest % buckets as u64) as usize
        }
    }

    /// The number of the state in a bucket that was met last, or 0.
    fn last_in(&self, bucket: usize) -> usize {
        match self.buckets.get(bucket) {
            Some(number) => *number,
            None => 0,
        }
    }

    /// Whether a state was met, with the same failures. Where it says no, it may still have been.
    fn knows(
        &self,
        alloc: Global,
        image: &Image,
        opens: &Matrix,
        state: &Matrix,
        room: &mut Matrix,
        notes: &[Option<Failure>],
        digest: u64,
    ) -> Result<bool, OutOfMemory>
        requires are { AreMet image.now self.now.links.items }
        requires opens { opens.now ≡ opening image.now }
        requires state { state.now.image ≡ image.now }
        requires room { room.old.image ≡ image.now }
        ensures room { IfOk result (λ _. room.new.image ≡ image.now) }
        ensures known { IfOk result (λ known. known ≡ true
            → IsKnown image.now self.now.links.items notes.now state.now) }
    {
        let links = self.links.as_slice();
        let mut at = self.last_in(self.bucket(digest));
        while at > 0 && at <= links.len() {
            let link = links[at - 1];
            if link.digest == digest
                && is_state_of(alloc, image, opens, state, room, links, at, notes)?
            {
                return Ok(true);
            }
            if link.before >= at {
                return Ok(false);
            }
            at = link.before;
        }
        Ok(false)
    }

    /// Adds the state to which an event leads from another one.
    fn add(&mut self, parent: usize, event: &Event, digest: u64) -> Result<(), OutOfMemory>
        ensures { IfOk result (λ _. Adds self.old.links.items parent event.now self.new.links.items) }
    {
        let bucket = self.bucket(digest);
        let before = self.last_in(bucket);
        let act: &Act = &event.act;
        let event = Event {
            thread: event.thread,
            act: *act,
        };
        self.links.push(Link {
            parent,
            event,
            digest,
            before,
        })?;
        if bucket < self.buckets.len() {
            self.buckets[bucket] = self.links.len();
        }
        Ok(())
    }

    /// Adds the state to which a step leads from the state of a number, unless it was met with the same failures. No more than `most` states
    /// are kept: it says no where one more would have been needed.
    pub(crate) fn take(
        &mut self,
        alloc: Global,
        image: &Image,
        rooms: &mut Rooms,
        notes: &[Option<Failure>],
        parent: usize,
        event: &Event,
        most: usize,
    ) -> Result<bool, OutOfMemory>
        requires are { AreMet image.now self.old.links.items }
        requires rooms { AreRooms image.now rooms.old }
        requires met { parent ≤ length self.old.links.items }
        requires layered { AreLayered self.old.links.items }
        requires near { IsNear self.old.links.items parent }
        requires few { length self.old.links.items ≤ most }
        requires led { (events : List Event) × IsLed image.now self.old.links.items parent events rooms.old.here
            × (notes.now ≡ noted event.now (failures events)) }
        requires step { Step rooms.old.here event.now rooms.old.there }
        ensures are { IfOk result (λ _. AreMet image.now self.new.links.items) }
        ensures rooms { IfOk result (λ _. AreRooms image.now rooms.new) }
        ensures here { IfOk result (λ _. rooms.new.here ≡ rooms.old.here) }
        ensures layered { IfOk result (λ _. AreLayered self.new.links.items) }
        ensures near { IfOk result (λ _. IsNear self.new.links.items parent) }
        ensures few { IfOk result (λ _. length self.new.links.items ≤ most) }
        ensures grows { IfOk result (λ _. Grows image.now self.old.links.items self.new.links.items) }
        ensures leads { IfOk result
            (λ room. room ≡ true → LeadsOn image.now self.new.links.items parent event.now) }
    {
        let digest = digest(&rooms.there, notes);
        if self.knows(
            alloc,
            image,
            &rooms.opens,
            &rooms.there,
            &mut rooms.other,
            notes,
            digest,
        )? {
            return Ok(true);
        }
        if self.links.as_slice().len() >= most {
            return Ok(false);
        }
        self.add(parent, event, digest)?;
        Ok(true)
    }
}
