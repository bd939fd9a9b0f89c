//! Logs of steps.

ghost use Rattle.std.specs.Prelude.{◌≡◌, ◌+◌, ◌<◌, ◌≤◌, ◌++◌, ◌∷◌, [], length, take, slice_index_or, true, false, IfOk};
ghost use Rattle.um_merge.specs.Logs.{blank, events_of};

use crate::logged::Short;
use std::alloc::{AllocError, Global};
use std::marker::Model;
use um_base::{Act, Event};

/// Steps in the order in which they were noted, in reserved room. A step takes eight bytes; the events that steps show stand in a second
/// list.
#[derive(Drop)]
pub struct Log {
    steps: Vec<Short>,
    events: Vec<Event>,
}

impl Model for Log {
    ghost use Rattle.std.specs.Prelude.{◌≡◌, ◌≤◌, length, vec_capacity};
    ghost use Rattle.um_merge.specs.Logs.{Log};

    ghost Value = { Log };

    ghost use Rattle.um_merge.specs.Told.{count, told};

    ghost view = { λ l. record { items = told l.steps.items l.events.items; room = vec_capacity l.steps } };

    ghost invariant = { λ l. (count l.steps.items ≡ length l.events.items) × (vec_capacity l.steps ≤ vec_capacity l.events) };
}

impl Log {
    /// An empty log with room for at least `most` steps.
    pub fn with_room(alloc: Global, most: usize) -> Result<Log, AllocError>
        ensures empty { IfOk result (λ log. log.items ≡ []) }
        ensures room { IfOk result (λ log. most ≤ log.room) }
    {
        let steps = Vec::with_capacity(alloc, most)?;
        let events = Vec::with_capacity(alloc, steps.capacity())?;
        Ok(Log { steps, events })
    }

    /// How many steps there are.
    pub fn len(&self) -> usize
        ensures { result ≡ length self.now.items }
    {
        self.steps.len()
    }

    /// How many steps there is room for.
    pub fn capacity(&self) -> usize
        ensures { result ≡ self.now.room }
    {
        self.steps.capacity()
    }

    /// The site of a step, and its number there.
    pub(crate) fn place(&self, at: usize) -> (u16, u32)
        requires { at < length self.now.items }
        ensures site { result.0 ≡ (slice_index_or self.now.items at blank).site }
        ensures number { result.1 ≡ (slice_index_or self.now.items at blank).number }
        ensures small { at < 18446744073709551615 }
    {
        let step = self.steps[at];
        (step.site, step.number)
    }

    /// Notes one more step. It takes no memory.
    pub fn note(&mut self, cpu: u8, site: u16, number: u32, event: &Option<Event>)
        requires { length self.old.items < self.old.room }
        ensures room { self.new.room ≡ self.old.room }
        ensures noted { self.new.items ≡ self.old.items ++ record { cpu = cpu; site = site; number = number; event = event.now } ∷ [] }
    {
        match event {
            None => self.steps.push_reserved(Short {
                cpu,
                shows: false,
                site,
                number,
            }),
            Some(event) => {
                let thread = event.thread;
                let act: Act = event.act;
                self.events.push_reserved(Event { thread, act });
                self.steps.push_reserved(Short {
                    cpu,
                    shows: true,
                    site,
                    number,
                });
            }
        }
    }

    /// Notes one more step: the one at a place of another log, before which that log shows `shown` events. Returns how many it shows up to
    /// that step. It takes no memory.
    pub(crate) fn copy(&mut self, from: &Log, at: usize, shown: usize) -> usize
        requires room { length self.old.items < self.old.room }
        requires at { at < length from.now.items }
        requires shown { shown ≡ length (events_of (take at from.now.items)) }
        ensures room { self.new.room ≡ self.old.room }
        ensures copied { self.new.items ≡ self.old.items ++ slice_index_or from.now.items at blank ∷ [] }
        ensures shown { result ≡ length (events_of (take (at + 1) from.now.items)) }
    {
        let step = from.steps[at];
        if step.shows {
            let event = Some(from.events[shown]);
            self.note(step.cpu, step.site, step.number, &event);
            shown + 1
        } else {
            self.note(step.cpu, step.site, step.number, &None);
            shown
        }
    }

    /// The events that the steps show, in their order.
    pub fn into_events(self) -> Vec<Event>
        ensures { result.items ≡ events_of self.items }
    {
        let Log { steps: _, events } = self;
        events
    }
}
