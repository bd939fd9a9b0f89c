//! The contents of the clock's cell.

ghost use Rattle.std.specs.Prelude.{◌≡◌, ◌<◌, ◌≤◌, ◌+◌, ◌⊎◌, [], ◌∷◌, ◌++◌, None, drop, filter, length, if◌then◌else◌, nat_lt, false, true, vec_capacity, IfOk, MatchOption};
ghost use Rattle.um_fine.specs.Clock.{deadlines, first_due, give_first, settle_first};
ghost use Rattle.um_machine.specs.Time.{least, next_deadline};
ghost use Rattle.um_tables.specs.Timed.{HaveCome, at_rest, given_of, later_of, not_given, not_settled, places, time_of, with_marks, with_time};

use crate::marked::Marked;
use std::alloc::Global;
use std::marker::Model;
use um_base::OutOfMemory;
use um_words::Mark;

/// The greatest number of marks.
const MOST: usize = 0xfff_ffff;

/// Virtual time, and the marks that were armed, in their order. Room for all is reserved from the beginning. A step looks through the marks
/// that aren't given yet, or those that aren't settled yet, but never through all that were armed.
#[derive(Drop)]
pub struct Clock {
    time: u64,
    marks: Vec<Marked>,
    /// The places of the marks that aren't given yet, ascending.
    ungiven: Vec<u32>,
    /// The places of the marks that aren't settled yet, ascending.
    unsettled: Vec<u32>,
}

impl Model for Clock {
    ghost use Rattle.std.specs.Prelude.{vec_capacity};
    ghost use Rattle.um_tables.specs.Timed.{IsListed, Timed};

    ghost Value = { Timed };

    ghost view = { λ c. record {
      clock = record { now = c.time; marks = c.marks.items };
      most = vec_capacity c.marks;
    } };

    ghost invariant = { λ c. IsListed (record { now = c.time; marks = c.marks.items }) c.ungiven.items c.unsettled.items
        (vec_capacity c.marks) (vec_capacity c.ungiven) (vec_capacity c.unsettled) };
}

/// The lesser of a deadline and one that may not be there.
fn least(deadline: u64, other: Option<u64>) -> Option<u64>
    ensures { result ≡ least deadline other }
{
    match other {
        Some(other) if other < deadline => Some(other),
        _ => Some(deadline),
    }
}

/// The least deadline above a moment, of one and of those behind it.
fn nearer(now: u64, deadline: u64, behind: Option<u64>) -> Option<u64>
    ensures { result ≡ if nat_lt now deadline then least deadline behind else behind }
{
    if now < deadline {
        least(deadline, behind)
    } else {
        behind
    }
}

/// The least deadline of marks above a moment, if there is one. It is one of a mark that isn't given.
fn next_deadline(now: u64, marks: &[Marked], ungiven: &[u32]) -> Option<u64>
    requires come { HaveCome now marks.now }
    requires listed { ungiven.now ≡ places not_given 0 marks.now }
    ensures { result ≡ next_deadline now (deadlines marks.now) }
{
    let mut next = None;
    let mut k = ungiven.len();
    while k > 0 {
        k -= 1;
        let i = ungiven[k] as usize;
        next = nearer(now, marks[i].deadline(), next);
    }
    next
}

/// Gives the first of the marks that is due, and takes its place out of those of the marks that aren't given. Returns its deadline and what
/// it is for.
fn give_first(now: u64, marks: &mut [Marked], ungiven: &mut Vec<u32>) -> Option<(u64, Mark)>
    requires listed { ungiven.old.items ≡ places not_given 0 marks.old }
    ensures given { result ≡ given_of (first_due now marks.old) }
    ensures left { marks.new ≡ give_first now marks.old }
    ensures none { result ≡ None → marks.new ≡ marks.old }
    ensures listed { ungiven.new.items ≡ places not_given 0 marks.new }
    ensures room { vec_capacity ungiven.new ≡ vec_capacity ungiven.old }
{
    for k in 0..ungiven.len() {
        let i = ungiven[k] as usize;
        if marks[i].is_due(now) {
            let given = (marks[i].deadline(), marks[i].mark());
            marks[i].give();
            ungiven.remove(k);
            return Some(given);
        }
    }
    None
}

/// Settles the first of the marks with this deadline and mark that isn't settled, and takes its place out of those of the marks that aren't.
fn settle_first(deadline: u64, mark: Mark, marks: &mut [Marked], unsettled: &mut Vec<u32>)
    requires listed { unsettled.old.items ≡ places not_settled 0 marks.old }
    ensures left { marks.new ≡ settle_first deadline mark marks.old }
    ensures listed { unsettled.new.items ≡ places not_settled 0 marks.new }
    ensures room { vec_capacity unsettled.new ≡ vec_capacity unsettled.old }
{
    for k in 0..unsettled.len() {
        let i = unsettled[k] as usize;
        if marks[i].is_unsettled(deadline, mark) {
            marks[i].settle();
            unsettled.remove(k);
            return;
        }
    }
}

impl Clock {
    /// A clock at the begin of time, with room for so many marks.
    pub fn new(alloc: Global, most: usize) -> Result<Clock, OutOfMemory>
        ensures { IfOk result (λ c. (c.clock ≡ (at_rest c.most).clock) × (most ≤ c.most)) }
    {
        Ok(Clock {
            time: 0,
            marks: Vec::with_capacity(alloc, most)?,
            ungiven: Vec::with_capacity(alloc, most)?,
            unsettled: Vec::with_capacity(alloc, most)?,
        })
    }

    /// Virtual time.
    pub fn time(&self) -> u64
        ensures { result ≡ time_of self.now }
    {
        self.time
    }

    /// Whether no mark more can be armed: there are as many as there is room for, or 2^28 - 1.
    pub fn is_full(&self) -> bool
        ensures open { result ≡ false → (length self.now.clock.marks < self.now.most)
            × (length self.now.clock.marks < 268435455) }
        ensures full { result ≡ true → (self.now.most ≤ length self.now.clock.marks)
            ⊎ (268435455 ≤ length self.now.clock.marks) }
    {
        let many = self.marks.len();
        self.marks.capacity() <= many || many >= MOST
    }

    /// Arms a deadline so many ticks from now, for this. Returns the deadline.
    pub fn arm(&mut self, ticks: u32, mark: Mark) -> u64
        requires room { length self.old.clock.marks < self.old.most }
        requires few { length self.old.clock.marks < 268435455 }
        ensures deadline { result ≡ time_of self.old + ticks }
        ensures left { self.new ≡ with_marks self.old
            (self.old.clock.marks ++ record { deadline = result; mark = mark; settled = false; given = false } ∷ []) }
    {
        let deadline = self.time + ticks as u64;
        let place = self.marks.len() as u32;
        self.ungiven.push_reserved(place);
        self.unsettled.push_reserved(place);
        self.marks.push_reserved(Marked::new(deadline, mark));
        deadline
    }

    /// Settles the first mark with this deadline that isn't settled.
    pub fn settle(&mut self, deadline: u64, mark: Mark)
        ensures left { self.new ≡ with_marks self.old (settle_first deadline mark self.old.clock.marks) }
        ensures long { length self.new.clock.marks ≡ length self.old.clock.marks }
    {
        settle_first(deadline, mark, &mut self.marks, &mut self.unsettled);
    }

    /// Gives the first mark that is due, if there is one. Returns its deadline and what it is for.
    pub fn give(&mut self) -> Option<(u64, Mark)>
        ensures given { result ≡ given_of (first_due (time_of self.old) self.old.clock.marks) }
        ensures left { self.new ≡ with_marks self.old (give_first (time_of self.old) self.old.clock.marks) }
        ensures long { length self.new.clock.marks ≡ length self.old.clock.marks }
        ensures none { result ≡ None → self.new ≡ self.old }
    {
        give_first(self.time, &mut self.marks, &mut self.ungiven)
    }

    /// The next deadline to which time goes on, if there is one.
    pub fn later(&self) -> Option<u64>
        ensures { result ≡ later_of self.now }
    {
        next_deadline(self.time, self.marks.as_slice(), self.ungiven.as_slice())
    }

    /// Lets time go on to the next deadline. Returns that, if there is one.
    pub fn tick(&mut self) -> Option<u64>
        ensures next { result ≡ later_of self.old }
        ensures left { MatchOption result (self.new ≡ self.old) (λ next. self.new ≡ with_time self.old next) }
    {
        match self.later() {
            None => None,
            Some(next) => {
                self.time = next;
                Some(next)
            }
        }
    }
}
