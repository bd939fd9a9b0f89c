//! Virtual time, and the deadlines that were armed.

ghost use Rattle.std.specs.Prelude.{◌≡◌, ◌+◌, ◌<◌, ◌≤◌, ◌*◌, ◌^◌, ◌++◌, ◌∷◌, [], IfOk, IsTrue, if◌then◌else◌, length, nat_lt, unwrap_or, vec_capacity};
ghost use Rattle.um_base.specs.declared.limits.TheConstants.{MOST_WEIGHT};
ghost use Rattle.um_machine.specs.Time.{next_deadline};
ghost use Rattle.um_matrix.specs.Ahead.{AreAscending, with_deadline};

use std::alloc::Global;
use std::marker::Model;
use um_base::{MOST_WEIGHT, OutOfMemory};

/// Virtual time, in ticks from the beginning, and the deadlines in the order in which they were armed. Those that lie ahead stand beside
/// them, so that a step looks at the first of these alone. Room for as many as a run can arm is reserved from the beginning. Contracts see
/// the time, and all deadlines.
#[derive(Drop)]
pub struct Clock {
    present: u64,
    armed: Vec<u64>,
    /// The deadlines ahead, ascending. One that was armed more than once stands there once.
    ahead: Vec<u64>,
}

impl Model for Clock {
    ghost use Rattle.std.specs.Prelude.{ℕ, List, ◌≤◌, ◌*◌, ◌^◌, length, vec_capacity};
    ghost use Rattle.um_base.specs.declared.limits.TheConstants.{MOST_WEIGHT};
    ghost use Rattle.um_matrix.specs.Ahead.{IsAhead};

    ghost Value = { ℕ × List ℕ };

    ghost view = { λ c. (c.present, c.armed.items) };

    ghost invariant = { λ c.
        (length c.armed.items ≤ MOST_WEIGHT) × (MOST_WEIGHT ≤ vec_capacity c.armed) × (MOST_WEIGHT ≤ vec_capacity c.ahead)
        × (c.present ≤ length c.armed.items * 2 ^ 32)
        × IsAhead c.present c.armed.items c.ahead.items };
}

/// Puts a deadline at its place among those that lie ahead, if it lies ahead and isn't among them. It takes no memory.
fn put(now: u64, deadline: u64, ahead: &mut Vec<u64>)
    requires room { length ahead.old.items < vec_capacity ahead.old }
    requires ascend { AreAscending ahead.old.items }
    ensures items { ahead.new.items ≡ if nat_lt now deadline then with_deadline deadline ahead.old.items else ahead.old.items }
    ensures room { vec_capacity ahead.new ≡ vec_capacity ahead.old }
{
    if deadline <= now {
        return;
    }
    if let Err(place) = ahead.binary_search(&deadline) {
        let _ = ahead.insert(place, deadline);
    }
}

/// Puts numbers in place of those in a list. It takes no memory.
fn refill(list: &mut Vec<u64>, numbers: &[u64])
    requires { length numbers.now ≤ vec_capacity list.old }
    ensures items { list.new.items ≡ numbers.now }
    ensures room { vec_capacity list.new ≡ vec_capacity list.old }
{
    list.clear();
    for number in numbers {
        list.push_reserved(*number);
    }
}

impl Clock {
    /// Time 0, without deadlines.
    pub fn new(alloc: Global) -> Result<Clock, OutOfMemory>
        ensures { IfOk result (λ clock. clock ≡ (0, [])) }
    {
        Ok(Clock {
            present: 0,
            armed: Vec::with_capacity(alloc, MOST_WEIGHT as usize)?,
            ahead: Vec::with_capacity(alloc, MOST_WEIGHT as usize)?,
        })
    }

    /// Takes the time and the deadlines of another clock. It takes no memory.
    pub fn set_to(&mut self, other: &Clock)
        ensures { self.new ≡ other.now }
    {
        self.present = other.present;
        refill(&mut self.armed, other.armed.as_slice());
        refill(&mut self.ahead, other.ahead.as_slice());
    }

    /// Whether two clocks have the same time, and the same deadlines were armed.
    pub fn is_same(&self, other: &Clock) -> bool
        ensures { IsTrue result → self.now ≡ other.now }
    {
        if self.present != other.present {
            return false;
        }
        self.armed.as_slice() == other.armed.as_slice()
    }

    /// The ticks from the beginning.
    pub fn now(&self) -> u64
        ensures { result ≡ self.now.0 }
    {
        self.present
    }

    /// The deadline after so many ticks from now.
    pub fn deadline(&self, ticks: u32) -> u64
        ensures { result ≡ self.now.0 + ticks }
    {
        self.present + ticks as u64
    }

    /// The deadline to which time goes on next, if there is one.
    pub fn next(&self) -> Option<u64>
        ensures { result ≡ next_deadline self.now.0 self.now.1 }
    {
        self.ahead.first().copied()
    }

    /// Arms the deadline after so many ticks from now. It takes no memory.
    pub fn arm(&mut self, ticks: u32) -> u64
        requires { length self.old.1 < MOST_WEIGHT }
        ensures deadline { result ≡ self.old.0 + ticks }
        ensures armed { self.new ≡ (self.old.0, self.old.1 ++ result ∷ []) }
    {
        let deadline = self.present + ticks as u64;
        put(self.present, deadline, &mut self.ahead);
        self.armed.push_reserved(deadline);
        deadline
    }

    /// Time goes on to the next deadline, where there is one.
    pub fn tick(&mut self)
        ensures { self.new ≡ (unwrap_or (next_deadline self.old.0 self.old.1) self.old.0, self.old.1) }
    {
        if let Some(next) = self.next() {
            self.present = next;
            self.ahead.remove(0);
        }
    }
}
