//! The contents of the scheduler's cell.

ghost use Rattle.std.specs.{
  Prelude.{◌≡◌, ◌+◌, ◌-◌, ◌<◌, ◌≤◌, ◌&&◌, ◌||◌, [], false, length, nat_lt, is_some, not, pos, replicate, slice_index_or, true, IfOk, IsTrue, MatchOption},
  List.{All},
};
ghost use Rattle.um_base.specs.declared.limits.TheConstants.{THREADS};
ghost use Rattle.um_fine.specs.{
  Scheduler.{behind, first_ready, first_taken, has_place, has_ready, is_ready, one_less, parked_at, put_back},
  Opening.{indexed},
  Steps.{Exchange},
};
ghost use Rattle.um_machine.specs.State.{is_living};
ghost use Rattle.um_tables.specs.{
  Contexts.{rests},
  Parked.{awake, nobody, resting, scheduler_of, some_if, stopped},
};

use crate::context::Context;
use crate::parked::Parked;
use arrayvec::ArrayVec;
use std::alloc::Global;
use std::marker::Model;
use um_base::{OutOfMemory, THREADS, ThreadIx, Told};
use um_machine::{Life, Thread};

/// The ready list, the threads that no processor runs, how many threads run, and how many marks are owed.
#[derive(Drop)]
pub struct Scheduler {
    ready: ArrayVec<u8, THREADS>,
    /// By thread index.
    places: Vec<Parked>,
    running: u8,
    /// Below 2^19.
    owed: u32,
}

impl Model for Scheduler {
    ghost use Rattle.std.specs.{Prelude.{◌≡◌, ◌<◌, length}, List.{All}};
    ghost use Rattle.um_base.specs.declared.limits.TheConstants.{THREADS};
    ghost use Rattle.um_fine.specs.Scheduler.{Scheduler as Contents};
    ghost use Rattle.um_tables.specs.Parked.{scheduler_of};

    ghost Value = { Contents };

    ghost view = { λ s. scheduler_of s.ready.items s.places.items s.running s.owed };

    ghost invariant = { λ s. (length s.places.items ≡ THREADS) × All (λ t. t < THREADS) s.ready.items };
}

/// Whether a thread stands in the ready list once it is put back.
fn is_ready(waits: bool, is_told: bool, is_cut: bool) -> bool
    ensures { result ≡ (not waits || is_told || is_cut) }
{
    !waits || is_told || is_cut
}

/// Adds a thread to the ready list, if it is ready.
fn join(ready: &mut ArrayVec<u8, THREADS>, thread: u8, is_ready: bool)
    requires { length ready.old.items < THREADS }
    ensures items { ready.new.items ≡ behind is_ready thread ready.old.items }
    ensures small { thread < THREADS → All (λ t. t < THREADS) ready.old.items
        → All (λ t. t < THREADS) ready.new.items }
{
    if is_ready {
        ready.push(thread);
    }
}

/// An empty place for each thread index.
fn places(alloc: Global) -> Result<Vec<Parked>, OutOfMemory>
    ensures items { IfOk result (λ all. all.items ≡ replicate THREADS nobody) }
    ensures all { IfOk result (λ all. length all.items ≡ THREADS) }
{
    let mut all = Vec::with_capacity(alloc, THREADS)?;
    for _ in 0..THREADS {
        all.push(Parked::empty(Box::new(alloc, Context::idle())?))?;
    }
    Ok(all)
}

/// Whether a thread lives.
fn is_living(life: Life) -> bool
    ensures { result ≡ is_living life }
{
    match life {
        Life::Living => true,
        _ => false,
    }
}

/// The place of a thread that is at rest.
fn resting(alloc: Global, t: u8, thread: &Thread) -> Result<Parked, OutOfMemory>
    requires index { t < THREADS }
    requires rests { rests thread.now }
    ensures { IfOk result (λ place. place ≡ resting t thread.now) }
{
    let context = Box::new(alloc, Context::at_rest(t, thread))?;
    Ok(Parked::of(context, is_living(thread.life)))
}

/// The places of threads that are at rest.
fn all_resting(alloc: Global, threads: &[Thread]) -> Result<Vec<Parked>, OutOfMemory>
    requires few { length threads.now ≤ THREADS }
    requires rest { All rests threads.now }
    ensures items { IfOk result (λ all. all.items ≡ indexed resting 0 threads.now) }
    ensures all { IfOk result (λ all. length all.items ≡ length threads.now) }
{
    let mut all = Vec::with_capacity(alloc, THREADS)?;
    for (t, thread) in threads.iter().enumerate() {
        all.push(resting(alloc, t as u8, thread)?)?;
    }
    Ok(all)
}

impl Scheduler {
    /// Makes the contents without threads, with room for each.
    pub fn new(alloc: Global) -> Result<Scheduler, OutOfMemory>
        ensures { IfOk result (λ s. s ≡ scheduler_of [] (replicate THREADS nobody) 0 0) }
    {
        Ok(Scheduler {
            ready: ArrayVec::new(),
            places: places(alloc)?,
            running: 0,
            owed: 0,
        })
    }

    /// Makes the contents with these threads at rest. Those in the list are ready.
    pub fn at_rest(
        alloc: Global,
        ready: ArrayVec<u8, THREADS>,
        threads: &[Thread],
    ) -> Result<Scheduler, OutOfMemory>
        requires ready { All (λ t. t < THREADS) ready.items }
        requires all { length threads.now ≡ THREADS }
        requires rest { All rests threads.now }
        ensures { IfOk result (λ s. s ≡ scheduler_of ready.items (indexed resting 0 threads.now) 0 0) }
    {
        Ok(Scheduler {
            ready,
            places: all_resting(alloc, threads)?,
            running: 0,
            owed: 0,
        })
    }

    /// Takes the first ready thread out, leaves the given room in its stead, and writes what the thread was told. Returns whether it was
    /// told something, or `None` if no thread can be taken.
    pub fn take(&mut self, context: &mut Box<Context>, told: &mut Told) -> Option<bool>
        ensures { MatchOption result
            ((self.new ≡ self.old) × (context.new ≡ context.old) × (told.new ≡ told.old)
            × (has_ready self.old self.old.ready ≡ false))
            (λ woken. IsTrue (has_ready self.old self.old.ready)
            × (self.new ≡ first_taken self.old self.old.ready)
            × (first_ready self.old self.old.ready ≡ Exchange.thread context.new.value
            (some_if woken told.new))) }
    {
        if self.running == 255 {
            return None;
        }
        let first = match self.ready.as_slice().first() {
            None => return None,
            Some(first) => *first,
        };
        let place = &mut self.places[first as usize];
        if !place.is_there() {
            return None;
        }
        let woken = place.take(context, told);
        self.ready.remove(0);
        self.running += 1;
        Some(woken)
    }

    /// Counts one running thread less, for a thread that isn't put back. Returns whether one ran.
    pub fn done(&mut self) -> bool
        ensures made { IsTrue result → (0 < self.old.running) × (self.new ≡ one_less self.old) }
        ensures refused { result ≡ false → (self.new ≡ self.old) × (self.old.running ≡ 0) }
    {
        if self.running == 0 {
            return false;
        }
        self.running -= 1;
        true
    }

    /// Puts a thread back, and gives the room for it back. Returns whether the thread is ready.
    pub fn park(&mut self, context: &mut Box<Context>) -> Option<bool>
        ensures { MatchOption result
            ((self.new ≡ self.old) × (context.new ≡ context.old)
            × ((nat_lt 0 self.old.running && has_place self.old) ≡ false))
            (λ ready. IsTrue (nat_lt 0 self.old.running && has_place self.old)
            × (ready ≡ is_ready self.old context.old.value)
            × (self.new ≡ one_less (put_back self.old ready context.old.value))) }
    {
        if self.running == 0 || self.ready.len() >= THREADS {
            return None;
        }
        let thread = context.thread();
        let waits = context.waits();
        let place = &mut self.places[thread as usize];
        let ready = is_ready(waits, place.is_told(), place.is_cut());
        place.put(context);
        join(&mut self.ready, thread, ready);
        self.running -= 1;
        Some(ready)
    }

    /// Tells a thread what woke it, and makes it ready if it has been put back. Returns whether it has.
    pub fn wake(&mut self, who: ThreadIx, told: &Told) -> Option<bool>
        requires { who.0 < THREADS }
        ensures { MatchOption result
            ((self.new ≡ self.old) × (has_place self.old ≡ false))
            (λ ready. IsTrue (has_place self.old) × (ready ≡ is_some (parked_at self.old who.0))
            × (self.new ≡ awake self.old ready who.0 told.now)) }
    {
        if self.ready.len() >= THREADS {
            return None;
        }
        let place = &mut self.places[who.0 as usize];
        let ready = place.is_there();
        place.tell(told);
        join(&mut self.ready, who.0, ready);
        Some(ready)
    }

    /// Keeps that a thread was cut, and makes it ready if it has been put back. Returns whether it has.
    pub fn cut(&mut self, who: ThreadIx) -> Option<bool>
        requires { who.0 < THREADS }
        ensures { MatchOption result
            ((self.new ≡ self.old) × (has_place self.old ≡ false))
            (λ ready. IsTrue (has_place self.old) × (ready ≡ is_some (parked_at self.old who.0))
            × (self.new ≡ stopped self.old ready who.0)) }
    {
        if self.ready.len() >= THREADS {
            return None;
        }
        let place = &mut self.places[who.0 as usize];
        let ready = place.is_there();
        place.cut();
        join(&mut self.ready, who.0, ready);
        Some(ready)
    }

    /// One mark more is owed. Returns whether there is room for that.
    pub fn owe(&mut self) -> bool
        ensures made { IsTrue result → (self.old.owed < 524287) × (self.new ≡ record self.old { owed = self.old.owed + 1 }) }
        ensures refused { result ≡ false → (self.new ≡ self.old) × (nat_lt self.old.owed 524287 ≡ false) }
    {
        if self.owed >= 524_287 {
            return false;
        }
        self.owed += 1;
        true
    }

    /// One mark less is owed. Returns whether one was.
    pub fn pay(&mut self) -> bool
        ensures made { IsTrue result → (0 < self.old.owed) × (self.new ≡ record self.old { owed = self.old.owed - 1 }) }
        ensures refused { result ≡ false → (self.new ≡ self.old) × (self.old.owed ≡ 0) }
    {
        if self.owed == 0 {
            return false;
        }
        self.owed -= 1;
        true
    }

    /// Makes a new thread ready, and gives the room for it back. Returns whether the ready list had a place.
    pub fn add(&mut self, context: &mut Box<Context>) -> bool
        ensures made { IsTrue result → IsTrue (has_place self.old)
            × (self.new ≡ put_back self.old true context.old.value) }
        ensures refused { result ≡ false → (self.new ≡ self.old) × (context.new ≡ context.old)
            × (has_place self.old ≡ false) }
    {
        if self.ready.len() >= THREADS {
            return false;
        }
        let thread = context.thread();
        self.places[thread as usize].put(context);
        join(&mut self.ready, thread, true);
        true
    }

    /// The priority of the thread that was put at this place last, -16 to 14.
    pub fn priority(&self, thread: usize) -> i8
        requires { thread < THREADS }
        ensures { result ≡ slice_index_or self.now.priorities thread (pos 0) }
    {
        self.places[thread].priority()
    }

    /// How many threads are ready.
    pub fn ready(&self) -> u8
        ensures { result ≡ length self.now.ready }
    {
        self.ready.len() as u8
    }

    /// How many marks are owed.
    pub fn owed(&self) -> u32
        ensures { result ≡ self.now.owed }
    {
        self.owed
    }

    /// How many threads run.
    pub fn running(&self) -> u8
        ensures { result ≡ self.now.running }
    {
        self.running
    }
}
