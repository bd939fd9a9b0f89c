//! The tables of a state, and its steps.

mod boot;
mod checks;
mod choice;
mod cleaning;
mod creation;
mod digest;
mod domains;
mod dumped;
mod dynamic;
mod ends;
mod futexes;
mod make;
mod memory;
mod moves;
mod next;
mod objects;
mod pairs;
mod rows;
mod same;
mod says;
mod stops;
mod strings;
mod time;
mod transfer;
mod waiting;

ghost use Rattle.std.specs.Prelude.{◌≡◌, ◌<◌, ◌≤◌, length};

use crate::area::Area;
use crate::clock::Clock;
use crate::object_table::ObjectTable;
pub use choice::Choice;
use std::marker::Model;
use um_base::{AREA_SIZE, DOMAINS, Image, POOLS, Parts, ROWS, THREADS};
use um_machine::{Object, Thread, Waiters};
use um_service::Outcome;

/// The tables of a state of the machine, which contracts see as the definitions have it.
/// The bytes of the read-only data are filled up with zeros to its rounded size.
#[derive(Drop)]
pub struct Tables<'a> {
    image: &'a Image,
    rodata: Vec<u8>,
    threads: Vec<Thread>,
    objects: ObjectTable,
    pairs: Vec<[bool; THREADS]>,
    domains: Vec<Option<Parts>>,
    memory: Area,
    stacks: Area,
    pools: Vec<u32>,
    clock: Clock,
    /// Those who wait for the end of a thread.
    joins: Waiters,
    /// Those who wait on a futex.
    futexes: Waiters,
    /// Room for one outcome: what an act on an object answers and whom it wakes.
    outcome: Vec<Outcome>,
}

impl<'a> Model for Tables<'a> {
    ghost use Rattle.std.specs.Prelude.{◌≡◌, ◌≤◌, length};
    ghost use Rattle.um_base.specs.declared.limits.TheConstants.{THREADS, ROWS, DOMAINS, AREA_SIZE, POOLS};
    ghost use Rattle.um_machine.specs.{State.{State}, Memory.{rodata_of}};
    ghost use Rattle.um_steps.specs.Given.{IsGiven};

    ghost Value = { State };

    ghost view = { λ m. record {
      image = m.image.now;
      threads = m.threads.items;
      objects = m.objects;
      pairs = m.pairs.items;
      domains = m.domains.items;
      memory = m.memory;
      stacks = m.stacks;
      pools = m.pools.items;
      now = m.clock.0;
      armed = m.clock.1;
      joins = m.joins;
      futexes = m.futexes;
    } };

    ghost invariant = { λ m.
        (length m.threads.items ≡ THREADS) × (length m.objects ≡ ROWS) × (length m.pairs.items ≡ ROWS)
        × (length m.domains.items ≤ DOMAINS)
        × (length m.memory ≡ AREA_SIZE) × (length m.stacks ≡ AREA_SIZE)
        × (length m.pools.items ≤ POOLS) × (m.rodata.items ≡ rodata_of m.image.now)
        × (length m.outcome.items ≡ 1) × IsGiven m.image.now };
}

impl<'a> Tables<'a> {
    ghost use Rattle.um_machine.specs.{State.{object_at}, Memory.{rodata_of}};

    /// The image that runs.
    pub fn image(&self) -> &'a Image
        ensures { result.now ≡ self.now.image }
    {
        self.image
    }

    /// The threads, by thread index.
    pub fn threads(&self) -> &[Thread]
        ensures value { result.now ≡ self.now.threads }
        ensures all { length result.now ≡ THREADS }
    {
        self.threads.as_slice()
    }

    /// The object of a row.
    pub fn object(&self, x: usize) -> &Object
        requires { x < ROWS }
        ensures value { result.now ≡ object_at self.now x }
        ensures all { length self.now.objects ≡ ROWS }
    {
        self.objects.row(x)
    }

    /// Which threads have a pair with an object, by row and then by thread index.
    pub fn pairs(&self) -> &[[bool; THREADS]]
        ensures value { result.now ≡ self.now.pairs }
        ensures all { length result.now ≡ ROWS }
    {
        self.pairs.as_slice()
    }

    /// The partitions of the domains, where they are initialised.
    pub fn domains(&self) -> &[Option<Parts>]
        ensures value { result.now ≡ self.now.domains }
        ensures few { length result.now ≤ DOMAINS }
    {
        self.domains.as_slice()
    }

    /// The bytes of the read-only data.
    pub fn rodata(&self) -> &[u8]
        ensures { result.now ≡ rodata_of self.now.image }
    {
        self.rodata.as_slice()
    }

    /// The bytes of the area of the partitions.
    pub fn memory(&self) -> &[u8]
        ensures value { result.now ≡ self.now.memory }
        ensures all { length result.now ≡ AREA_SIZE }
    {
        self.memory.as_slice()
    }

    /// The bytes of the area of the thread stacks.
    pub fn stacks(&self) -> &[u8]
        ensures value { result.now ≡ self.now.stacks }
        ensures all { length result.now ≡ AREA_SIZE }
    {
        self.stacks.as_slice()
    }

    /// The bytes that are left in the pools.
    pub fn pools(&self) -> &[u32]
        ensures value { result.now ≡ self.now.pools }
        ensures few { length result.now ≤ POOLS }
    {
        self.pools.as_slice()
    }
}
