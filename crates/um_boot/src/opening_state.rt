//! The state of an image at its opening.

mod boot;

ghost use Rattle.std.specs.Prelude.{◌≡◌, ◌≤◌, [], length};

use crate::opening_parts::OpeningParts;
use std::marker::Model;
use um_base::{AREA_SIZE, DOMAINS, Image, POOLS, Parts, ROWS, THREADS};
use um_machine::Thread;

/// A state of the machine whose objects are still those of the image. Contracts see the state as the definitions have it.
/// No object is made: the image says what stands at each row. No time has passed, and nobody waits.
#[derive(Drop)]
pub struct OpeningState<'a> {
    image: &'a Image,
    rodata: Vec<u8>,
    threads: Vec<Thread>,
    pairs: Vec<[bool; THREADS]>,
    domains: Vec<Option<Parts>>,
    memory: Vec<u8>,
    stacks: Vec<u8>,
    pools: Vec<u32>,
}

impl<'a> Model for OpeningState<'a> {
    ghost use Rattle.std.specs.Prelude.{◌≡◌, ◌≤◌, [], length};
    ghost use Rattle.um_base.specs.declared.limits.TheConstants.{THREADS, ROWS, DOMAINS, AREA_SIZE, POOLS};
    ghost use Rattle.um_machine.specs.{State.{State}, Memory.{rodata_of}, Run.{objects_from}};
    ghost use Rattle.um_steps.specs.Given.{IsGiven};

    ghost Value = { State };

    ghost view = { λ m. record {
      image = m.image.now;
      threads = m.threads.items;
      objects = objects_from m.image.now.boots 0 m.image.now.objects;
      pairs = m.pairs.items;
      domains = m.domains.items;
      memory = m.memory.items;
      stacks = m.stacks.items;
      pools = m.pools.items;
      now = 0;
      armed = [];
      joins = [];
      futexes = [];
    } };

    ghost invariant = { λ m.
        (length m.threads.items ≡ THREADS) × (length m.pairs.items ≡ ROWS)
        × (length m.domains.items ≤ DOMAINS)
        × (length m.memory.items ≡ AREA_SIZE) × (length m.stacks.items ≡ AREA_SIZE)
        × (length m.pools.items ≤ POOLS) × (m.rodata.items ≡ rodata_of m.image.now)
        × IsGiven m.image.now };
}

impl<'a> OpeningState<'a> {
    ghost use Rattle.um_machine.specs.{Memory.{rodata_of}, Run.{objects_from}};
    ghost use Rattle.um_steps.specs.Given.{IsGiven};

    /// The image that opens, which has the objects.
    pub fn image(&self) -> &'a Image
        ensures value { result.now ≡ self.now.image }
        ensures objects { self.now.objects ≡ objects_from self.now.image.boots 0 self.now.image.objects }
    {
        self.image
    }

    /// The threads, by thread index.
    pub fn threads(&self) -> &[Thread]
        ensures value { result.now ≡ self.now.threads }
        ensures all { length result.now ≡ THREADS }
    {
        self.threads.as_slice()
    }

    /// Which threads have a pair with an object, by row and then by thread index.
    pub fn pairs(&self) -> &[[bool; THREADS]]
        ensures value { result.now ≡ self.now.pairs }
        ensures all { length result.now ≡ ROWS }
    {
        self.pairs.as_slice()
    }

    /// The partitions of the domains, where they are initialised.
    pub fn domains(&self) -> &[Option<Parts>]
        ensures value { result.now ≡ self.now.domains }
        ensures few { length result.now ≤ DOMAINS }
    {
        self.domains.as_slice()
    }

    /// The state without its objects, taken apart.
    pub fn into_parts(self) -> OpeningParts<'a>
        ensures image { result.image.now ≡ self.entry.image }
        ensures given { IsGiven result.image.now }
        ensures rodata { result.rodata.items ≡ rodata_of self.entry.image }
        ensures threads { result.threads.items ≡ self.entry.threads }
        ensures all_threads { length result.threads.items ≡ THREADS }
        ensures objects { self.entry.objects ≡ objects_from self.entry.image.boots 0 self.entry.image.objects }
        ensures pairs { result.pairs.items ≡ self.entry.pairs }
        ensures all_pairs { length result.pairs.items ≡ ROWS }
        ensures domains { result.domains.items ≡ self.entry.domains }
        ensures few_domains { length result.domains.items ≤ DOMAINS }
        ensures memory { result.memory.items ≡ self.entry.memory }
        ensures whole_memory { length result.memory.items ≡ AREA_SIZE }
        ensures stacks { result.stacks.items ≡ self.entry.stacks }
        ensures whole_stacks { length result.stacks.items ≡ AREA_SIZE }
        ensures pools { result.pools.items ≡ self.entry.pools }
        ensures few_pools { length result.pools.items ≤ POOLS }
        ensures now { self.entry.now ≡ 0 }
        ensures armed { self.entry.armed ≡ [] }
        ensures joins { self.entry.joins ≡ [] }
        ensures futexes { self.entry.futexes ≡ [] }
    {
        OpeningParts {
            image: self.image,
            rodata: self.rodata,
            threads: self.threads,
            pairs: self.pairs,
            domains: self.domains,
            memory: self.memory,
            stacks: self.stacks,
            pools: self.pools,
        }
    }
}
