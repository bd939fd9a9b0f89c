//! How the state at an opening is made.

ghost use Rattle.std.specs.Prelude.{◌≡◌, ◌<◌, ◌≤◌, ◌^◌, IfOk, IfSome, List, ℕ, Bool, length, map, replicate, slice_get, true, false};
ghost use Rattle.um_base.specs.{
  declared.image.DomainDef.{DomainDef},
  declared.image.Pool.{Pool},
  Lawful.{IsLawful},
};
ghost use Rattle.um_machine.specs.{
  State.{nobody},
  Domains.{part_at},
  Run.{boot_thread, parts_of},
};

use crate::flags::put;
use crate::opening_state::OpeningState;
use std::alloc::Global;
use um_base::{
    AREA_SIZE, Addr, Attr, Boot, DOMAIN_PARTITIONS, DOMAINS, DomainDef, Image, OutOfMemory,
    PARTITION_AREA, POOLS, Partition, Parts, ROWS, Range, Row, STACK_AREA, THREADS,
};
use um_machine::Thread;
use um_steps::blank::{boot_thread, nobody};
use um_steps::bytes::write;
use um_steps::rodata::rodata;
use um_steps::rows::thread_of_row;

/// Indices on which no thread was started.
fn threads(alloc: Global) -> Result<Vec<Thread>, OutOfMemory>
    ensures items { IfOk result (λ all. all.items ≡ replicate THREADS nobody) }
    ensures all { IfOk result (λ all. length all.items ≡ THREADS) }
{
    let mut all = Vec::with_capacity(alloc, THREADS)?;
    for _ in 0..THREADS {
        all.push(nobody())?;
    }
    Ok(all)
}

/// No pairs.
fn no_pairs(alloc: Global) -> Result<Vec<[bool; THREADS]>, OutOfMemory>
    ensures items { IfOk result
        (λ pairs. pairs.items ≡ replicate {A = List Bool} ROWS (replicate {A = Bool} THREADS false)) }
    ensures all { IfOk result (λ pairs. length pairs.items ≡ ROWS) }
{
    let mut pairs = Vec::new(alloc);
    pairs.resize(ROWS, [false; THREADS])?;
    Ok(pairs)
}

/// How many bytes of an area are cleared at once.
const PAGE: usize = 1024;

/// The bytes of an area, all zero.
fn zeros(alloc: Global) -> Result<Vec<u8>, OutOfMemory>
    ensures items { IfOk result (λ bytes. bytes.items ≡ replicate {A = ℕ} AREA_SIZE 0) }
    ensures all { IfOk result (λ bytes. length bytes.items ≡ AREA_SIZE) }
{
    let page = [0; PAGE];
    let mut bytes = Vec::with_capacity(alloc, AREA_SIZE as usize)?;
    for _ in 0..AREA_SIZE as usize / PAGE {
        bytes.extend_from_slice(&page)?;
    }
    Ok(bytes)
}

/// A blank partition.
const NO_PART: (Range, Attr) = (
    Range {
        start: Addr(0),
        size: 0,
    },
    Attr(0),
);

/// The range and the rights of a partition of the image, or a blank one.
fn part_at(partitions: &[Partition], i: u8) -> (Range, Attr)
    ensures { result ≡ part_at (slice_get partitions.now i) }
{
    match partitions.get(i as usize) {
        Some(partition) => (partition.range, partition.attr),
        None => NO_PART,
    }
}

/// The partitions of these numbers.
fn parts_numbered(image: &Image, numbers: &[u8]) -> Parts
    requires { length numbers.now ≤ DOMAIN_PARTITIONS }
    ensures { result ≡ map (λ i. part_at (slice_get image.now.partitions i)) numbers.now }
{
    let mut parts = Parts::new();
    for i in numbers {
        let (range, attr) = part_at(image.partitions.as_slice(), *i);
        parts.push(range, attr);
    }
    parts
}

/// The partitions of a domain, where it is initialised.
fn parts_of(image: &Image, domain: &DomainDef) -> Option<Parts>
    requires { IfSome domain.now.parts (λ numbers. length numbers ≤ DOMAIN_PARTITIONS) }
    ensures { result ≡ parts_of image.now domain.now.parts }
{
    match &domain.parts {
        Some(numbers) => Some(parts_numbered(image, numbers.as_slice())),
        None => None,
    }
}

/// The partitions of the domains.
fn domains(alloc: Global, image: &Image) -> Result<Vec<Option<Parts>>, OutOfMemory>
    requires { IsLawful image.now }
    ensures items { IfOk result
        (λ all. all.items ≡ map (λ (d : DomainDef). parts_of image.now d.parts) image.now.domains) }
    ensures few { IfOk result (λ all. length all.items ≤ DOMAINS) }
{
    let mut all = Vec::with_capacity(alloc, DOMAINS)?;
    for domain in image.domains.as_slice() {
        all.push(parts_of(image, domain))?;
    }
    Ok(all)
}

/// What the pools have.
fn pools(alloc: Global, image: &Image) -> Result<Vec<u32>, OutOfMemory>
    ensures items { IfOk result (λ all. all.items ≡ map (λ (p : Pool). p.size) image.now.pools) }
    ensures few { IfOk result (λ all. length all.items ≤ POOLS) }
{
    let mut all = Vec::with_capacity(alloc, POOLS)?;
    for pool in image.pools.as_slice() {
        all.push(pool.size)?;
    }
    Ok(all)
}

impl<'a> OpeningState<'a> {
    ghost use Rattle.um_machine.specs.{
      Memory.{with_bytes},
      State.{with_pair, with_thread},
      Run.{granted, booted_one, booted, loaded, blank, opening},
    };

    /// A thread index has a pair with a row.
    fn give(&mut self, t: usize, x: Row)
        ensures { self.new ≡ with_pair self.old t x.0 true }
    {
        if (x.0 as usize) < self.pairs.len() {
            put(&mut self.pairs[x.0 as usize], t, true);
        }
    }

    fn grant_all(&mut self, t: usize, rows: &[Row])
        ensures { self.new ≡ granted t rows.now self.old }
    {
        for x in rows {
            self.give(t, *x);
        }
    }

    /// A boot entry's thread stands under its index.
    fn place_thread(&mut self, t: usize, boot: &Boot)
        ensures { self.new ≡ with_thread self.old t (boot_thread self.old.image boot.now) }
    {
        if t < THREADS {
            self.threads[t] = boot_thread(self.image, boot);
        }
    }

    /// A boot entry's thread, with its own object and its grants.
    fn boot_one(&mut self, boot: &Boot)
        ensures { self.new ≡ booted_one boot.now self.old }
    {
        let t = match thread_of_row(self.image, boot.thread.0 as usize) {
            Some(t) => t,
            None => 0,
        };
        self.place_thread(t, boot);
        self.give(t, boot.thread);
        self.grant_all(t, boot.grants.as_slice());
    }

    fn boot_all(&mut self, boots: &[Boot])
        ensures { self.new ≡ booted boots.now self.old }
    {
        for boot in boots {
            self.boot_one(boot);
        }
    }

    /// Writes bytes from an address on.
    fn write(&mut self, a: u32, bytes: &[u8])
        requires { length bytes.now < 2 ^ 32 }
        ensures { self.new ≡ with_bytes self.old a bytes.now }
    {
        if a < STACK_AREA {
            write(
                &mut self.memory,
                a.saturating_sub(PARTITION_AREA) as usize,
                bytes,
            );
        } else {
            write(&mut self.stacks, (a - STACK_AREA) as usize, bytes);
        }
    }

    /// The bytes of the partitions stand in memory.
    fn load_all(&mut self, partitions: &[Partition])
        ensures { self.new ≡ loaded partitions.now self.old }
    {
        for partition in partitions {
            self.write(partition.range.start.0, partition.bytes.as_slice());
        }
    }

    /// The state of an image without what the partitions and the boot entries put there.
    fn blank(alloc: Global, image: &'a Image) -> Result<OpeningState<'a>, OutOfMemory>
        requires { IsLawful image.now }
        ensures { IfOk result (λ state. state ≡ blank image.now) }
    {
        let threads = threads(alloc)?;
        let pairs = no_pairs(alloc)?;
        let domains = domains(alloc, image)?;
        let pools = pools(alloc, image)?;
        let rodata = rodata(alloc, image)?;
        let memory = zeros(alloc)?;
        let stacks = zeros(alloc)?;
        Ok(OpeningState {
            image,
            rodata,
            threads,
            pairs,
            domains,
            memory,
            stacks,
            pools,
        })
    }

    /// The state of an image at its opening.
    pub fn boot(alloc: Global, image: &'a Image) -> Result<OpeningState<'a>, OutOfMemory>
        requires lawful { IsLawful image.now }
        ensures { IfOk result (λ state. state ≡ opening image.now) }
    {
        let mut state = OpeningState::blank(alloc, image)?;
        state.load_all(image.partitions.as_slice());
        state.boot_all(image.boots.as_slice());
        Ok(state)
    }
}
