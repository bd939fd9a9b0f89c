//! Whether two states of an image are the same, and a state that is taken over.

ghost use Rattle.std.specs.Prelude.{◌≡◌, ◌≤◌, IfOk, IsTrue, OnErr, OnOk, length};

use crate::tables::Tables;
use std::alloc::Global;
use um_base::{OutOfMemory, Parts, THREADS};
use um_machine::{Thread, Waiters};

/// Whether two lists of equally many threads are the same.
fn same_threads(a: &[Thread], b: &[Thread]) -> bool
    requires { length a.now ≡ length b.now }
    ensures { IsTrue result → a.now ≡ b.now }
{
    for t in 0..a.len() {
        if !a[t].is_same(&b[t]) {
            return false;
        }
    }
    true
}

/// Takes over a thread, where it isn't the same already.
fn take_thread(own: &mut Thread, other: &Thread)
    ensures { own.new ≡ other.now }
{
    if !own.is_same(other) {
        *own = other.copy();
    }
}

/// Takes over a list of equally many threads.
fn take_threads(own: &mut [Thread], other: &[Thread])
    requires { length own.old ≡ length other.now }
    ensures { own.new ≡ other.now }
{
    for t in 0..other.len() {
        take_thread(&mut own[t], &other[t]);
    }
}

/// Takes over those who wait, where they aren't the same already.
fn take_waiters(own: &mut Waiters, other: &Waiters)
    ensures { own.new ≡ other.now }
{
    if !own.is_same(other) {
        *own = other.copy();
    }
}

/// Whether the same threads have pairs with the same objects.
fn same_pairs(a: &[[bool; THREADS]], b: &[[bool; THREADS]]) -> bool
    ensures { IsTrue result → a.now ≡ b.now }
{
    a == b
}

/// Whether the domains have the same partitions.
fn same_domains(a: &[Option<Parts>], b: &[Option<Parts>]) -> bool
    ensures { IsTrue result → a.now ≡ b.now }
{
    a == b
}

/// The same domains once more.
fn copy_domains(alloc: Global, domains: &[Option<Parts>]) -> Result<Vec<Option<Parts>>, OutOfMemory>
    ensures { IfOk result (λ copy. copy.items ≡ domains.now) }
{
    let mut copy = Vec::with_capacity(alloc, domains.len())?;
    for domain in domains {
        copy.push_reserved(*domain);
    }
    Ok(copy)
}

/// The same numbers once more.
fn copy_numbers(alloc: Global, numbers: &[u32]) -> Result<Vec<u32>, OutOfMemory>
    ensures { IfOk result (λ copy. copy.items ≡ numbers.now) }
{
    let mut copy = Vec::with_capacity(alloc, numbers.len())?;
    for number in numbers {
        copy.push_reserved(*number);
    }
    Ok(copy)
}

impl<'a> Tables<'a> {
    /// Whether two states of one image are the same.
    pub fn is_same(&self, other: &Tables) -> bool
        requires { self.now.image ≡ other.now.image }
        ensures { IsTrue result → self.now ≡ other.now }
    {
        if !self.clock.is_same(&other.clock) || !same_threads(&self.threads, &other.threads) {
            return false;
        }
        if !self.objects.is_same(&other.objects) || !same_pairs(&self.pairs, &other.pairs) {
            return false;
        }
        if !same_domains(&self.domains, &other.domains) || self.pools != other.pools {
            return false;
        }
        if !self.joins.is_same(&other.joins) || !self.futexes.is_same(&other.futexes) {
            return false;
        }
        self.memory.is_same(&other.memory) && self.stacks.is_same(&other.stacks)
    }

    /// Takes over another state of the same image. Where memory runs out, nothing is changed.
    pub(crate) fn set_to(&mut self, alloc: Global, other: &Tables) -> Result<(), OutOfMemory>
        requires { self.old.image ≡ other.now.image }
        ensures ok { OnOk result (self.new ≡ other.now) }
        ensures same { OnErr result (self.new ≡ self.old) }
    {
        let domains = copy_domains(alloc, &other.domains)?;
        let pools = copy_numbers(alloc, &other.pools)?;
        self.domains = domains;
        self.pools = pools;
        take_threads(&mut self.threads, &other.threads);
        self.objects.set_to(&other.objects);
        self.pairs
            .as_mut_slice()
            .copy_from_slice(other.pairs.as_slice());
        self.memory.set_to(&other.memory);
        self.stacks.set_to(&other.stacks);
        self.clock.set_to(&other.clock);
        take_waiters(&mut self.joins, &other.joins);
        take_waiters(&mut self.futexes, &other.futexes);
        Ok(())
    }

    /// Looks for the last bytes of both areas that aren't 0, so that less is compared and taken over later.
    pub(crate) fn trim(&mut self)
        ensures { self.new ≡ self.old }
    {
        self.memory.trim();
        self.stacks.trim();
    }
}
