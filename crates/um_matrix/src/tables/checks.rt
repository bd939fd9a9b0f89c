//! What is tested of objects, pairs and pools.

ghost use Rattle.std.specs.{
  Prelude.{◌≡◌, ◌<◌, ◌≤◌, not, false, slice_set, slice_index_or, length, List, Bool},
  List.{list_all},
};
ghost use Rattle.um_machine.specs.{Objects.{any_holds, init_verdict}, Table.{set_said}};

use crate::places::row_at;
use crate::tables::Tables;
use crate::tables::moves::{flag, holders_of};
use um_base::{
    Addr, Errno, Given, Image, Kind, Leftover, Mode, ROWS, STATIC_ROWS, STATIC_THREADS, SetSaid,
    THREADS, ThreadIx, Want,
};
use um_boot::flags::put;
use um_machine::{Object, Status, Thread};
use um_steps::holds::holds;
use um_steps::kinds::has_kind;
use um_steps::rows::own_row;

impl<'a> Tables<'a> {
    ghost use Rattle.um_base.specs.Places.{own_row};
    ghost use Rattle.um_machine.specs.{
      Objects.{verdict, row_verdict, has_none, is_held},
      Table.{row_of, dropped, given, left_in, pays},
    };

    /// The row at an address.
    pub(crate) fn row_of(&self, a: Addr) -> usize
        ensures value { result ≡ row_of self.now a }
        ensures small { result < ROWS }
    {
        match row_at(self.image, a.0) {
            Some(x) => x,
            None => 0,
        }
    }

    /// The row of a thread's own object, which is past the table where there is no such thread.
    pub(crate) fn own_row(&self, who: ThreadIx) -> usize
        ensures value { result ≡ own_row self.now.image who.0 }
        ensures bound { result < 512 }
    {
        let t = who.0 as usize;
        if t < THREADS {
            own_row(self.image, t)
        } else {
            STATIC_ROWS + (t - STATIC_THREADS)
        }
    }

    /// The verdict on the object of a row.
    pub(crate) fn row_verdict(
        &self,
        t: usize,
        kind: Option<Kind>,
        want: Want,
        x: usize,
    ) -> Option<Errno>
        requires thread { t < THREADS }
        requires row { x < ROWS }
        ensures { result ≡ row_verdict self.now t kind want x }
    {
        let object = self.objects.row(x);
        if object.status != Status::Live || !has_kind(kind, object.kind) {
            return Some(Errno::EBADF);
        }
        if self.threads[t].mode == Mode::User && !self.pairs[x][t] && !object.public {
            return Some(Errno::EPERM);
        }
        init_verdict(want, object.init)
    }

    /// What a thread's check of an address says: none where it is ok.
    pub(crate) fn verdict(&self, t: usize, a: Addr, kind: Option<Kind>, want: Want) -> Option<Errno>
        requires { t < THREADS }
        ensures { result ≡ verdict self.now t a.0 kind want }
    {
        match row_at(self.image, a.0) {
            Some(x) => self.row_verdict(t, kind, want, x),
            None => Some(Errno::EBADF),
        }
    }

    /// What dropping a pair says.
    pub(crate) fn dropped(&self, t: usize, x: usize) -> Leftover
        requires { x < ROWS }
        ensures { result ≡ dropped self.now t x }
    {
        if !flag(holders_of(self.pairs.as_slice(), x), t) {
            return Leftover::NoPair;
        }
        if x >= STATIC_ROWS && nobody_but(self.pairs[x], t) {
            Leftover::Gone
        } else {
            Leftover::Kept
        }
    }

    /// Whether the object of a row still stands.
    pub(crate) fn given(&self, x: usize) -> Given
        ensures { result ≡ given self.now x }
    {
        let objects = &self.objects;
        if x < ROWS && objects.row(x).status == Status::Gone {
            Given::Gone
        } else {
            Given::Done
        }
    }

    /// Whether any thread holds an object.
    pub(crate) fn is_held(&self, x: usize) -> bool
        requires { x < ROWS }
        ensures { result ≡ is_held self.now x }
    {
        any_holds(self.image, x, self.threads.as_slice())
    }

    /// Whether a thread index has no pair.
    pub(crate) fn has_none(&self, t: usize) -> bool
        ensures { result ≡ has_none self.now t }
    {
        no_flag_at(self.pairs.as_slice(), t)
    }

    /// Whether a thread's pool pays for this.
    pub(crate) fn pays(&self, pool: Option<u8>, size: u32) -> bool
        ensures { result ≡ pays self.now pool size }
    {
        match pool {
            Some(pool) => size <= left(self.pools.as_slice(), pool),
            None => false,
        }
    }
}

/// What is left in a pool.
fn left(pools: &[u32], pool: u8) -> u32
    ensures { result ≡ slice_index_or pools.now pool 0 }
{
    match pools.get(pool as usize) {
        Some(left) => *left,
        None => 0,
    }
}

/// Whether the initialised state is another than the one wanted, and the error then.
fn init_verdict(want: Want, init: bool) -> Option<Errno>
    ensures { result ≡ init_verdict want init }
{
    match want {
        Want::Init => { if init { None } else { Some(Errno::EINVAL) } }
        Want::Uninit => { if init { Some(Errno::EADDRINUSE) } else { None } }
        Want::Any => None,
    }
}

/// What marking an object as initialised says.
pub(crate) fn set_said(object: &Object, strict: bool) -> SetSaid
    ensures { result ≡ set_said object.now strict }
{
    if object.status == Status::Gone {
        return if strict {
            SetSaid::Fail(Errno::EBADF)
        } else {
            SetSaid::Gone
        };
    }
    if strict && object.init {
        SetSaid::Fail(Errno::EADDRINUSE)
    } else {
        SetSaid::Done
    }
}

/// Whether any of the threads holds an object.
fn any_holds(image: &Image, x: usize, threads: &[Thread]) -> bool
    requires few { length threads.now ≤ THREADS }
    requires row { x < ROWS }
    ensures { result ≡ any_holds image.now x 0 threads.now }
{
    for (t, thread) in threads.iter().enumerate() {
        if holds(image, x, t, thread) {
            return true;
        }
    }
    false
}

/// Whether no row has this thread's flag.
fn no_flag_at(pairs: &[[bool; THREADS]], t: usize) -> bool
    ensures { result ≡ list_all (λ (flags : List Bool). not (slice_index_or flags t false)) pairs.now }
{
    pairs.iter().all(|flags| !flag(flags, t))
}

/// Whether no flag is set.
pub(crate) fn none_set(flags: &[bool]) -> bool
    ensures { result ≡ list_all not flags.now }
{
    flags.iter().all(|flag| !*flag)
}

/// Whether no flag but this one is set.
fn nobody_but(holders: [bool; THREADS], t: usize) -> bool
    ensures { result ≡ list_all not (slice_set holders t false) }
{
    let mut others = holders;
    put(&mut others, t, false);
    none_set(&others)
}
