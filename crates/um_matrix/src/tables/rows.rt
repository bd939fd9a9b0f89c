//! Which rows the steps may choose.

ghost use Rattle.std.specs.Prelude.{◌≡◌, ◌<◌, ◌≤◌, ◌↔◌, ◌⊎◌, IsTrue, None, Some, ℕ, false};
ghost use Rattle.um_machine.specs.Order.{to_thread};
ghost use Rattle.um_matrix.specs.Offered.{row_count};

use crate::tables::Tables;
use crate::tables::checks::none_set;
use crate::tables::moves::{flag, holders_of};
use um_base::{Addr, FUTEX_CELL, Kind, ROWS, STATIC_ROWS, THREADS, ThreadIx};
use um_machine::{Pending, Status};
use um_steps::kinds::{dynamic_kind, kind_number};
use um_steps::rows::{own_row, thread_of_row};
use um_steps::time::{has_come, has_run_out};

/// Whether no other thread cleans.
fn no_other(cleaner: Option<ThreadIx>, t: usize) -> bool
    ensures { IsTrue result ↔ ((cleaner ≡ None) ⊎ (cleaner ≡ Some (to_thread t))) }
{
    match cleaner {
        None => true,
        Some(cleaner) => cleaner.0 as usize == t,
    }
}

impl<'a> Tables<'a> {
    ghost use Rattle.um_machine.specs.Run.{MayChoose, MayClean, NoPairsOf, is_free_for};

    /// Whether an inheritance may pass on the pair with a row.
    fn may_inherit(&self, t: usize, x: usize, who: ThreadIx) -> bool
        requires thread { t < THREADS }
        requires row { x < ROWS }
        ensures { IsTrue result ↔ MayChoose self.now t x (Pending.Inherit who) }
    {
        let holders = holders_of(self.pairs.as_slice(), x);
        flag(holders, t) && !flag(holders, who.0 as usize) && x != own_row(self.image, t)
    }

    /// Whether the drops of an end may drop the pair with a row.
    fn may_drop(&self, t: usize, x: usize, from: u8) -> bool
        requires thread { t < THREADS }
        requires row { x < ROWS }
        ensures { IsTrue result ↔ MayChoose self.now t x (Pending.Drops from) }
    {
        from as usize <= x && self.pairs[x][t] && none_set(&self.threads[t].due[..x])
    }

    /// Whether a row is free for an object of this kind.
    fn is_free_for(&self, kind: Kind, x: usize) -> bool
        requires { x < ROWS }
        ensures { result ≡ is_free_for self.now kind x }
    {
        x >= STATIC_ROWS
            && kind_number(dynamic_kind(x)) == kind_number(kind)
            && self.objects.row(x).status == Status::Free
    }

    /// Whether no row is free for an object of this kind.
    fn none_is_free(&self, kind: Kind) -> bool
        ensures yes { IsTrue result → (x : ℕ) → is_free_for self.now kind x ≡ false }
        ensures no { result ≡ false → (x : ℕ) × (x < ROWS) × IsTrue (is_free_for self.now kind x) }
    {
        for x in 0..ROWS {
            if self.is_free_for(kind, x) {
                return false;
            }
        }
        true
    }

    /// Whether a reservation may choose a row, or NULL as the first row.
    fn may_reserve(&self, t: usize, x: usize, kind: Kind) -> bool
        requires thread { t < THREADS }
        requires row { x < ROWS }
        ensures { IsTrue result ↔ MayChoose self.now t x (Pending.Reserve kind) }
    {
        let pays = self.pays(self.threads[t].pool, 64);
        if x == 0 {
            !pays || self.none_is_free(kind)
        } else {
            pays && self.is_free_for(kind, x)
        }
    }

    /// Whether a thread cleans an object: it is gone, nobody holds it, and no other thread has begun to.
    fn may_clean(&self, t: usize, x: usize) -> bool
        ensures { IsTrue result ↔ MayClean self.now t x }
    {
        let objects = &self.objects;
        if x >= ROWS {
            return false;
        }
        let object = objects.row(x);
        object.status == Status::Gone && !self.is_held(x) && no_other(object.cleaner, t)
    }

    /// Whether the pair of a thread with a row may be cleaned.
    pub(crate) fn may_clean_pair(&self, t: usize, x: usize, who: ThreadIx) -> bool
        requires { x < ROWS }
        ensures { IsTrue result ↔ MayChoose self.now t x (Pending.CleanPair who) }
    {
        flag(holders_of(self.pairs.as_slice(), x), who.0 as usize)
            && self.may_clean(t, self.own_row(who))
    }

    /// Whether no pair of a thread object's index is left.
    fn no_pairs_of(&self, thread: Option<usize>) -> bool
        ensures { IsTrue result ↔ NoPairsOf self.now thread }
    {
        match thread {
            None => true,
            Some(t) => self.has_none(t),
        }
    }

    /// Whether the object of a row may be recycled.
    pub(crate) fn may_recycle(&self, t: usize, x: usize) -> bool
        requires { x < ROWS }
        ensures { IsTrue result ↔ MayChoose self.now t x Pending.Recycle }
    {
        self.may_clean(t, x) && self.no_pairs_of(thread_of_row(self.image, x))
    }

    /// Whether a waiting thread was told.
    fn is_told(&self, t: usize, x: usize) -> bool
        requires { t < THREADS }
        ensures { IsTrue result ↔ MayChoose self.now t x Pending.Resume }
    {
        let _ = x;
        match self.threads[t].told {
            Some(_) => true,
            None => false,
        }
    }

    /// Whether an object may be marked as uninitialised: a thread's own one not while its end is awaited.
    fn may_clear(&self, t: usize, x: usize, a: Addr) -> bool
        requires { t < THREADS }
        ensures { IsTrue result ↔ MayChoose self.now t x (Pending.ClearInit a) }
    {
        let _ = x;
        !(self.row_of(a) == own_row(self.image, t) && self.is_joined(t))
    }

    /// Whether a wait may end since its deadline has come.
    fn may_time_out(&self, t: usize, x: usize, who: ThreadIx) -> bool
        requires { x ≤ FUTEX_CELL }
        ensures { IsTrue result ↔ MayChoose self.now t x (Pending.TimeOut who) }
    {
        let _ = t;
        match self.threads.get(who.0 as usize) {
            None => false,
            Some(thread) => has_come(self.clock.now(), thread.until) && self.waits_at(who, x),
        }
    }

    /// Whether a wait may end since its thread was aborted.
    fn may_cut(&self, t: usize, x: usize, who: ThreadIx) -> bool
        requires { x ≤ FUTEX_CELL }
        ensures { IsTrue result ↔ MayChoose self.now t x (Pending.Cut who) }
    {
        let _ = t;
        match self.threads.get(who.0 as usize) {
            None => false,
            Some(thread) => thread.aborted && self.waits_at(who, x),
        }
    }

    /// Whether the timer of a row may run out.
    fn may_expire(&self, t: usize, x: usize) -> bool
        requires { x < ROWS }
        ensures { IsTrue result ↔ MayChoose self.now t x Pending.Expire }
    {
        let _ = t;
        has_run_out(self.clock.now(), &self.objects.row(x).contents)
    }

    /// Whether a step may choose a row.
    pub fn may_choose(&self, t: usize, x: usize, step: &Pending) -> bool
        requires thread { t < THREADS }
        requires row { x < row_count step.now }
        ensures { IsTrue result ↔ MayChoose self.now t x step.now }
    {
        match step {
            Pending::Inherit { who } => self.may_inherit(t, x, *who),
            Pending::Drops { from } => self.may_drop(t, x, *from),
            Pending::Reserve { kind } => self.may_reserve(t, x, *kind),
            Pending::CleanPair { who } => self.may_clean_pair(t, x, *who),
            Pending::Recycle => self.may_recycle(t, x),
            Pending::Resume => self.is_told(t, x),
            Pending::ClearInit { addr } => self.may_clear(t, x, *addr),
            Pending::Join { who, timeout } => self.may_join(t, x, *who, *timeout),
            Pending::Left => self.is_joined(t),
            Pending::Tick => self.clock.next().is_some(),
            Pending::TimeOut { who } => self.may_time_out(t, x, *who),
            Pending::Expire => self.may_expire(t, x),
            Pending::Cut { who } => self.may_cut(t, x, *who),
            _ => true,
        }
    }
}
