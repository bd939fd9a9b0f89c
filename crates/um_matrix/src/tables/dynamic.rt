//! The steps of dynamic objects and of pools.

ghost use Rattle.std.specs.Prelude.{◌≡◌, ◌<◌, drop};

use crate::tables::Tables;
use um_base::{Addr, Errno, Kind, ROWS, Reply, THREADS};
use um_machine::{Pending, Status};
use um_steps::blank::vacate;
use um_steps::costs::{cost_of, pay_back, pay_from};
use um_steps::order::answer_error;
use um_steps::rows::addr_of;

/// What a dynamic object costs.
const OBJECT_COST: u32 = 64;

impl<'a> Tables<'a> {
    ghost use Rattle.um_machine.specs.{State.{thread_at}, Table.{after}};

    /// The reservation of a row, or NULL.
    pub(crate) fn reserve(&mut self, t: usize, x: usize, kind: Kind, taken: usize)
        requires thread { t < THREADS }
        requires row { x < ROWS }
        requires taken { 0 < taken }
        ensures { self.new ≡ after self.old t x (Pending.Reserve kind)
            (drop taken (thread_at self.old t).pending) }
    {
        let thread = &mut self.threads[t];
        if x == 0 {
            thread.reply = Reply::Null;
            thread.goes_on(self.image, taken);
            return;
        }
        let addr = Addr(addr_of(self.image, x));
        thread.reply = Reply::At(addr);
        thread.goes_to(&Pending::Born { addr }, taken);
        pay_from(&mut self.pools, thread.pool, OBJECT_COST);
        let cost = cost_of(thread.pool, OBJECT_COST);
        let object = self.objects.row_mut(x);
        vacate(object);
        object.kind = Some(kind);
        object.status = Status::Reserved;
        object.cost = cost;
    }

    /// The birth of a reserved object, which its creator holds.
    #[tactic(auto, using(crate::proofs::PairLemmas::pendings_kept))]
    pub(crate) fn born(&mut self, t: usize, a: Addr, taken: usize)
        requires { t < THREADS }
        ensures { self.new ≡ after self.old t 0 (Pending.Born a) (drop taken (thread_at self.old t).pending) }
    {
        let x = self.row_of(a);
        self.objects.row_mut(x).status = Status::Live;
        self.paired(t, x, true);
        self.threads[t].goes_on(self.image, taken);
    }

    /// A buffer from the pool, or the answer that there is none.
    pub(crate) fn buffer(&mut self, t: usize, size: u32, taken: usize)
        requires { t < THREADS }
        ensures { self.new ≡ after self.old t 0 (Pending.Buffer size)
            (drop taken (thread_at self.old t).pending) }
    {
        let pool = self.threads[t].pool;
        if self.pays(pool, size) {
            pay_from(&mut self.pools, pool, size);
            self.threads[t].goes_on(self.image, taken);
        } else {
            self.threads[t].turns_to(&answer_error(Errno::ENOMEM));
        }
    }

    /// The pool gets a buffer back.
    pub(crate) fn unbuffer(&mut self, t: usize, size: u32, taken: usize)
        requires { t < THREADS }
        ensures { self.new ≡ after self.old t 0 (Pending.Unbuffer size)
            (drop taken (thread_at self.old t).pending) }
    {
        let thread = &mut self.threads[t];
        pay_back(&mut self.pools, cost_of(thread.pool, size));
        thread.goes_on(self.image, taken);
    }
}
