//! The steps that give, pass on and drop permissions.

ghost use Rattle.std.specs.Prelude.{◌≡◌, ◌<◌, drop};

use crate::tables::Tables;
use crate::tables::moves::rows_to_pass;
use um_base::{Addr, THREADS, ThreadIx};
use um_boot::flags::put;
use um_machine::Pending;
use um_steps::rows::own_row;

impl<'a> Tables<'a> {
    ghost use Rattle.um_machine.specs.{Goes.{Next, went}, State.{thread_at}, Table.{after}};

    /// A grant, unless the object is gone.
    #[tactic(auto, using(crate::proofs::PairLemmas::pendings_kept))]
    pub(crate) fn grant(&mut self, t: usize, who: ThreadIx, a: Addr, taken: usize)
        requires { t < THREADS }
        ensures { self.new ≡ after self.old t 0 (Pending.Grant who a)
            (drop taken (thread_at self.old t).pending) }
    {
        let x = self.row_of(a);
        self.give_pair(who.0 as usize, x);
        self.threads[t].goes_on(self.image, taken);
    }

    /// Gives a new thread the permission on its own object. What its creator has to pass on is due from now on.
    #[tactic(auto, using(crate::proofs::PairLemmas::pendings_kept))]
    pub(crate) fn own(&mut self, t: usize, who: ThreadIx, taken: usize)
        requires { t < THREADS }
        ensures { self.new ≡ after self.old t 0 (Pending.Own who)
            (drop taken (thread_at self.old t).pending) }
    {
        let x = self.own_row(who);
        self.give_pair(who.0 as usize, x);
        self.passes_on(t, who, taken);
    }

    /// A thread goes on, and what it has to pass on to a new thread is due: all its permissions but the one on its own object.
    fn passes_on(&mut self, t: usize, who: ThreadIx, taken: usize)
        requires { t < THREADS }
        ensures { self.new ≡ went (drop taken (thread_at self.old t).pending) self.old t (Next.creates who) }
    {
        let mut due = rows_to_pass(self.pairs.as_slice(), t, who.0 as usize);
        put(&mut due, own_row(self.image, t), false);
        let thread = &mut self.threads[t];
        thread.child = Some(who);
        thread.due = due;
        thread.goes_on(self.image, taken);
    }

    /// One pair of an inheritance.
    #[tactic(auto, using(crate::proofs::PairLemmas::pendings_kept))]
    pub(crate) fn inherit(&mut self, t: usize, x: usize, who: ThreadIx, taken: usize)
        requires thread { t < THREADS }
        requires taken { 0 < taken }
        ensures { self.new ≡ after self.old t x (Pending.Inherit who)
            (drop taken (thread_at self.old t).pending) }
    {
        self.paired(who.0 as usize, x, true);
        self.threads[t].goes_to(&Pending::Inherit { who }, taken);
    }

    /// The drop of one pair by a call.
    #[tactic(auto, using(crate::proofs::PairLemmas::pendings_kept))]
    pub(crate) fn drop_by_call(&mut self, t: usize, who: ThreadIx, a: Addr, taken: usize)
        requires { t < THREADS }
        ensures { self.new ≡ after self.old t 0 (Pending.DropPair who a)
            (drop taken (thread_at self.old t).pending) }
    {
        let x = self.row_of(a);
        self.drop_pair(who.0 as usize, x);
        self.threads[t].goes_on(self.image, taken);
    }
}
