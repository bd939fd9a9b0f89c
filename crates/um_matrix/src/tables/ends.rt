//! The steps that end a thread, and that doom the others.

ghost use Rattle.std.specs.Prelude.{◌≡◌, ◌<◌, [], drop};

use crate::tables::Tables;
use crate::tables::moves::rows_held;
use um_base::{Cause, ROWS, THREADS};
use um_machine::Pending;
use um_steps::order;

impl<'a> Tables<'a> {
    ghost use Rattle.um_machine.specs.{State.{thread_at}, Table.{after}};

    /// The exit after the last line.
    pub(crate) fn exit(&mut self, t: usize)
        requires { t < THREADS }
        ensures { self.new ≡ after self.old t 0 Pending.Exit [] }
    {
        let due = rows_held(self.pairs.as_slice(), t);
        let thread = &mut self.threads[t];
        thread.ends(due);
        order::end_steps(self.image, t, thread);
    }

    /// A fatal error: the end of the thread, or of all threads.
    pub(crate) fn fatal(&mut self, t: usize, reason: u8, cause: Cause, taken: usize)
        requires { t < THREADS }
        ensures { self.new ≡ after self.old t 0 (Pending.Fatal reason cause)
            (drop taken (thread_at self.old t).pending) }
    {
        let due = rows_held(self.pairs.as_slice(), t);
        let thread = &mut self.threads[t];
        thread.ends(due);
        order::fatal_steps(self.image, t, thread, reason);
    }

    /// One drop of an end.
    #[tactic(auto, using(crate::proofs::PairLemmas::pendings_kept))]
    pub(crate) fn end_drop(&mut self, t: usize, x: usize, from: u8, taken: usize)
        requires thread { t < THREADS }
        requires row { x < ROWS }
        requires taken { 0 < taken }
        ensures { self.new ≡ after self.old t x (Pending.Drops from)
            (drop taken (thread_at self.old t).pending) }
    {
        self.drop_pair(t, x);
        let next = Pending::Drops { from: x as u8 + 1 };
        self.threads[t].goes_to(&next, taken);
    }

    /// The dooming of one thread.
    pub(crate) fn doom(&mut self, t: usize, from: u8, taken: usize)
        requires { t < THREADS }
        ensures { self.new ≡ after self.old t 0 (Pending.Dooms from)
            (drop taken (thread_at self.old t).pending) }
    {
        if (from as usize) < THREADS {
            self.threads[from as usize].doomed = true;
        }
        order::next_doom(&mut self.threads[t].pending, from);
    }
}
