//! The steps that clean an object which is gone.

ghost use Rattle.std.specs.Prelude.{◌≡◌, ◌<◌, []};

use crate::tables::Tables;
use um_base::{ROWS, THREADS, ThreadIx};
use um_machine::Pending;
use um_steps::blank::vacate;
use um_steps::costs::pay_back;

impl<'a> Tables<'a> {
    ghost use Rattle.um_machine.specs.{Order.{to_thread}, Table.{after}, Writes.{Edit, Effect, effect}};

    /// A thread cleans the object of a row.
    fn cleaned_by(&mut self, t: usize, x: usize)
        requires { t < THREADS }
        ensures { self.new ≡ effect (Effect.object x (Edit.cleaned (to_thread t))) self.old }
    {
        if x < ROWS {
            self.objects.row_mut(x).cleaner = Some(ThreadIx(t as u8));
        }
    }

    /// The drop of one pair of a thread whose object is gone.
    pub(crate) fn clean_pair(&mut self, t: usize, x: usize, who: ThreadIx)
        requires thread { t < THREADS }
        requires row { x < ROWS }
        ensures { self.new ≡ after self.old t x (Pending.CleanPair who) [] }
    {
        self.cleaned_by(t, self.own_row(who));
        self.drop_pair(who.0 as usize, x);
    }

    /// The recycling of an object: its row is free, and its pool gets its bytes back.
    pub(crate) fn recycle(&mut self, x: usize)
        requires { x < ROWS }
        ensures { self.new ≡ after self.old 0 x Pending.Recycle [] }
    {
        let object = self.objects.row(x);
        let cost = object.cost;
        let buffer = object.buffer;
        pay_back(&mut self.pools, cost);
        pay_back(&mut self.pools, buffer);
        vacate(self.objects.row_mut(x));
    }
}
