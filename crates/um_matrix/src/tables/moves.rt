//! What steps have in common: pairs come and go, and pools pay.

ghost use Rattle.std.specs.Prelude.{◌≡◌, ◌<◌, ◌≤◌, [], true, false, not, ◌&&◌, slice_index_or, map, length, List, Bool};
ghost use Rattle.um_machine.specs.Table.{stays_due, with_dues};

use crate::tables::Tables;
use um_base::{Given, Leftover, ROWS, THREADS, ThreadIx};
use um_boot::flags::put;
use um_machine::{Status, Thread};

impl<'a> Tables<'a> {
    ghost use Rattle.um_machine.specs.{Readings.{given, dropped}, Writes.{Effect, drops, only, paired, was_given, write, wrote}};

    /// A pair comes or goes, and the row leaves what is due.
    pub(crate) fn paired(&mut self, t: usize, x: usize, there: bool)
        ensures { self.new ≡ paired self.old t x there }
    {
        if x < ROWS {
            put(&mut self.pairs[x], t, there);
        }
        settle(&mut self.threads, x, holders_of(self.pairs.as_slice(), x));
    }

    /// Drops a pair: a dynamic object that lost its last pair is gone.
    pub(crate) fn drop_pair(&mut self, t: usize, x: usize)
        requires { x < ROWS }
        ensures { self.new ≡ wrote (drops t x (dropped self.old t x)) self.old }
    {
        match self.dropped(t, x) {
            Leftover::NoPair => {}
            Leftover::Kept => self.paired(t, x, false),
            Leftover::Gone => {
                self.paired(t, x, false);
                self.objects.row_mut(x).status = Status::Gone;
            }
        }
    }

    /// Gives a pair, unless the object is gone.
    pub(crate) fn give_pair(&mut self, t: usize, x: usize)
        ensures { self.new ≡ write (only (was_given (given self.old x)) (Effect.pair t x true)) self.old }
    {
        match self.given(x) {
            Given::Gone => {}
            Given::Done => self.paired(t, x, true),
        }
    }
}

/// Who has a pair with the object of a row: nobody past the table.
pub(crate) fn holders_of(pairs: &[[bool; THREADS]], x: usize) -> &[bool]
    ensures value { result.now ≡ slice_index_or pairs.now x [] }
    ensures few { length result.now ≤ THREADS }
{
    match pairs.get(x) {
        Some(holders) => holders,
        None => &[],
    }
}

/// Whether a flag is set. None is past the end.
pub(crate) fn flag(flags: &[bool], i: usize) -> bool
    ensures { result ≡ slice_index_or flags.now i false }
{
    i < flags.len() && flags[i]
}

/// The rows with which a thread has a pair.
pub(crate) fn rows_held(pairs: &[[bool; THREADS]], t: usize) -> [bool; ROWS]
    requires { length pairs.now ≡ ROWS }
    ensures { result ≡ map (λ (flags : List Bool). slice_index_or flags t false) pairs.now }
{
    let mut rows = [false; ROWS];
    for (x, holders) in pairs.iter().enumerate() {
        rows[x] = flag(holders, t);
    }
    rows
}

/// The rows with which a thread has a pair and another has none.
pub(crate) fn rows_to_pass(pairs: &[[bool; THREADS]], t: usize, who: usize) -> [bool; ROWS]
    requires { length pairs.now ≡ ROWS }
    ensures { result ≡ map
        (λ (holders : List Bool). slice_index_or holders t false && not
        (slice_index_or holders who false)) pairs.now }
{
    let mut rows = [false; ROWS];
    for (x, holders) in pairs.iter().enumerate() {
        rows[x] = flag(holders, t) && !flag(holders, who);
    }
    rows
}

/// Whether a row stays due to a thread, by those who hold it.
fn stays_due(t: usize, child: Option<ThreadIx>, holders: &[bool]) -> bool
    ensures { result ≡ stays_due t child holders.now }
{
    let has = flag(holders, t);
    match child {
        None => has,
        Some(child) => has && !flag(holders, child.0 as usize),
    }
}

/// The row leaves what is due to the threads.
fn settle(threads: &mut [Thread], x: usize, holders: &[bool])
    ensures { threads.new ≡ with_dues x 0 holders.now threads.old }
{
    for t in 0..threads.len() {
        let thread = &mut threads[t];
        let stays = flag(&thread.due, x) && stays_due(t, thread.child, holders);
        put(&mut thread.due, x, stays);
    }
}
