//! Checks and answers, and the steps that mark an object.

ghost use Rattle.std.specs.Prelude.{◌≡◌, ◌<◌, drop};
ghost use Rattle.um_machine.specs.{Goes.{at_steps, steps_by, undone}, Order.{Steps}};
ghost use Rattle.um_base.specs.declared.image.Image.{Image};

use crate::tables::Tables;
use crate::tables::checks::set_said;
use um_base::{Addr, Cause, Errno, Given, Kind, ROWS, Reply, SetSaid, THREADS, ThreadIx, Want};
use um_machine::{Contents, Pending, Refusal, Thread};
use um_steps::order::{refused, refuses};
use um_steps::registers::put_answer;
use um_steps::rows::own_row;

/// What follows where an object can't be marked: the other one is cleared first.
fn turn_back(thread: &mut Thread, undo: Option<Addr>, e: Errno)
    ensures { (image : Image) (left : Steps)
        → thread.new ≡ at_steps image thread.old (steps_by left (undone thread.old.mode e undo)) }
{
    thread.turns_to(&refuses(thread.mode, Cause::Refused(e)));
    if let Some(addr) = undo {
        thread.pending.push(&Pending::ClearInit { addr });
    }
}

impl<'a> Tables<'a> {
    ghost use Rattle.um_machine.specs.{State.{thread_at}, Table.{after}};

    /// A check: the object of one that is ok is held.
    pub(crate) fn check(
        &mut self,
        t: usize,
        a: Addr,
        kind: Option<Kind>,
        want: Want,
        refusal: Refusal,
        taken: usize,
    )
        requires { t < THREADS }
        ensures { self.new ≡ after self.old t 0 (Pending.Check a kind want refusal)
            (drop taken (thread_at self.old t).pending) }
    {
        let verdict = self.verdict(t, a, kind, want);
        let x = self.row_of(a);
        let thread = &mut self.threads[t];
        match verdict {
            None => {
                thread.checked[x] = true;
                thread.goes_on(self.image, taken);
            }
            Some(e) => thread.turns_to(&refused(thread.mode, refusal, e)),
        }
    }

    /// An answer: what the call has checked is let go.
    pub(crate) fn answer(&mut self, t: usize, reply: Option<Reply>, to: Option<u8>, taken: usize)
        requires { t < THREADS }
        ensures { self.new ≡ after self.old t 0 (Pending.Answer reply to)
            (drop taken (thread_at self.old t).pending) }
    {
        let thread = &mut self.threads[t];
        let reply = reply.unwrap_or(thread.reply);
        thread.checked = [false; ROWS];
        thread.until = None;
        put_answer(&mut thread.registers, to, reply);
        thread.goes_on(self.image, taken);
    }

    /// An object becomes public, unless it is gone.
    pub(crate) fn publish(&mut self, t: usize, a: Addr, taken: usize)
        requires { t < THREADS }
        ensures { self.new ≡ after self.old t 0 (Pending.Publish a)
            (drop taken (thread_at self.old t).pending) }
    {
        let x = self.row_of(a);
        match self.given(x) {
            Given::Gone => {}
            Given::Done => self.objects.row_mut(x).public = true,
        }
        self.threads[t].goes_on(self.image, taken);
    }

    /// The marking of an object as initialised.
    pub(crate) fn set_init(
        &mut self,
        t: usize,
        a: Addr,
        strict: bool,
        undo: Option<Addr>,
        taken: usize,
    )
        requires { t < THREADS }
        ensures { self.new ≡ after self.old t 0 (Pending.SetInit a strict undo)
            (drop taken (thread_at self.old t).pending) }
    {
        let x = self.row_of(a);
        match set_said(self.objects.row(x), strict) {
            SetSaid::Done => {
                self.objects.row_mut(x).init = true;
                self.threads[t].goes_on(self.image, taken);
            }
            SetSaid::Gone => self.threads[t].goes_on(self.image, taken),
            SetSaid::Fail(e) => turn_back(&mut self.threads[t], undo, e),
        }
    }

    /// The clearing of an object's initialised state.
    pub(crate) fn clear_init(&mut self, t: usize, a: Addr, taken: usize)
        requires { t < THREADS }
        ensures { self.new ≡ after self.old t 0 (Pending.ClearInit a)
            (drop taken (thread_at self.old t).pending) }
    {
        let x = self.row_of(a);
        let own = own_row(self.image, t);
        self.objects.row_mut(x).init = false;
        let thread = &mut self.threads[t];
        thread.keeps_own = thread.keeps_own && x != own;
        thread.goes_on(self.image, taken);
    }

    /// A thread object gets the name in the buffer.
    pub(crate) fn named(&mut self, t: usize, who: ThreadIx, taken: usize)
        requires { t < THREADS }
        ensures { self.new ≡ after self.old t 0 (Pending.Named who)
            (drop taken (thread_at self.old t).pending) }
    {
        let x = self.own_row(who);
        let name = self.threads[t].buffer;
        if x < ROWS {
            self.objects.row_mut(x).contents = Contents::Named(name);
        }
        self.threads[t].goes_on(self.image, taken);
    }
}
