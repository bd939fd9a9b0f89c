//! The steps of a call that works on an object, or waits on it.

ghost use Rattle.std.specs.Prelude.{◌≡◌, ◌<◌, ◌≤◌, drop, Some, ℕ, IsTrue, slice_index_or, slice_set};
ghost use Rattle.um_machine.specs.{
  Limits.{is_sound_ask},
  Order.{to_thread},
  State.{nobody},
  Table.{bytes_given},
};
ghost use Rattle.um_matrix.specs.Worked.{threads_woken, answered, asked};

use crate::tables::Tables;
use um_base::{Act, Addr, Answer, Ask, Image, Piece, Reply, THREADS, ThreadIx, Told, Waiter};
use um_machine::{Pending, Thread};
use um_service::{act, says};
use um_steps::buffers::bytes_given;
use um_steps::costs::buffer_cost;
use um_steps::order::after_error;

/// A thread is told something.
#[inline(never)]
pub(crate) fn tell(threads: &mut [Thread], who: ThreadIx, told: &Told)
    ensures { threads.new ≡ slice_set threads.old who.0
        (record (slice_index_or threads.old who.0 nobody) { told = Some told.now }) }
{
    if (who.0 as usize) < threads.len() {
        threads[who.0 as usize].told = Some(*told);
    }
}

/// The woken threads are told.
#[inline(never)]
pub(crate) fn wake(threads: &mut [Thread], woken: &[(ThreadIx, Told)])
    ensures { threads.new ≡ threads_woken woken.now threads.old }
{
    for i in 0..woken.len() {
        let (who, told) = &woken[i];
        tell(threads, *who, told);
    }
}

/// What an answer leaves to its caller.
#[inline(never)]
fn after_answer(
    image: &Image,
    thread: &mut Thread,
    ask: &Ask,
    answer: Answer,
    bytes: &Piece,
    taken: usize,
)
    requires sound { IsTrue (is_sound_ask ask.now) }
    requires taken { 0 < taken }
    ensures { thread.new ≡ answered image.now thread.old ask.now bytes.now
        (drop taken thread.old.pending) answer }
{
    match answer {
        Answer::Wait => thread.goes_to(&Pending::Resume, taken),
        Answer::Now(reply) => {
            thread.reply = reply;
            thread.buffer = *bytes;
            match reply {
                Reply::Fail(e) => after_error(image, thread, ask, e, taken),
                _ => thread.goes_on(image, taken),
            }
        }
    }
}

/// What an answer leaves to its caller that asked no object.
#[inline(never)]
pub(crate) fn after_asking(image: &Image, thread: &mut Thread, answer: Answer, taken: usize)
    requires { 0 < taken }
    ensures { thread.new ≡ asked image.now thread.old (drop taken thread.old.pending) answer }
{
    match answer {
        Answer::Wait => thread.goes_to(&Pending::Resume, taken),
        Answer::Now(reply) => {
            thread.reply = reply;
            thread.buffer = Piece::new();
            thread.goes_on(image, taken);
        }
    }
}

impl<'a> Tables<'a> {
    ghost use Rattle.um_machine.specs.{State.{thread_at}, Table.{act_of, after}};

    /// A thread as it works on an object.
    #[inline(never)]
    pub(crate) fn worker(&self, t: usize, ask: &Ask) -> Waiter
        requires { t < THREADS }
        ensures value { result
            ≡ record {
              thread = to_thread t;
              priority = (thread_at self.now t).priority;
              ask = ask.now;
              bytes = bytes_given (thread_at self.now t).buffer ask.now;
              until = (thread_at self.now t).until;
            } }
        ensures sound { IsTrue (is_sound_ask ask.now) → IsTrue (is_sound_ask result.ask) }
    {
        let thread = &self.threads[t];
        Waiter {
            thread: ThreadIx(t as u8),
            priority: thread.priority,
            ask: *ask,
            bytes: bytes_given(&thread.buffer, ask),
            until: thread.until,
        }
    }

    /// What the work on an object says.
    #[inline(never)]
    pub(crate) fn says_work(&self, t: usize, a: Addr, ask: &Ask, act: &mut Act)
        requires thread { t < THREADS }
        requires sound { IsTrue (is_sound_ask ask.now) }
        ensures { (x : ℕ) → act.new ≡ act_of self.now t x (Pending.Work a ask.now) }
    {
        let object = self.objects.row(self.row_of(a));
        let who = self.worker(t, ask);
        let said = says(&object.contents, &object.waiters, &who);
        *act = Act::Work {
            addr: a,
            answer: said.answer,
            woken: said.woken,
        };
    }

    /// The work of a call on an object, and what it says.
    #[inline(never)]
    pub(crate) fn work(&mut self, t: usize, a: Addr, ask: &Ask, taken: usize, said: &mut Act)
        requires thread { t < THREADS }
        requires sound { IsTrue (is_sound_ask ask.now) }
        requires taken { 0 < taken }
        ensures says { (x : ℕ) → said.new ≡ act_of self.old t x (Pending.Work a ask.now) }
        ensures leaves { self.new ≡ after self.old t 0 (Pending.Work a ask.now)
            (drop taken (thread_at self.old t).pending) }
    {
        let x = self.row_of(a);
        let who = self.worker(t, ask);
        let object = self.objects.row_mut(x);
        let outcome = &mut self.outcome[0];
        act(&mut object.contents, &mut object.waiters, &who, outcome);
        object.buffer = buffer_cost(ask, outcome.answer, object.buffer);
        wake(&mut self.threads, outcome.woken.as_slice());
        after_answer(
            self.image,
            &mut self.threads[t],
            ask,
            outcome.answer,
            &outcome.taken,
            taken,
        );
        *said = Act::Work {
            addr: a,
            answer: outcome.answer,
            woken: outcome.woken.replies(),
        };
    }

    /// A waiter goes on with what it was told.
    #[inline(never)]
    pub(crate) fn resume(&mut self, t: usize, taken: usize)
        requires { t < THREADS }
        ensures { self.new ≡ after self.old t 0 Pending.Resume (drop taken (thread_at self.old t).pending) }
    {
        let thread = &mut self.threads[t];
        if let Some(told) = thread.told {
            thread.told = None;
            thread.reply = told.reply;
            thread.buffer = told.taken;
            match told.reply {
                Reply::Fail(_) => thread.skips_copy(self.image, taken),
                _ => thread.goes_on(self.image, taken),
            }
        }
    }
}
