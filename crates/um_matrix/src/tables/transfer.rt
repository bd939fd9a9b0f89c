//! Accesses and copies: the steps that read and write memory.

ghost use Rattle.std.specs.Prelude.{◌≡◌, ◌<◌, ◌≤◌, drop, false};
ghost use Rattle.um_base.specs.Regions.{stack_range};
ghost use Rattle.um_matrix.specs.{Offered.{IsShort}, Worked.{string_taken}};

use crate::tables::Tables;
use um_base::{Access, Addr, Cause, Errno, Found, Range, Row, Setup, THREADS};
use um_machine::{Amount, Pending};
use um_steps::buffers::{first_bytes, message_size};
use um_steps::bytes::le_value;
use um_steps::order::{answer_error, copy_fails};
use um_steps::registers::put_register;

/// What follows an access that isn't allowed.
const FAULT: Pending = Pending::Fatal {
    reason: 0,
    cause: Cause::Access,
};

impl<'a> Tables<'a> {
    ghost use Rattle.um_machine.specs.{
      Goes.{Change, Next, copied, went},
      Order.{Steps},
      State.{thread_at},
      Table.{after, amount_of},
    };
    ghost use Rattle.um_base.specs.Places.{setup_at};

    /// How many bytes are copied or probed.
    pub(crate) fn amount_of(&self, amount: Amount) -> u32
        ensures { result ≡ amount_of self.now amount }
    {
        match amount {
            Amount::Bytes(n) => n,
            Amount::MessageOf(a) => message_size(&self.objects.row(self.row_of(a)).contents),
        }
    }

    /// A load, or its fault.
    pub(crate) fn load(&mut self, t: usize, to: u8, a: Addr, n: u32, taken: usize)
        requires thread { t < THREADS }
        requires few { n ≤ 4 }
        ensures { self.new ≡ after self.old t 0 (Pending.Load to a n)
            (drop taken (thread_at self.old t).pending) }
    {
        if self.allowed(t, Access::Read, a.0, n) {
            let value = le_value(self.bytes_at(a.0, n));
            let thread = &mut self.threads[t];
            put_register(&mut thread.registers, to, value);
            thread.goes_on(self.image, taken);
        } else {
            self.threads[t].turns_to(&FAULT);
        }
    }

    /// A store, or its fault.
    pub(crate) fn store(&mut self, t: usize, a: Addr, n: u32, value: u32, taken: usize)
        requires { t < THREADS }
        ensures { self.new ≡ after self.old t 0 (Pending.Store a n value)
            (drop taken (thread_at self.old t).pending) }
    {
        if self.allowed(t, Access::Write, a.0, n) {
            self.write_number(a.0, n, value);
            self.threads[t].goes_on(self.image, taken);
        } else {
            self.threads[t].turns_to(&FAULT);
        }
    }

    /// A fetch, or its fault.
    pub(crate) fn fetch(&mut self, t: usize, a: Addr, taken: usize)
        requires { t < THREADS }
        ensures { self.new ≡ after self.old t 0 (Pending.Fetch a)
            (drop taken (thread_at self.old t).pending) }
    {
        if self.allowed(t, Access::Exec, a.0, 4) {
            self.threads[t].goes_on(self.image, taken);
        } else {
            self.threads[t].turns_to(&FAULT);
        }
    }

    /// What follows a copy that isn't allowed: a fatal error, by `EFAULT` of a user and by its access of a supervisor.
    fn copy_fails(&mut self, t: usize)
        requires { t < THREADS }
        ensures { (left : Steps)
            → self.new ≡ went left self.old t
            (Next.on Change.nothing (copied (thread_at self.old t).mode false)) }
    {
        let thread = &mut self.threads[t];
        thread.turns_to(&copy_fails(thread.mode));
    }

    /// The test of a buffer that a call will write.
    pub(crate) fn probe(&mut self, t: usize, a: Addr, amount: Amount, taken: usize)
        requires { t < THREADS }
        ensures { self.new ≡ after self.old t 0 (Pending.Probe a amount)
            (drop taken (thread_at self.old t).pending) }
    {
        let n = self.amount_of(amount);
        if !self.allowed(t, Access::Write, a.0, n) {
            return self.copy_fails(t);
        }
        self.threads[t].goes_on(self.image, taken);
    }

    /// A copy from a caller's memory.
    pub(crate) fn copy_in(&mut self, t: usize, a: Addr, amount: Amount, taken: usize)
        requires { t < THREADS }
        ensures { self.new ≡ after self.old t 0 (Pending.CopyIn a amount)
            (drop taken (thread_at self.old t).pending) }
    {
        let n = self.amount_of(amount);
        if !self.allowed(t, Access::Read, a.0, n) {
            return self.copy_fails(t);
        }
        let buffer = first_bytes(self.bytes_at(a.0, n));
        let thread = &mut self.threads[t];
        thread.buffer = buffer;
        thread.goes_on(self.image, taken);
    }

    /// A copy of the buffer to a caller's memory.
    pub(crate) fn copy_out(&mut self, t: usize, a: Addr, taken: usize)
        requires { t < THREADS }
        ensures { self.new ≡ after self.old t 0 (Pending.CopyOut a)
            (drop taken (thread_at self.old t).pending) }
    {
        let buffer = self.threads[t].buffer;
        if !self.allowed(t, Access::Write, a.0, buffer.len() as u32) {
            return self.copy_fails(t);
        }
        self.write(a.0, buffer.as_slice());
        self.threads[t].goes_on(self.image, taken);
    }

    /// A copy of a string from a caller's memory.
    pub(crate) fn copy_string(&mut self, t: usize, a: Addr, taken: usize)
        requires { t < THREADS }
        ensures { self.new ≡ after self.old t 0 (Pending.CopyStr a)
            (drop taken (thread_at self.old t).pending) }
    {
        let found = self.string_read(t, a.0);
        self.take_string(t, a, found, taken);
    }

    /// What follows a string read.
    fn take_string(&mut self, t: usize, a: Addr, found: Found, taken: usize)
        requires thread { t < THREADS }
        requires short { IsShort found }
        ensures { self.new ≡ string_taken self.old t a (drop taken (thread_at self.old t).pending) found }
    {
        match found {
            Found::Length(n) => {
                let buffer = self.string_bytes(a.0, n);
                let thread = &mut self.threads[t];
                thread.buffer = buffer;
                thread.goes_on(self.image, taken);
            }
            Found::Unreadable => self.threads[t].turns_to(&answer_error(Errno::EFAULT)),
            Found::TooLong => self.threads[t].turns_to(&answer_error(Errno::EINVAL)),
        }
    }

    /// Zero bytes over a thread stack.
    pub(crate) fn erase(&mut self, t: usize, stack: Row, taken: usize)
        requires { t < THREADS }
        ensures { self.new ≡ after self.old t 0 (Pending.Erase stack)
            (drop taken (thread_at self.old t).pending) }
    {
        if let Some(range) = self.stack_range(stack) {
            self.clear(range);
        }
        self.threads[t].goes_on(self.image, taken);
    }

    /// The range of the stack of a row, if it is one.
    fn stack_range(&self, stack: Row) -> Option<Range>
        ensures { result ≡ stack_range (setup_at self.now.image stack.0) }
    {
        match self.image.objects.as_slice().get(stack.0 as usize) {
            Some(object) => stack_range(object.setup),
            None => None,
        }
    }
}

/// The range of a stack.
fn stack_range(setup: Setup) -> Option<Range>
    ensures { result ≡ stack_range setup }
{
    match setup {
        Setup::ThreadStack { range, .. } => Some(range),
        _ => None,
    }
}
