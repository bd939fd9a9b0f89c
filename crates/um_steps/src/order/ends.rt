//! The steps of an end, and of what dooms threads.

ghost use Rattle.std.specs.Prelude.{◌≡◌, ◌<◌, ◌+◌};
ghost use Rattle.um_machine.specs.{Order.{end_steps, fatal_steps}, Table.{next_doom}};

use crate::rows::{addr_of, own_row};
use um_base::{Addr, Image, Policy, THREADS};
use um_machine::{Pending, Pendings, Thread};

/// The end of a thread: it drops its pairs, and clears its stack object and then its own.
pub fn end_steps(image: &Image, t: usize, me: &mut Thread)
    requires { t < THREADS }
    ensures { me.new ≡ record me.old { pending = end_steps image.now t me.old } }
{
    let stack = addr_of(image, me.stack.0 as usize);
    let own = addr_of(image, own_row(image, t));
    me.pending.clear();
    me.pending.push(&Pending::ClearInit { addr: Addr(own) });
    me.pending.push(&Pending::ClearInit { addr: Addr(stack) });
    me.pending.push(&Pending::Drops { from: 0 });
}

/// What follows a fatal error: the end of its thread, or the dooms of all threads.
pub fn fatal_steps(image: &Image, t: usize, me: &mut Thread, reason: u8)
    requires { t < THREADS }
    ensures { me.new ≡ record me.old { pending = fatal_steps image.now t me.old reason image.now.policy } }
{
    if image.policy == Policy::Halt || reason == 4 {
        me.pending.clear();
        me.pending.push(&Pending::Dooms { from: 0 });
        return;
    }
    end_steps(image, t, me);
}

/// The doom of the next thread, if there is one.
pub fn next_doom(pending: &mut Pendings, from: u8)
    ensures { pending.new ≡ next_doom from }
{
    pending.clear();
    if (from as usize) + 1 < THREADS {
        pending.push(&Pending::Dooms { from: from + 1 });
    }
}
