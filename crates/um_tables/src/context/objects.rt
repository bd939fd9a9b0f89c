//! How a thread goes on after a step on the marks of an object, on its pool or on a domain.

ghost use Rattle.std.specs.Prelude.{◌≡◌, ◌<◌, drop, if◌then◌else◌};
ghost use Rattle.um_base.specs.declared.names.Errno.TheVariants as Errno;
ghost use Rattle.um_base.specs.declared.names.Reply.TheVariants as Reply;
ghost use Rattle.um_machine.specs.{
  Goes.{Change, Next, Way, reserve_change, reserve_way, set_way, undone},
  Order.{Steps},
};
ghost use Rattle.um_fine.specs.Continues.{gone_part};

use crate::context::Context;
use um_base::{Addr, Cause, Errno, Image, Reply, SetSaid};
use um_machine::Pending;
use um_steps::order::{answer_error, refuses};

impl Context {
    /// Goes on after an object was to be marked as initialised. Where that is refused, another one is cleared first.
    pub fn marks(&mut self, image: &Image, undo: Option<Addr>, said: SetSaid, taken: usize)
        ensures { self.new ≡ gone_part image.now (drop taken self.old.pending)
            (Next.on Change.nothing (set_way self.old.mode undo said)) self.old }
    {
        match said {
            SetSaid::Done => self.own.goes_on(image, taken),
            SetSaid::Gone => self.own.goes_on(image, taken),
            SetSaid::Fail(e) => self.turns_back(image, undo, e),
        }
    }

    /// Fails, and clears another object first.
    fn turns_back(&mut self, image: &Image, undo: Option<Addr>, e: Errno)
        ensures { (left : Steps)
            → self.new ≡ gone_part image.now left
            (Next.on Change.nothing (undone self.old.mode e undo)) self.old }
    {
        let mode = self.own.mode;
        self.own.turns_to(&refuses(mode, Cause::Refused(e)));
        if let Some(addr) = undo {
            self.own.pending.push(&Pending::ClearInit { addr });
        }
    }

    /// Goes on after it asked for a new object: at this address, where it got one.
    pub fn reserves(&mut self, image: &Image, addr: Option<Addr>, taken: usize)
        requires { 0 < taken }
        ensures { self.new ≡ gone_part image.now (drop taken self.old.pending)
            (Next.on (reserve_change addr) (reserve_way addr)) self.old }
    {
        match addr {
            None => {
                self.own.reply = Reply::Null;
                self.own.goes_on(image, taken);
            }
            Some(addr) => {
                self.own.reply = Reply::At(addr);
                self.own.goes_to(&Pending::Born { addr }, taken);
            }
        }
    }

    /// Goes on after it asked its pool for a buffer, or answers that there is none.
    pub fn buffers(&mut self, image: &Image, fits: bool, taken: usize)
        ensures { self.new ≡ gone_part image.now (drop taken self.old.pending)
            (Next.on Change.nothing
            (if fits then Way.rest else Way.replies (Reply.Fail Errno.ENOMEM))) self.old }
    {
        if fits {
            self.own.goes_on(image, taken);
        } else {
            self.own.turns_to(&answer_error(Errno::ENOMEM));
        }
    }

    /// Goes on after a call on a domain, with this reply.
    pub fn replies(&mut self, image: &Image, reply: Reply, taken: usize)
        ensures { self.new ≡ gone_part image.now (drop taken self.old.pending)
            (Next.on (Change.says reply) Way.rest) self.old }
    {
        self.own.reply = reply;
        self.own.goes_on(image, taken);
    }
}
