//! How a thread goes on after it reaches memory. A store, a fetch and an erased stack write nothing of its own: it goes on, or faults.

ghost use Rattle.std.specs.Prelude.{◌≡◌, [], drop, false, if◌then◌else◌};
ghost use Rattle.um_machine.specs.Goes.{Change, Next, Way, copied, no_access, text_change, text_way};
ghost use Rattle.um_machine.specs.Order.{Steps};
ghost use Rattle.um_fine.specs.Continues.{gone_part};

use crate::context::Context;
use crate::pieces::copies;
use um_base::{Cause, Errno, Found, Image, Piece};
use um_machine::Pending;
use um_steps::order::{answer_error, copy_fails};
use um_steps::registers::put_register;

/// What follows an access that isn't allowed.
const FAULT: Pending = Pending::Fatal {
    reason: 0,
    cause: Cause::Access,
};

impl Context {
    /// Goes on after a load of this number into a register.
    pub fn loads(&mut self, image: &Image, to: u8, value: u32, taken: usize)
        ensures { self.new ≡ gone_part image.now (drop taken self.old.pending)
            (Next.on (Change.register to value) Way.rest) self.old }
    {
        put_register(&mut self.own.registers, to, value);
        self.own.goes_on(image, taken);
    }

    /// Goes on after a load, a store or a fetch that isn't allowed.
    pub fn faults(&mut self, image: &Image)
        ensures { self.new ≡ gone_part image.now [] (Next.on Change.nothing no_access) self.old }
    {
        self.own.turns_to(&FAULT);
    }

    /// Goes on after a copy or a probe that isn't allowed.
    pub fn fails_to_copy(&mut self, image: &Image)
        ensures { (left : Steps)
            → self.new ≡ gone_part image.now left
            (Next.on Change.nothing (copied self.old.mode false)) self.old }
    {
        let mode = self.own.mode;
        self.own.turns_to(&copy_fails(mode));
    }

    /// Goes on after a probe or a copy out, where that is allowed, or else fails.
    pub fn copies_out(&mut self, image: &Image, fits: bool, taken: usize)
        ensures { self.new ≡ gone_part image.now (drop taken self.old.pending)
            (Next.on Change.nothing (copied self.old.mode fits)) self.old }
    {
        if fits {
            self.own.goes_on(image, taken);
        } else {
            self.fails_to_copy(image);
        }
    }

    /// Goes on after a copy of these bytes into its buffer, where that is allowed, or else fails.
    pub fn copies_in(&mut self, image: &Image, fits: bool, bytes: &Piece, taken: usize)
        ensures { self.new ≡ gone_part image.now (drop taken self.old.pending)
            (Next.on (if fits then Change.copies bytes.now else Change.nothing)
            (copied self.old.mode fits)) self.old }
    {
        if fits {
            copies(&mut self.own.buffer, bytes);
            self.own.goes_on(image, taken);
        } else {
            self.fails_to_copy(image);
        }
    }

    /// Goes on after the copy of a text, of which these bytes were read, or answers an error.
    pub fn copies_text(&mut self, image: &Image, found: Found, bytes: &Piece, taken: usize)
        ensures { self.new ≡ gone_part image.now (drop taken self.old.pending)
            (Next.on (text_change bytes.now found) (text_way found)) self.old }
    {
        match found {
            Found::Length(_) => {
                copies(&mut self.own.buffer, bytes);
                self.own.goes_on(image, taken);
            }
            Found::Unreadable => self.own.turns_to(&answer_error(Errno::EFAULT)),
            Found::TooLong => self.own.turns_to(&answer_error(Errno::EINVAL)),
        }
    }
}
