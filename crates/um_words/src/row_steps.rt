//! The steps of a row's word.

ghost use Rattle.std.specs.Prelude.{◌≡◌, ◌<◌, ◌+◌, true};
ghost use Rattle.um_words.specs.{
  Rows.{has, permitted, vacated, verdict_of, given_of, left_of, set_of, given_to, claimed, after_verdict, gone_stage, dropped, call_ended, published, after_set, born},
};
ghost use Rattle.um_machine.specs.Objects.{init_verdict};

use crate::permissions::Permissions;
use crate::row_word::{RowWord, Stage};
use um_base::{Errno, Given, Leftover, Mode, SetSaid, Want};

fn init_verdict(want: Want, init: bool) -> Option<Errno>
    ensures { result ≡ init_verdict want init }
{
    match want {
        Want::Init => { if init { None } else { Some(Errno::EINVAL) } }
        Want::Uninit => { if init { Some(Errno::EADDRINUSE) } else { None } }
        Want::Any => None,
    }
}

impl RowWord {
    pub fn is_live(&self) -> bool
        ensures { result ≡ Rattle.um_words.specs.Rows.is_live self.now.stage }
    {
        matches!(self.stage, Stage::Live)
    }

    pub fn is_free(&self) -> bool
        ensures { result ≡ Rattle.um_words.specs.Rows.is_free self.now.stage }
    {
        matches!(self.stage, Stage::Free)
    }

    pub fn is_dying(&self) -> bool
        ensures { result ≡ Rattle.um_words.specs.Rows.is_dying self.now.stage }
    {
        matches!(self.stage, Stage::Dying)
    }

    pub fn is_cleaning(&self) -> bool
        ensures { result ≡ Rattle.um_words.specs.Rows.is_cleaning self.now.stage }
    {
        matches!(self.stage, Stage::Cleaning)
    }

    /// Whether a thread has a permission on the object.
    pub fn has(&self, thread: u8) -> bool
        ensures { result ≡ has self.now thread }
    {
        self.permissions.has(thread)
    }

    /// What a check answers. It asks first whether the object stands and has the wanted kind, then for the permission, then whether the
    /// object is initialised (Zephyr: User Mode, System Calls).
    pub fn verdict(&self, thread: u8, mode: Mode, fits: bool, want: Want) -> Option<Errno>
        ensures { result ≡ verdict_of self.now thread mode fits want }
    {
        if !(self.is_live() && fits) {
            return Some(Errno::EBADF);
        }
        if let Mode::User = mode {
            if !self.has(thread) && !self.public {
                return Some(Errno::EPERM);
            }
        }
        init_verdict(want, self.init)
    }

    /// What marking the object as initialised answers. `strict` says that it must not be initialised before.
    pub fn set(&self, strict: bool) -> SetSaid
        ensures { result ≡ set_of self.now strict }
    {
        if !self.is_live() {
            if strict {
                SetSaid::Fail(Errno::EBADF)
            } else {
                SetSaid::Gone
            }
        } else if strict && self.init {
            SetSaid::Fail(Errno::EADDRINUSE)
        } else {
            SetSaid::Done
        }
    }

    /// A check that passes holds the object.
    pub fn check(&mut self, thread: u8, mode: Mode, fits: bool, want: Want) -> Option<Errno>
        requires { self.old.claims < 127 }
        ensures verdict { result ≡ verdict_of self.old thread mode fits want }
        ensures leaves { self.new ≡ after_verdict self.old (verdict_of self.old thread mode fits want) }
    {
        match self.verdict(thread, mode, fits, want) {
            None => {
                self.claims += 1;
                None
            }
            Some(e) => Some(e),
        }
    }

    /// Gives a permission, if the object stands.
    pub fn grant(&mut self, who: u8) -> Given
        ensures given { result ≡ given_of self.old }
        ensures leaves { self.new ≡ given_to self.old who }
    {
        if self.is_live() {
            self.permissions.add(who);
            Given::Done
        } else {
            Given::Gone
        }
    }

    /// Gives a new thread the permission on its own object, and holds the object for its life.
    pub fn own(&mut self, who: u8) -> Given
        requires { self.old.claims < 127 }
        ensures given { result ≡ given_of self.old }
        ensures leaves { self.new ≡ claimed (given_to self.old who) }
    {
        let given = self.grant(who);
        self.claims += 1;
        given
    }

    /// Passes a permission on.
    pub fn inherit(&mut self, child: u8)
        ensures { self.new ≡ permitted self.old child true }
    {
        self.permissions.add(child);
    }

    /// Opens the object to all threads, if it stands.
    pub fn publish(&mut self) -> Given
        ensures given { result ≡ given_of self.old }
        ensures leaves { self.new ≡ published self.old }
    {
        let live = self.is_live();
        self.public = live || self.public;
        if live { Given::Done } else { Given::Gone }
    }

    /// Takes a permission away. A dynamic object that loses its last permission is gone.
    pub fn drop_one(&mut self, who: u8) -> Leftover
        ensures left { result ≡ left_of self.old who }
        ensures leaves { self.new ≡ dropped self.old who }
    {
        if !self.has(who) {
            self.permissions.remove(who);
            return Leftover::NoPair;
        }
        let live = self.is_live();
        self.permissions.remove(who);
        if self.dynamic && live && self.permissions.is_empty() {
            self.stage = if self.claims == 0 {
                Stage::Cleaning
            } else {
                Stage::Dying
            };
            Leftover::Gone
        } else {
            Leftover::Kept
        }
    }

    /// Marks the object as initialised, if it stands. `strict` says that it must not be initialised before.
    pub fn set_init(&mut self, strict: bool) -> SetSaid
        ensures set { result ≡ set_of self.old strict }
        ensures leaves { self.new ≡ after_set self.old (set_of self.old strict) }
    {
        let set = self.set(strict);
        if let SetSaid::Done = set {
            self.init = true;
        }
        set
    }

    /// Ends a claim. If it was the last claim on a dying row, the object has to be cleaned.
    pub fn end_call(&mut self)
        requires { 0 < self.old.claims }
        ensures { self.new ≡ call_ended self.old }
    {
        if self.is_dying() && self.claims == 1 {
            self.stage = Stage::Cleaning;
        }
        self.claims -= 1;
    }

    /// Puts a dynamic object into a free row, with one permission.
    pub fn born(&mut self, who: u8)
        ensures { self.new ≡ born self.old who }
    {
        self.vacate();
        self.permissions.add(who);
        self.dynamic = true;
        self.stage = Stage::Live;
    }

    /// Frees the row of an object that was cleaned.
    pub fn vacate(&mut self)
        ensures { self.new ≡ vacated self.old }
    {
        self.permissions = Permissions::none();
        self.init = false;
        self.public = false;
        self.dynamic = false;
        self.stage = Stage::Free;
        self.claims = 0;
    }
}
