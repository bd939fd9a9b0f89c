//! The threads that have a permission on an object.

ghost use Rattle.std.specs.{
  Prelude.{◌≡◌, ◌<◌, ◌≤◌, false, true, slice_index_or, slice_set, length, not, replicate},
  List.{list_all},
};
ghost use Rattle.um_base.specs.declared.limits.TheConstants.{THREADS};
ghost use Rattle.um_words.specs.Bits.{bits_of, number_of};

use std::marker::Model;
use um_base::THREADS;

/// A set of thread indices, a bit for each. Contracts see a list with a Bool for each index.
#[derive(Clone, Copy)]
pub struct Permissions {
    bits: u32,
}

impl Model for Permissions {
    ghost use Rattle.std.{specs.Prelude.{List, Bool, ◌<◌}, proofs.Common.{ap}};
    ghost use Rattle.um_words.specs.{Bits.{bits_of, number_of}, BitLists.{number_of-bits}};

    ghost Value = { List Bool };

    ghost view = { λ p. bits_of 32 p.bits };

    ghost invariant = { λ p. p.bits < 4294967296 };

    ghost inverse = { λ l. record { bits = number_of l } };

    ghost inverse_ok = { λ a h. ap (λ n. record { bits = n }) (number_of-bits 32 a.bits h) };
}

impl Permissions {
    /// No thread has a permission.
    pub fn none() -> Permissions
        ensures { result ≡ replicate THREADS false }
    {
        Permissions { bits: 0 }
    }

    /// The threads whose bit is set have a permission. The lowest bit is that of index 0.
    pub fn from_bits(bits: u32) -> Permissions
        ensures { result ≡ bits_of 32 bits }
    {
        Permissions { bits }
    }

    pub fn bits(&self) -> u32
        ensures value { result ≡ number_of self.now }
        ensures back { bits_of 32 result ≡ self.now }
    {
        self.bits
    }

    /// Whether no thread has a permission.
    pub fn is_empty(&self) -> bool
        ensures { result ≡ list_all not self.now }
    {
        self.bits == 0
    }

    /// Whether the thread has a permission.
    pub fn has(&self, thread: u8) -> bool
        ensures { result ≡ slice_index_or self.now thread false }
    {
        (thread as usize) < THREADS && self.bits >> thread & 1 == 1
    }

    /// Gives the thread a permission, if there is such an index.
    pub fn add(&mut self, thread: u8)
        ensures { self.new ≡ slice_set self.old thread true }
    {
        self.set(thread, true);
    }

    /// Takes the thread's permission away.
    pub fn remove(&mut self, thread: u8)
        ensures { self.new ≡ slice_set self.old thread false }
    {
        self.set(thread, false);
    }

    /// Sets whether the thread has a permission, if there is such an index.
    #[inline(always)]
    fn set(&mut self, thread: u8, there: bool)
        ensures { self.new ≡ slice_set self.old thread there }
    {
        let bits = self.bits;
        if (thread as usize) >= THREADS {
            return;
        }
        if self.has(thread) == there {
            return;
        }
        self.bits = if there {
            bits + (1 << thread)
        } else {
            bits - (1 << thread)
        };
    }
}
