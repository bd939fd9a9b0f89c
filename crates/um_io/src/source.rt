//! Where bytes come from.
ghost use Rattle.std.specs.{
  Prelude.{◌≡◌, ℕ, ◌≤◌, List, Option},
  Io.{ReadsAtMost},
  Io.KnownBytes.{ReadConsumes},
};
ghost use Rattle.um_io.specs.Causes.{HasCause};

use crate::Failed;

/// A source of bytes, which counts its failures.
pub trait Source {
    /// The bytes that are left, where the source tells them.
    ghost left: { Self → Option (List ℕ) };

    /// How often it has failed. A count of 64 bits stays at its last value.
    ghost faults: { Self → ℕ };

    /// What the count of failures stays at or below for good.
    ghost most: { Self → ℕ };

    /// Puts the front of what is left at the front of `into`, and gives its length.
    /// 0 for a buffer that isn't empty is the end. A read that fails loses no bytes.
    fn read(&mut self, into: &mut [u8]) -> Result<usize, Failed>
        ensures bound { ReadsAtMost result into.new }
        ensures bytes { ReadConsumes (left self.old) (left self.new) result into.new }
        ensures cause { HasCause (faults self.old) (faults self.new) result }
        ensures most { most self.new ≡ most self.old };

    /// The count keeps to that bound.
    ghost at_most: { (source : Self) → faults source ≤ most source };
}
