//! A source over a reader of std.
ghost use Rattle.std.specs.{Io.{ReadsAtMost}, Io.KnownBytes.{ReadConsumes}, Prelude.{◌≤◌, ◌-◌, ◌^◌}};

use crate::{Failed, Source};
use std::io::{ErrorKind, Read};

/// One read, which is tried again where a signal interrupts it.
fn read_again<R: Read>(reader: &mut R, into: &mut [u8]) -> Result<usize, Failed>
    ensures bound { ReadsAtMost result into.new }
    ensures bytes { ReadConsumes (R.remaining reader.old) (R.remaining reader.new) result into.new }
{
    for _ in 0..u64::MAX {
        match reader.read(into) {
            Ok(count) => return Ok(count),
            Err(e) => {
                if e.kind() != ErrorKind::Interrupted {
                    return Err(Failed);
                }
            }
        }
    }
    Err(Failed)
}

/// A reader, with a count of its errors. It tells the bytes that are left where the reader does.
/// A read that a signal interrupts is no error: it is tried again.
#[derive(Drop)]
pub struct StdSource<R: Read + Drop> {
    inner: R,
    faults: u64,
    ghost at_most: { faults ≤ 2 ^ 64 - 1 },
}

impl<R: Read + Drop> StdSource<R> {
    ghost use Rattle.std.specs.Prelude.{◌≡◌};

    /// A source of what the reader gives, which has not failed yet.
    pub fn new(inner: R) -> Self
        ensures left { ⟦<StdSource<R> as Source>⟧.left result ≡ R.remaining inner }
        ensures faults { ⟦<StdSource<R> as Source>⟧.faults result ≡ 0 }
    {
        StdSource { inner, faults: 0 }
    }
}

impl<R: Read + Drop> Source for StdSource<R> {
    ghost use Rattle.std.specs.{Prelude.{◌≡◌}, Io.{ReadsAtMost}, Io.KnownBytes.{ReadConsumes}};
    ghost use Rattle.um_io.specs.Causes.{HasCause, CountsErrors};

    ghost left = { λ s. R.remaining s.inner };

    ghost faults = { λ s. s.faults };

    ghost most = { λ _. 2 ^ 64 - 1 };

    ghost at_most = { λ s. s.at_most };

    fn read(&mut self, into: &mut [u8]) -> Result<usize, Failed>
        ensures bound { ReadsAtMost result into.new }
        ensures bytes { ReadConsumes (⟦<Self as Source>⟧.left self.old)
            (⟦<Self as Source>⟧.left self.new) result into.new }
        ensures cause { HasCause (⟦<Self as Source>⟧.faults self.old)
            (⟦<Self as Source>⟧.faults self.new) result }
        ensures most { ⟦<Self as Source>⟧.most self.new ≡ ⟦<Self as Source>⟧.most self.old }

        // Each error is counted, and nothing else.
        ensures faults { CountsErrors (⟦<Self as Source>⟧.faults self.old)
            (⟦<Self as Source>⟧.faults self.new) result }
    {
        match read_again(&mut self.inner, into) {
            Ok(count) => Ok(count),
            Err(Failed) => {
                self.faults = self.faults.saturating_add(1);
                Err(Failed)
            }
        }
    }
}
