//! A sink over a writer of std.
ghost use Rattle.std.specs.Io.{WritesAtMost};
ghost use Rattle.um_io.specs.Bytes.{TakesFront};

use crate::{Failed, Sink};
use std::io::{ErrorKind, Write};

/// One write, which is tried again where a signal interrupts it.
fn write_again<W: Write>(writer: &mut W, piece: &[u8]) -> Result<usize, Failed>
    ensures bound { WritesAtMost result piece.now }
    ensures bytes { TakesFront (W.contents writer.old) (W.contents writer.new) result piece.now }
{
    for _ in 0..u64::MAX {
        match writer.write(piece) {
            Ok(count) => return Ok(count),
            Err(e) => {
                if e.kind() != ErrorKind::Interrupted {
                    return Err(Failed);
                }
            }
        }
    }
    Err(Failed)
}

/// A writer, with a count of its errors. It tells the bytes taken where the writer does, and
/// promises no room. A writer that takes nothing of a piece that isn't empty has failed. A write
/// that a signal interrupts is no error: it is tried again.
#[derive(Drop)]
pub struct StdSink<W: Write + Drop> {
    inner: W,
    faults: u64,
}

impl<W: Write + Drop> StdSink<W> {
    ghost use Rattle.std.specs.Prelude.{◌≡◌};

    /// A sink into the writer, which has not failed yet.
    pub fn new(inner: W) -> Self
        ensures taken { ⟦<StdSink<W> as Sink>⟧.taken result ≡ W.contents inner }
        ensures faults { ⟦<StdSink<W> as Sink>⟧.faults result ≡ 0 }
    {
        StdSink { inner, faults: 0 }
    }
}

impl<W: Write + Drop> Sink for StdSink<W> {
    ghost use Rattle.std.specs.{Prelude.{◌≡◌, Ok, length}, Io.{WritesAtMost}};
    ghost use Rattle.um_io.specs.{Bytes.{TakesFront}, Causes.{HasCause, CountsErrors}, Room.{UsesRoom}};

    ghost taken = { λ s. W.contents s.inner };

    ghost faults = { λ s. s.faults };

    ghost room = { λ _. 0 };

    fn write(&mut self, piece: &[u8]) -> Result<usize, Failed>
        ensures bound { WritesAtMost result piece.now }
        ensures bytes { TakesFront (⟦<Self as Sink>⟧.taken self.old)
            (⟦<Self as Sink>⟧.taken self.new) result piece.now }
        ensures progress { result ≡ Ok 0 → length piece.now ≡ 0 }
        ensures cause { HasCause (⟦<Self as Sink>⟧.faults self.old)
            (⟦<Self as Sink>⟧.faults self.new) result }
        ensures room { UsesRoom (⟦<Self as Sink>⟧.room self.old) (⟦<Self as Sink>⟧.room self.new)
            (⟦<Self as Sink>⟧.faults self.old) (⟦<Self as Sink>⟧.faults self.new) result }

        // Each error is counted, and nothing else.
        ensures faults { CountsErrors (⟦<Self as Sink>⟧.faults self.old)
            (⟦<Self as Sink>⟧.faults self.new) result }
    {
        match write_again(&mut self.inner, piece) {
            Ok(count) if count > 0 || piece.is_empty() => Ok(count),
            _ => {
                self.faults = self.faults.saturating_add(1);
                Err(Failed)
            }
        }
    }
}
