//! Where bytes go to.
ghost use Rattle.std.specs.{Prelude.{◌≡◌, ℕ, List, Option, Ok, length}, Io.{WritesAtMost}};
ghost use Rattle.um_io.specs.{Causes.{HasCause}, Bytes.{TakesFront}, Room.{UsesRoom}};

use crate::Failed;

/// A sink of bytes, which counts its failures.
pub trait Sink {
    /// The bytes that it has taken, where it tells them.
    ghost taken: { Self → Option (List ℕ) };

    /// How often it has failed. A count of 64 bits stays at its last value.
    ghost faults: { Self → ℕ };

    /// How many more bytes it surely takes with no failure; 0 where it promises none.
    ghost room: { Self → ℕ };

    /// Takes a front of the piece, also where it fails, and gives its length.
    /// It takes a byte of a piece that isn't empty, or fails.
    fn write(&mut self, piece: &[u8]) -> Result<usize, Failed>
        ensures bound { WritesAtMost result piece.now }
        ensures bytes { TakesFront (taken self.old) (taken self.new) result piece.now }
        ensures progress { result ≡ Ok 0 → length piece.now ≡ 0 }
        ensures cause { HasCause (faults self.old) (faults self.new) result }

        // While room is left a write succeeds, and only the bytes that it takes use the room up.
        ensures room { UsesRoom (room self.old) (room self.new) (faults self.old)
            (faults self.new) result };
}
