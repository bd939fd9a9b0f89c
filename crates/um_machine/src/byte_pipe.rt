//! What a pipe keeps.

ghost use Rattle.std.specs.Prelude.{◌≡◌, ◌+◌, ◌≤◌, [], ◌++◌, length, take, drop, true, false, IsTrue};

use crate::pieces::{append, piece};
use std::marker::Model;
use um_base::Piece;

/// A pipe: how many bytes it holds at most, those in it, the oldest first, and whether it is closed.
#[derive(Drop)]
pub struct BytePipe {
    size: u32,
    bytes: Piece,
    closed: bool,
}

impl Model for BytePipe {
    ghost use Rattle.std.specs.Prelude.{◌≤◌};
    ghost use Rattle.um_base.specs.declared.limits.TheConstants.{PIECE};
    ghost use Rattle.um_machine.specs.Contents.{Pipe};

    ghost Value = { Pipe };

    ghost view = { λ p. record { size = p.size; bytes = p.bytes; closed = p.closed } };

    ghost invariant = { λ p. p.size ≤ PIECE };
}

impl BytePipe {
    /// An empty, open pipe for at most so many bytes.
    pub fn new(size: u32) -> BytePipe
        requires { size ≤ 256 }
        ensures { result ≡ record { size = size; bytes = []; closed = false } }
    {
        BytePipe {
            size,
            bytes: Piece::new(),
            closed: false,
        }
    }

    /// How many bytes it holds at most.
    pub fn size(&self) -> u32
        ensures value { result ≡ self.now.size }
        ensures few { result ≤ 256 }
    {
        self.size
    }

    /// The bytes in it, the oldest first.
    pub fn bytes(&self) -> &[u8]
        ensures value { result.now ≡ self.now.bytes }
        ensures few { length result.now ≤ 256 }
    {
        self.bytes.as_slice()
    }

    /// Whether it is closed.
    pub fn closed(&self) -> bool
        ensures { result ≡ self.now.closed }
    {
        self.closed
    }

    /// How many bytes are in it.
    pub fn len(&self) -> usize
        ensures value { result ≡ length self.now.bytes }
        ensures few { result ≤ 256 }
    {
        self.bytes.len()
    }

    /// The same pipe once more.
    pub fn copy(&self) -> BytePipe
        ensures { result ≡ self.now }
    {
        BytePipe {
            size: self.size,
            bytes: self.bytes,
            closed: self.closed,
        }
    }

    /// Whether two pipes are the same.
    pub fn is_same(&self, other: &BytePipe) -> bool
        ensures { IsTrue result → self.now ≡ other.now }
    {
        if self.size != other.size || self.closed != other.closed {
            return false;
        }
        self.bytes() == other.bytes()
    }

    /// Puts bytes behind the others.
    pub fn append(&mut self, bytes: &[u8])
        requires { length self.old.bytes + length bytes.now ≤ 256 }
        ensures { self.new ≡ record self.old { bytes = self.old.bytes ++ bytes.now } }
    {
        append(&mut self.bytes, bytes);
    }

    /// Takes so many of the oldest bytes, or all where fewer are in it.
    pub fn take(&mut self, n: usize) -> Piece
        ensures taken { result ≡ take n self.old.bytes }
        ensures left { self.new ≡ record self.old { bytes = drop n self.old.bytes } }
    {
        let bytes = self.bytes.as_slice();
        if n >= bytes.len() {
            let taken = self.bytes;
            self.bytes = Piece::new();
            return taken;
        }
        let taken = piece(&bytes[..n]);
        self.bytes = piece(&bytes[n..]);
        taken
    }

    /// Takes all bytes out.
    pub fn clear(&mut self)
        ensures { self.new ≡ record self.old { bytes = [] } }
    {
        self.bytes = Piece::new();
    }

    /// Closes it; the bytes in it stay.
    pub fn close(&mut self)
        ensures { self.new ≡ record self.old { closed = true } }
    {
        self.closed = true;
    }
}
