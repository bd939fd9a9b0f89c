//! A source over memory, which fails where it is told to.
ghost use Rattle.std.specs.{Prelude.{◌≤◌}, Vec.{vec_len}};
ghost use Rattle.um_io.specs.Room.{most_faults};

use crate::calls::Calls;
use crate::{Failed, Source};

/// Gives its bytes in pieces, and fails the calls whose numbers are listed.
#[derive(Drop)]
pub struct MemSource {
    bytes: Vec<u8>,
    at: usize,
    calls: Calls,
    faults: u64,
    ghost within: { at ≤ vec_len bytes },
    ghost at_most: { faults ≤ most_faults calls.fails.items },
}

impl MemSource {
    ghost use Rattle.std.specs.Prelude.{◌≡◌, ◌≤◌};
    ghost use Rattle.um_io.specs.{
      Calls.{IsAtStart},
      Room.{most_faults},
      InMemory.{source_left, source_faults, source_most, source_calls},
    };

    /// A source of these bytes, at most `piece` of them a read. The calls whose numbers are in
    /// `fails`, counted from 0, fail; where none is, the count of failures is 0 for good.
    pub fn new(bytes: Vec<u8>, piece: u32, fails: Vec<u32>) -> Self
        requires { 1 ≤ piece }
        ensures left { source_left result ≡ bytes.items }
        ensures faults { source_faults result ≡ 0 }
        ensures most { source_most result ≡ most_faults fails.items }
        ensures calls { IsAtStart (source_calls result) piece fails.items }
    {
        MemSource {
            bytes,
            at: 0,
            calls: Calls::new(piece, fails),
            faults: 0,
        }
    }
}

impl Source for MemSource {
    ghost use Rattle.std.specs.{
      Prelude.{◌≡◌, ◌↔◌, min, length, Some, IsTrue, IsErr, IfOk},
      Io.{ReadsAtMost},
      Io.KnownBytes.{ReadConsumes},
    };
    ghost use Rattle.um_io.specs.{
      Calls.{is_next_listed, after_call},
      Causes.{HasCause, CountsErrors},
      InMemory.{source_left, source_faults, source_most, source_calls},
    };

    ghost left = { λ s. Some (source_left s) };

    ghost faults = { source_faults };

    ghost most = { source_most };

    ghost at_most = { λ s. s.at_most };

    fn read(&mut self, into: &mut [u8]) -> Result<usize, Failed>
        ensures bound { ReadsAtMost result into.new }
        ensures bytes { ReadConsumes (Some (source_left self.old)) (Some (source_left self.new))
            result into.new }
        ensures cause { HasCause (source_faults self.old) (source_faults self.new) result }
        ensures most { source_most self.new ≡ source_most self.old }

        // It fails the listed calls and no other, and gives as much as the piece allows.
        ensures fails { IsErr result ↔ IsTrue (is_next_listed (source_calls self.old)) }
        ensures count { IfOk result (λ n. n ≡ min
            (min (length into.old) (length (source_left self.old)))
            (source_calls self.old).piece) }
        ensures faults { CountsErrors (source_faults self.old) (source_faults self.new) result }
        ensures calls { source_calls self.new ≡ after_call (source_calls self.old) }
    {
        if self.calls.next_fails() {
            self.faults = self.faults.saturating_add(1);
            return Err(Failed);
        }
        let left = &self.bytes[self.at..];
        let count = into.len().min(left.len()).min(self.calls.piece as usize);
        into[..count].copy_from_slice(&left[..count]);
        self.at += count;
        Ok(count)
    }
}
