//! A sink in memory, which fails where it is told to.
ghost use Rattle.std.specs.{Prelude.{◌≤◌}, Vec.{vec_len, vec_capacity}};
ghost use Rattle.um_io.specs.Room.{reserved_room};

use crate::calls::Calls;
use crate::{Failed, Sink};
use std::alloc::Global;
use um_base::OutOfMemory;

/// How many bytes a sink in memory has room for.
const ROOM: usize = 64 << 20;

/// Takes bytes in pieces, and fails the calls whose numbers are listed.
#[derive(Drop)]
pub struct MemSink {
    bytes: Vec<u8>,
    calls: Calls,
    faults: u64,
    ghost within: { vec_len bytes ≤ reserved_room },
    ghost reserved: { reserved_room ≤ vec_capacity bytes },
}

impl MemSink {
    ghost use Rattle.std.specs.Prelude.{◌≡◌, ◌≤◌, [], length, IfOk};
    ghost use Rattle.um_io.specs.{
      Calls.{IsAtStart},
      InMemory.{sink_taken, sink_faults, sink_room, sink_calls},
      Room.{reserved_room, room_over},
    };

    /// An empty sink that reserves 64 MiB, and takes at most `piece` bytes a write. The calls whose
    /// numbers are in `fails`, counted from 0, fail; where none is, no call does while room is left.
    /// The error is that 64 MiB cannot be had.
    pub fn new(alloc: Global, piece: u32, fails: Vec<u32>) -> Result<Self, OutOfMemory>
        requires { 1 ≤ piece }
        ensures taken { IfOk result (λ s. sink_taken s ≡ []) }
        ensures faults { IfOk result (λ s. sink_faults s ≡ 0) }
        ensures room { IfOk result (λ s. sink_room s ≡ room_over fails.items 0) }
        ensures calls { IfOk result (λ s. IsAtStart (sink_calls s) piece fails.items) }
    {
        Ok(MemSink {
            bytes: Vec::with_capacity(alloc, ROOM)?,
            calls: Calls::new(piece, fails),
            faults: 0,
        })
    }

    /// The bytes that it has taken.
    pub fn bytes(&self) -> &[u8]
        ensures taken { result.now ≡ sink_taken self.now }
        ensures few { length result.now ≤ reserved_room }
    {
        &self.bytes
    }
}

impl Sink for MemSink {
    ghost use Rattle.std.specs.{
      Prelude.{◌≡◌, ◌-◌, ◌↔◌, min, length, Some, Ok, IsTrue, IsErr, IfOk, OnErr},
      Io.{WritesAtMost},
    };
    ghost use Rattle.um_io.specs.{
      Bytes.{TakesFront},
      Calls.{after_call},
      Causes.{HasCause, CountsErrors},
      InMemory.{sink_taken, sink_faults, sink_room, sink_calls, is_refused},
      Room.{UsesRoom, reserved_room},
    };

    ghost taken = { λ s. Some (sink_taken s) };

    ghost faults = { sink_faults };

    ghost room = { sink_room };

    fn write(&mut self, piece: &[u8]) -> Result<usize, Failed>
        ensures bound { WritesAtMost result piece.now }
        ensures bytes { TakesFront (Some (sink_taken self.old)) (Some (sink_taken self.new))
            result piece.now }
        ensures progress { result ≡ Ok 0 → length piece.now ≡ 0 }
        ensures cause { HasCause (sink_faults self.old) (sink_faults self.new) result }
        ensures room { UsesRoom (sink_room self.old) (sink_room self.new) (sink_faults self.old)
            (sink_faults self.new) result }

        // It fails the listed calls and, with no room left, any piece with a byte. Then it takes nothing.
        ensures fails { IsErr result ↔ IsTrue (is_refused self.old piece.now) }
        ensures kept { OnErr result (sink_taken self.new ≡ sink_taken self.old) }
        ensures count { IfOk result (λ n. n ≡ min
            (min (length piece.now) (sink_calls self.old).piece)
            (reserved_room - length (sink_taken self.old))) }
        ensures faults { CountsErrors (sink_faults self.old) (sink_faults self.new) result }
        ensures calls { sink_calls self.new ≡ after_call (sink_calls self.old) }
    {
        let room = ROOM - self.bytes.len();
        let count = piece.len().min(self.calls.piece as usize).min(room);
        let full = room == 0 && !piece.is_empty();
        if self.calls.next_fails() || full {
            self.faults = self.faults.saturating_add(1);
            return Err(Failed);
        }
        self.bytes.extend_from_slice(&piece[..count]).unwrap();
        Ok(count)
    }
}
