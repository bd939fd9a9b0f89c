//! Strings in memory.

ghost use Rattle.std.specs.Prelude.{◌≡◌, ◌<◌, ◌≤◌, ◌+◌, ℕ, if◌then◌else◌, Some, None, slice_index};
ghost use Rattle.um_matrix.specs.Offered.{IsShort};

use crate::tables::Tables;
use um_base::{Access, Found, Piece, THREADS};

/// How many bytes of a string are read at most.
const MOST_STRING: u32 = 32;

impl<'a> Tables<'a> {
    ghost use Rattle.um_machine.specs.Memory.{allowed, bytes_at, string_read, string_bytes};

    /// The byte that stands this many bytes after an address: zero where there is no memory.
    #[tactic(auto, using(crate::proofs::StringLemmas::no_byte))]
    fn byte_behind(&self, a: u32, before: u32) -> u8
        ensures { result ≡ slice_index (bytes_at self.now (a + before) 1) 0 }
    {
        let _ = &self.stacks;
        match a.checked_add(before) {
            Some(at) => first(self.bytes_at(at, 1)),
            None => 0,
        }
    }

    /// Whether a thread may read the byte that stands this many bytes after an address.
    #[tactic(auto, using(crate::proofs::StringLemmas::not_allowed))]
    fn may_read(&self, t: usize, a: u32, before: u32) -> bool
        requires { t < THREADS }
        ensures { result ≡ allowed self.now t Access.Read (a + before) 1 }
    {
        match a.checked_add(before) {
            Some(at) => self.allowed(t, Access::Read, at, 1),
            None => false,
        }
    }

    /// What a string read finds from an address on.
    #[tactic(auto, using(crate::proofs::StringLemmas::string_more))]
    pub(crate) fn string_read(&self, t: usize, a: u32) -> Found
        requires { t < THREADS }
        ensures value { result ≡ string_read self.now t a 32 }
        ensures short { IsShort result }
    {
        for before in 0..MOST_STRING {
            if !self.may_read(t, a, before) {
                return Found::Unreadable;
            }
            if self.byte_behind(a, before) == 0 {
                return Found::Length(before);
            }
        }
        Found::TooLong
    }

    /// The bytes of a string.
    pub(crate) fn string_bytes(&self, a: u32, n: u32) -> Piece
        requires { n ≤ 32 }
        ensures { result ≡ string_bytes self.now a n }
    {
        let mut bytes = Piece::new();
        for before in 0..n {
            bytes.push(self.byte_behind(a, before));
        }
        bytes
    }
}

/// The first byte, or zero.
fn first(bytes: &[u8]) -> u8
    ensures { result ≡ slice_index bytes.now 0 }
{
    match bytes {
        [b, ..] => *b,
        [] => 0,
    }
}
