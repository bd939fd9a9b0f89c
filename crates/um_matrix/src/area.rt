//! The bytes of an area of memory.

ghost use Rattle.std.specs.Prelude.{◌≡◌, ◌+◌, ◌<◌, ◌≤◌, ◌^◌, ◌++◌, IsTrue, drop, length, replicate, take, ℕ};
ghost use Rattle.um_machine.specs.Memory.{put_bytes};

use std::marker::Model;
use um_base::AREA_SIZE;
use um_steps::bytes::{clear, write};

/// The bytes of an area. From the byte `used` on, all are 0, so two areas differ only before.
#[derive(Drop)]
pub struct Area {
    bytes: Vec<u8>,
    used: usize,
}

impl Model for Area {
    ghost use Rattle.std.specs.Prelude.{ℕ, List, ◌≡◌, ◌≤◌, ◌-◌, drop, length, replicate};
    ghost use Rattle.um_base.specs.declared.limits.TheConstants.{AREA_SIZE};

    ghost Value = { List ℕ };

    ghost view = { λ a. a.bytes.items };

    ghost invariant = { λ a.
        (length a.bytes.items ≡ AREA_SIZE) × (a.used ≤ AREA_SIZE)
        × (drop a.used a.bytes.items ≡ replicate {A = ℕ} (AREA_SIZE - a.used) 0) };
}

/// Takes over the first so many bytes of others.
fn take_front(own: &mut [u8], other: &[u8], n: usize)
    requires own { n ≤ length own.old }
    requires other { n ≤ length other.now }
    ensures { own.new ≡ take n other.now ++ drop n own.old }
{
    own[..n].copy_from_slice(&other[..n]);
}

impl Area {
    /// The area with these bytes.
    pub fn new(bytes: Vec<u8>) -> Area
        requires { length bytes.items ≡ AREA_SIZE }
        ensures value { result ≡ bytes.items }
        ensures all { length result ≡ AREA_SIZE }
    {
        Area {
            bytes,
            used: AREA_SIZE as usize,
        }
    }

    /// Looks for the last byte that isn't 0, so that less is compared and copied later.
    pub fn trim(&mut self)
        ensures same { self.new ≡ self.old }
        ensures all { length self.new ≡ AREA_SIZE }
    {
        let mut used = self.used;
        while used > 0 && self.bytes[used - 1] == 0 {
            used -= 1;
        }
        self.used = used;
    }

    /// The bytes.
    pub fn as_slice(&self) -> &[u8]
        ensures value { result.now ≡ self.now }
        ensures all { length result.now ≡ AREA_SIZE }
    {
        self.bytes.as_slice()
    }

    /// Writes bytes one after another, as far as there is room.
    pub fn write(&mut self, i: usize, bytes: &[u8])
        requires { i + length bytes.now < 2 ^ 64 }
        ensures written { self.new ≡ put_bytes self.old i bytes.now }
        ensures all { length self.new ≡ AREA_SIZE }
    {
        self.used = self.used.max((i + bytes.len()).min(AREA_SIZE as usize));
        write(&mut self.bytes, i, bytes);
    }

    /// Writes this many zero bytes one after another, as far as there is room.
    pub fn clear(&mut self, i: usize, n: usize)
        requires { i + n < 2 ^ 64 }
        ensures written { self.new ≡ put_bytes self.old i (replicate {A = ℕ} n 0) }
        ensures all { length self.new ≡ AREA_SIZE }
    {
        self.used = self.used.max((i + n).min(AREA_SIZE as usize));
        clear(&mut self.bytes, i, n);
    }

    /// Takes the bytes of another area.
    pub fn set_to(&mut self, other: &Area)
        ensures taken { self.new ≡ other.now }
        ensures all { length self.new ≡ AREA_SIZE }
    {
        let n = self.used.max(other.used);
        take_front(&mut self.bytes, &other.bytes, n);
        self.used = other.used;
    }

    /// Whether two areas have the same bytes.
    pub fn is_same(&self, other: &Area) -> bool
        ensures { IsTrue result → self.now ≡ other.now }
    {
        let n = self.used.max(other.used);
        self.bytes[..n] == other.bytes[..n]
    }

    /// The bytes that aren't all 0.
    pub fn used(&self) -> &[u8] {
        &self.bytes[..self.used]
    }
}
