//! The entries of a layout: rounded sizes, and their order.

ghost use Rattle.std.specs.{
  Prelude.{◌≡◌, ◌≤◌, ◌<◌, ◌^◌, ℕ, IsTrue, All, ◌+◌, length, slice_index_or, IfOk},
  List.Sorted.{IsPermutation},
};
ghost use Rattle.um_base.specs.Lawful.{is_within};
ghost use Rattle.um_layout.specs.{Sizes.{needed}, Entries.{AreEntriesOf, AreOrdered, AreDistinct}};

use crate::rounding::rounded;
use std::alloc::Global;
use std::cmp::Reverse;
use um_base::{Mpu, OutOfMemory};

/// One size of a layout.
#[derive(Clone, Copy)]
pub struct Entry {
    /// The rounded size, in bytes.
    pub size: u32,
    /// Its place in the list that was given.
    pub number: usize,
}

/// How many bytes the ranges take.
pub fn total(mpu: Mpu, sizes: &[u32]) -> u32
    requires few { length sizes.now ≤ 128 }
    requires sizes { All (λ n. IsTrue (is_within 1 65536 n)) sizes.now }
    ensures { result ≡ needed mpu sizes.now }
{
    let mut bytes = 0;
    for size in sizes {
        bytes += rounded(mpu, *size);
    }
    bytes
}

/// An entry for each size, in their order.
pub fn entries_of(alloc: Global, mpu: Mpu, sizes: &[u32]) -> Result<Vec<Entry>, OutOfMemory>
    requires sizes { All (λ n. IsTrue (is_within 1 65536 n)) sizes.now }
    ensures { IfOk result (λ entries. AreEntriesOf mpu sizes.now entries.items) }
{
    let mut entries = Vec::with_capacity(alloc, sizes.len())?;
    for (number, size) in sizes.iter().enumerate() {
        entries.push(Entry {
            size: rounded(mpu, *size),
            number,
        })?;
    }
    Ok(entries)
}

/// Puts entries into the order of placing: larger ones first under PMSAv7, and else as they were given.
pub fn put_in_order(mpu: Mpu, entries: &mut Vec<Entry>)
    requires numbered { (k : ℕ) (d : Entry) → k < length entries.old.items → (slice_index_or entries.old.items k d).number ≡ k }
    ensures permutation { IsPermutation entries.old.items entries.new.items }
    ensures distinct { AreDistinct entries.new.items }
    ensures ordered { AreOrdered mpu entries.new.items }
{
    match mpu {
        Mpu::V7 => entries.sort_unstable_by_key(|entry| (Reverse(entry.size), entry.number)),
        Mpu::V8 => {}
    }
}
