//! Partitions in their ranges.

ghost use Rattle.std.specs.Prelude.{◌≡◌, ◌≤◌, IfOk, length, All};
ghost use Rattle.um_description.specs.{
  InLimits.{IsSize},
  Packing.{asked_size, first_bytes},
  Resolve.{placed_partitions},
};

use crate::packing::packed_bytes;
use std::alloc::Global;
use um_base::{AREA_ENTRY, BoundedVec, OutOfMemory, PARTITIONS, Partition, Range};
use um_document::{PartitionContents, PartitionEntry, Text};

/// A copy of bytes.
pub fn bytes(alloc: Global, text: &Text) -> Result<BoundedVec<u8, AREA_ENTRY>, OutOfMemory>
    requires { length text.now ≤ AREA_ENTRY }
    ensures { IfOk result (λ bytes. bytes ≡ text.now) }
{
    Ok(BoundedVec::from_vec(text.as_slice().to_vec(alloc)?))
}

/// The bytes at the start of a partition.
fn first_bytes(
    alloc: Global,
    entry: &PartitionEntry,
) -> Result<BoundedVec<u8, AREA_ENTRY>, OutOfMemory>
    requires size { IsSize (asked_size entry.now) }
    requires few { length (first_bytes entry.now) ≤ AREA_ENTRY }
    ensures { IfOk result (λ bytes. bytes ≡ first_bytes entry.now) }
{
    match &entry.contents {
        PartitionContents::Whole { data, .. } => bytes(alloc, data),
        PartitionContents::Variables(variables) => {
            let packed = packed_bytes(alloc, variables.as_slice())?;
            Ok(BoundedVec::from_vec(packed))
        }
    }
}

/// A partition in its range.
fn partition(alloc: Global, range: Range, entry: &PartitionEntry) -> Result<Partition, OutOfMemory>
    requires size { IsSize (asked_size entry.now) }
    requires few { length (first_bytes entry.now) ≤ AREA_ENTRY }
    ensures { IfOk result (λ p. p ≡ record { name = entry.now.name; range = range; attr = entry.now.attr; bytes = first_bytes entry.now }) }
{
    Ok(Partition {
        name: entry.name,
        range,
        attr: entry.attr,
        bytes: first_bytes(alloc, entry)?,
    })
}

/// The partitions, each in its range.
pub fn partitions(
    alloc: Global,
    ranges: &[Range],
    entries: &[PartitionEntry],
) -> Result<BoundedVec<Partition, PARTITIONS>, OutOfMemory>
    requires few { length entries.now ≤ PARTITIONS }
    requires enough { length ranges.now ≡ length entries.now }
    requires sizes { All (λ p. IsSize (asked_size p)) entries.now }
    requires data { All (λ p. length (first_bytes p) ≤ AREA_ENTRY) entries.now }
    ensures { IfOk result (λ all. all ≡ placed_partitions ranges.now entries.now) }
{
    let mut all = BoundedVec::new(alloc);
    for (i, entry) in entries.iter().enumerate() {
        all.push(partition(alloc, ranges[i], entry)?)?;
    }
    Ok(all)
}
