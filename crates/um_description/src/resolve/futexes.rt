//! Futexes, with the numbers of their partitions.

ghost use Rattle.std.specs.Prelude.{◌≡◌, ◌≤◌, IfOk, length, map};
ghost use Rattle.um_base.specs.declared.limits.TheConstants.{FUTEXES, PARTITIONS};
ghost use Rattle.um_document.specs.declared.description.PartitionEntry.{PartitionEntry};
ghost use Rattle.um_description.specs.Resolve.{futex_of};

use crate::named::{number, number_of};
use crate::numbers::clamped;
use std::alloc::Global;
use um_base::{BoundedVec, FUTEXES, Futex, OutOfMemory};
use um_document::{FutexEntry, PartitionEntry};

/// A futex, with the number of its partition.
fn futex(partitions: &[PartitionEntry], entry: &FutexEntry) -> Futex
    requires { length partitions.now ≤ PARTITIONS }
    ensures { result ≡ futex_of (map (λ (p : PartitionEntry). p.name) partitions.now) entry.now }
{
    Futex {
        name: entry.name,
        partition: number(number_of(
            partitions,
            |partition| partition.name,
            entry.partition.as_slice(),
        )),
        offset: clamped(entry.offset),
    }
}

/// The futexes, with the numbers of their partitions.
pub fn futexes(
    alloc: Global,
    partitions: &[PartitionEntry],
    entries: &[FutexEntry],
) -> Result<BoundedVec<Futex, FUTEXES>, OutOfMemory>
    requires few { length partitions.now ≤ PARTITIONS }
    requires count { length entries.now ≤ FUTEXES }
    ensures { IfOk result (λ all. all ≡ map (futex_of (map (λ (p : PartitionEntry). p.name) partitions.now)) entries.now) }
{
    let mut all = BoundedVec::new(alloc);
    for entry in entries {
        all.push_copy(&futex(partitions, entry))?;
    }
    Ok(all)
}
