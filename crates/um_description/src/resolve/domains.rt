//! Domains, with the numbers of their partitions.

ghost use Rattle.std.specs.Prelude.{◌≡◌, ◌≤◌, IfOk, length, map, All};
ghost use Rattle.um_document.specs.declared.description.PartitionEntry.{PartitionEntry};
ghost use Rattle.um_description.specs.{Names.{items}, Resolve.{number_named, domain_of}};

use crate::named::{number, number_of};
use std::alloc::Global;
use um_base::{BoundedVec, DOMAINS, DomainDef, OutOfMemory, PARTITIONS};
use um_document::{DomainEntry, PartitionEntry, Text};

/// The numbers of the partitions with these names.
fn numbers(
    alloc: Global,
    partitions: &[PartitionEntry],
    texts: &[Text],
) -> Result<BoundedVec<u8, PARTITIONS>, OutOfMemory>
    requires few { length partitions.now ≤ PARTITIONS }
    requires short { length texts.now ≤ PARTITIONS }
    ensures { IfOk result (λ all. all ≡ map (number_named (map (λ (p : PartitionEntry). p.name) partitions.now)) texts.now) }
{
    let mut all = BoundedVec::new(alloc);
    for text in texts {
        all.push(number(number_of(partitions, |partition| partition.name, text.as_slice())))?;
    }
    Ok(all)
}

/// A domain, with the numbers of its partitions where it is initialised.
fn domain(
    alloc: Global,
    partitions: &[PartitionEntry],
    entry: &DomainEntry,
) -> Result<DomainDef, OutOfMemory>
    requires few { length partitions.now ≤ PARTITIONS }
    requires short { length (items entry.now.partitions) ≤ PARTITIONS }
    ensures { IfOk result (λ m. m ≡ domain_of (map (λ (p : PartitionEntry). p.name) partitions.now) entry.now) }
{
    let parts = match &entry.partitions {
        Some(texts) => Some(numbers(alloc, partitions, texts.as_slice())?),
        None => None,
    };
    Ok(DomainDef {
        name: entry.name,
        parts,
    })
}

/// The domains, with the numbers of their partitions.
pub fn domains(
    alloc: Global,
    partitions: &[PartitionEntry],
    entries: &[DomainEntry],
) -> Result<BoundedVec<DomainDef, DOMAINS>, OutOfMemory>
    requires few { length partitions.now ≤ PARTITIONS }
    requires count { length entries.now ≤ DOMAINS }
    requires short { All (λ m. length (items m.partitions) ≤ PARTITIONS) entries.now }
    ensures { IfOk result (λ all. all ≡ map (domain_of (map (λ (p : PartitionEntry). p.name) partitions.now)) entries.now) }
{
    let mut all = BoundedVec::new(alloc);
    for entry in entries {
        all.push(domain(alloc, partitions, entry)?)?;
    }
    Ok(all)
}
