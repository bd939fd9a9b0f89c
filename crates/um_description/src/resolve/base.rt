//! The image but for its scripts.

ghost use Rattle.std.specs.Prelude.{◌≡◌, ◌≤◌, IfOk, length, map, min, All};
ghost use Rattle.um_base.specs.declared.limits.TheConstants.{AREA_ENTRY, BOOTS, DOMAINS, FUTEXES, PARTITIONS, POOLS, SCRIPTS, STATIC_ROWS};
ghost use Rattle.um_description.specs.{
  Names.{items},
  Numbers.{natural},
  Packing.{asked_size, first_bytes},
  InLimits.{IsSize},
  Resolve.{rodata_range, pool_of, without_scripts},
};

use crate::numbers::clamped;
use crate::resolve::boots::boots;
use crate::resolve::domains::domains;
use crate::resolve::futexes::futexes;
use crate::resolve::objects::objects;
use crate::resolve::partitions::{bytes, partitions};
use std::alloc::Global;
use um_base::{AREA_ENTRY, Addr, BoundedVec, Image, OutOfMemory, POOLS, Pool, RODATA, Range};
use um_document::{Description, PoolEntry};
use um_layout::rounded;

/// The range of the read-only data, where there is any.
fn rodata_range(d: &Description) -> Option<Range>
    requires { length d.now.rodata ≤ AREA_ENTRY }
    ensures { result ≡ rodata_range d.now }
{
    let size = d.rodata.len() as u32;
    if size == 0 {
        None
    } else {
        Some(Range {
            start: Addr(RODATA),
            size: rounded(d.mpu, size),
        })
    }
}

/// The pools.
fn pools(alloc: Global, entries: &[PoolEntry]) -> Result<BoundedVec<Pool, POOLS>, OutOfMemory>
    requires { length entries.now ≤ POOLS }
    ensures { IfOk result (λ all. all ≡ map pool_of entries.now) }
{
    let mut all = BoundedVec::new(alloc);
    for entry in entries {
        all.push_copy(&Pool {
            name: entry.name,
            size: clamped(entry.size),
        })?;
    }
    Ok(all)
}

/// How many regions an image has.
fn regions(n: i64) -> u8
    ensures { result ≡ min (natural n) 255 }
{
    if n < 0 {
        0
    } else if n > 255 {
        255
    } else {
        n as u8
    }
}

/// The image with its partitions and its thread stacks in these ranges, but for its scripts.
pub fn without_scripts(
    alloc: Global,
    d: &Description,
    partition_ranges: &[Range],
    stack_ranges: &[Range],
) -> Result<Image, OutOfMemory>
    requires rodata { length d.now.rodata ≤ AREA_ENTRY }
    requires pools { length d.now.pools ≤ POOLS }
    requires partitions { length d.now.partitions ≤ PARTITIONS }
    requires data { All (λ p. length (first_bytes p) ≤ AREA_ENTRY) d.now.partitions }
    requires sizes { All (λ p. IsSize (asked_size p)) d.now.partitions }
    requires ranges { length partition_ranges.now ≡ length d.now.partitions }
    requires domains { length d.now.domains ≤ DOMAINS }
    requires parts { All (λ m. length (items m.partitions) ≤ PARTITIONS) d.now.domains }
    requires objects { length d.now.objects ≤ STATIC_ROWS }
    requires boots { length d.now.boots ≤ BOOTS }
    requires scripts { length d.now.scripts ≤ SCRIPTS }
    requires futexes { length d.now.futexes ≤ FUTEXES }
    ensures { IfOk result (λ image. image ≡ without_scripts d.now partition_ranges.now stack_ranges.now) }
{
    let partition_entries = d.partitions.as_slice();
    let rodata_bytes = bytes(alloc, &d.rodata)?;
    let pools = pools(alloc, d.pools.as_slice())?;
    let partitions = partitions(alloc, partition_ranges, partition_entries)?;
    let domains = domains(alloc, partition_entries, d.domains.as_slice())?;
    let objects = objects(alloc, stack_ranges, d.objects.as_slice())?;
    let boots = boots(alloc, d)?;
    let futexes = futexes(alloc, partition_entries, d.futexes.as_slice())?;
    Ok(Image {
        mpu: d.mpu,
        regions: regions(d.regions),
        policy: d.policy,
        rodata: rodata_range(d),
        rodata_bytes,
        pools,
        partitions,
        domains,
        objects,
        boots,
        scripts: BoundedVec::new(alloc),
        futexes,
    })
}
