//! The ranges of partitions and of thread stacks.

ghost use Rattle.std.specs.Prelude.{◌≡◌, ◌<◌, ◌≤◌, ◌+◌, ◌++◌, OnOk, IfOk, IfErr, IfSome, IfNone, Err, ◌%◌, All, IsTrue, length, map, sum};
ghost use Rattle.um_base.specs.{
  Lawful.{is_within},
  Layout.{rounded},
  declared.limits.TheConstants.{AREA_SIZE, PARTITION_AREA, STACK_AREA},
};
ghost use Rattle.um_layout.specs.declared.placing.NoRoom.TheVariants as no_room;
ghost use Rattle.um_description.specs.{
  InLimits.{IsSize, IsInLimits},
  Packing.{asked_size},
  Resolve.{option_list, asked_partitions, asked_stack, asked_stacks, partition_sizes, stack_sizes, placed},
};

use crate::numbers::clamped;
use crate::packing::packed_size;
use std::alloc::Global;
use um_base::{AREA_SIZE, Addr, Mpu, OutOfMemory, PARTITION_AREA, Range, STACK_AREA};
use um_document::{Description, Details, ObjectEntry, PartitionContents, PartitionEntry};
use um_layout::{NoRoom, place};

/// The size that a partition asks for.
fn asked_size(entry: &PartitionEntry) -> u32
    ensures { result ≡ asked_size entry.now }
{
    match &entry.contents {
        PartitionContents::Whole { size, .. } => clamped(*size),
        PartitionContents::Variables(variables) => packed_size(variables.as_slice()),
    }
}

/// The sizes that the partitions ask for.
fn asked_partitions(alloc: Global, d: &Description) -> Result<Vec<u32>, OutOfMemory>
    requires { All (λ p. IsSize (asked_size p)) d.now.partitions }
    ensures asked { IfOk result (λ sizes. All IsSize sizes.items) }
    ensures few { IfOk result (λ sizes. length sizes.items ≡ length d.now.partitions) }
    ensures items { IfOk result (λ sizes. sizes.items ≡ asked_partitions d.now) }
{
    let mut sizes = Vec::new(alloc);
    for entry in d.partitions.as_slice() {
        sizes.push(asked_size(entry))?;
    }
    Ok(sizes)
}

/// The size that an object asks for, where it is a thread stack.
fn asked_stack(entry: &ObjectEntry) -> Option<u32>
    ensures { option_list result ≡ asked_stack entry.now }
{
    match entry.details {
        Details::ThreadStack { size } => Some(clamped(size)),
        _ => None,
    }
}

/// One more size at the end, if there is one.
fn push_size(sizes: &mut Vec<u32>, size: Option<u32>) -> Result<(), OutOfMemory>
    requires sizes { All IsSize sizes.old.items }
    requires size { All IsSize (option_list size) }
    ensures items { OnOk result (sizes.new.items ≡ sizes.old.items ++ option_list size) }
    ensures asked { OnOk result (All IsSize sizes.new.items) }
    ensures few { OnOk result (length sizes.new.items ≤ length sizes.old.items + 1) }
{
    if let Some(size) = size {
        sizes.push(size)?;
    }
    Ok(())
}

/// The sizes that the thread stacks ask for.
fn asked_stacks(alloc: Global, d: &Description) -> Result<Vec<u32>, OutOfMemory>
    requires { All (λ o. All IsSize (asked_stack o)) d.now.objects }
    ensures asked { IfOk result (λ sizes. All IsSize sizes.items) }
    ensures few { IfOk result (λ sizes. length sizes.items ≤ length d.now.objects) }
    ensures items { IfOk result (λ sizes. sizes.items ≡ asked_stacks d.now) }
{
    let mut sizes = Vec::new(alloc);
    for entry in d.objects.as_slice() {
        push_size(&mut sizes, asked_stack(entry))?;
    }
    Ok(sizes)
}

/// Ranges for entries, and how many bytes they need where the area has fewer.
#[derive(Drop)]
pub struct Placing {
    pub ranges: Vec<Range>,
    pub need: Option<u32>,
}

/// Ranges at no address, of no size.
fn nowhere(alloc: Global, count: usize) -> Result<Vec<Range>, OutOfMemory>
    ensures { IfOk result (λ ranges. length ranges.items ≡ count) }
{
    let mut ranges = Vec::new(alloc);
    for _ in 0..count {
        ranges.push(Range {
            start: Addr(0),
            size: 0,
        })?;
    }
    Ok(ranges)
}

/// The ranges of entries that ask for these sizes, in an area.
fn ranges(alloc: Global, mpu: Mpu, area: u32, sizes: &[u32]) -> Result<Vec<Range>, NoRoom>
    requires start { area % 65536 ≡ 0 }
    requires end { area ≤ 0x7000_0000 }
    requires few { length sizes.now ≤ 128 }
    requires asked { All (λ n. IsTrue (is_within 1 65536 n)) sizes.now }
    ensures placed { IfOk result (λ ranges. ranges.items ≡ placed mpu area (map (rounded mpu) sizes.now)) }
    ensures all { IfOk result (λ ranges. length ranges.items ≡ length sizes.now) }
    ensures full { AREA_SIZE < sum (map (rounded mpu) sizes.now) → result ≡ Err (no_room.Full (sum (map (rounded mpu) sizes.now)) AREA_SIZE) }
    ensures fits { sum (map (rounded mpu) sizes.now) ≤ AREA_SIZE → IfErr result (λ e. e ≡ no_room.Memory) }
{
    let area = Range {
        start: Addr(area),
        size: AREA_SIZE,
    };
    match place(alloc, mpu, area, sizes) {
        Ok(ranges) => Ok(ranges),
        Err(fault) => Err(fault),
    }
}

/// Places entries that ask for these sizes in an area.
fn placed(alloc: Global, mpu: Mpu, area: u32, sizes: &[u32]) -> Result<Placing, OutOfMemory>
    requires start { area % 65536 ≡ 0 }
    requires end { area ≤ 0x7000_0000 }
    requires few { length sizes.now ≤ 128 }
    requires asked { All (λ n. IsTrue (is_within 1 65536 n)) sizes.now }
    ensures all { IfOk result (λ p. length p.ranges.items ≡ length sizes.now) }
    ensures fits { IfOk result (λ p. IfNone p.need ((p.ranges.items ≡ placed mpu area (map (rounded mpu) sizes.now)) × (sum (map (rounded mpu) sizes.now) ≤ AREA_SIZE))) }
    ensures full { IfOk result (λ p. IfSome p.need (λ need. (need ≡ sum (map (rounded mpu) sizes.now)) × (AREA_SIZE < need))) }
{
    match ranges(alloc, mpu, area, sizes) {
        Ok(ranges) => Ok(Placing { ranges, need: None }),
        Err(NoRoom::Full { need, .. }) => Ok(Placing {
            ranges: nowhere(alloc, sizes.len())?,
            need: Some(need),
        }),
        Err(NoRoom::Memory) => Err(OutOfMemory),
    }
}

/// Places the partitions.
pub fn partition_ranges(alloc: Global, d: &Description) -> Result<Placing, OutOfMemory>
    requires { IsInLimits d.now }
    ensures all { IfOk result (λ p. length p.ranges.items ≡ length d.now.partitions) }
    ensures fits { IfOk result (λ p. IfNone p.need ((p.ranges.items ≡ placed d.now.mpu PARTITION_AREA (partition_sizes d.now)) × (sum (partition_sizes d.now) ≤ AREA_SIZE))) }
    ensures full { IfOk result (λ p. IfSome p.need (λ need. (need ≡ sum (partition_sizes d.now)) × (AREA_SIZE < need))) }
{
    let asked = asked_partitions(alloc, d)?;
    placed(alloc, d.mpu, PARTITION_AREA, asked.as_slice())
}

/// Places the thread stacks.
pub fn stack_ranges(alloc: Global, d: &Description) -> Result<Placing, OutOfMemory>
    requires { IsInLimits d.now }
    ensures fits { IfOk result (λ p. IfNone p.need ((p.ranges.items ≡ placed d.now.mpu STACK_AREA (stack_sizes d.now)) × (sum (stack_sizes d.now) ≤ AREA_SIZE))) }
    ensures full { IfOk result (λ p. IfSome p.need (λ need. (need ≡ sum (stack_sizes d.now)) × (AREA_SIZE < need))) }
{
    let asked = asked_stacks(alloc, d)?;
    placed(alloc, d.mpu, STACK_AREA, asked.as_slice())
}
