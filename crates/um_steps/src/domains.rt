//! Memory domains: which partitions one may hold, and what its calls make of it.

ghost use Rattle.std.specs.{
  Prelude.{◌≡◌, ◌<◌, ◌≤◌, ◌+◌, ◌-◌, ◌^◌, ◌||◌, ◌==◌, [], ℕ, not, nat_lt, length, filter, map},
  List.{list_any},
};
ghost use Rattle.um_base.specs.{
  Lawful.{most_parts},
  declared.limits.TheConstants.{PARTITION_AREA, STACK_AREA},
  declared.attr.Attr.{Attr},
  declared.names.Range.{Range},
};
ghost use Rattle.um_machine.specs.Domains.{is_power_of_two, is_guardable, writes_and_executes, overlaps, is_bad, is_same_range, initialised, added, added_all, removed, reply_to, domain_after, part_named};

use crate::regions::attr_allows;
use um_base::{
    Access, Addr, Attr, DOMAIN_PARTITIONS, Errno, Image, Mode, Mpu, PARTITION_AREA, PartRef, Parts,
    Range, Reply, STACK_AREA,
};

/// The powers of two that a size may be.
const POWERS: [u32; 32] = [
    1,
    2,
    4,
    8,
    0x10,
    0x20,
    0x40,
    0x80,
    0x100,
    0x200,
    0x400,
    0x800,
    0x1000,
    0x2000,
    0x4000,
    0x8000,
    0x1_0000,
    0x2_0000,
    0x4_0000,
    0x8_0000,
    0x10_0000,
    0x20_0000,
    0x40_0000,
    0x80_0000,
    0x100_0000,
    0x200_0000,
    0x400_0000,
    0x800_0000,
    0x1000_0000,
    0x2000_0000,
    0x4000_0000,
    0x8000_0000,
];

/// Whether a number is one of these.
fn is_one_of(n: u32, numbers: &[u32]) -> bool
    ensures { result ≡ list_any (λ (number : ℕ). n == number) numbers.now }
{
    numbers.iter().any(|number| n == *number)
}

/// Whether a number is a power of two.
fn is_power_of_two(n: u32) -> bool
    ensures { result ≡ is_power_of_two n }
{
    is_one_of(n, &POWERS)
}

/// Whether a range, whose size isn't 0, is one that the unit can guard.
fn is_guardable(mpu: Mpu, range: Range) -> bool
    requires { 0 < range.size }
    ensures { result ≡ is_guardable mpu range }
{
    match mpu {
        Mpu::V7 => is_power_of_two(range.size)
            && 32 <= range.size
            && range.start.0 % range.size == 0,
        Mpu::V8 => range.start.0 % 32 == 0 && range.size % 32 == 0,
    }
}

/// Whether an attribute lets the same part write and execute.
fn writes_and_executes(attr: Attr, mode: Mode) -> bool
    ensures { result ≡ writes_and_executes attr mode }
{
    attr_allows(attr, mode, Access::Write) && attr_allows(attr, mode, Access::Exec)
}

/// Whether a range has a byte in common with a partition.
fn overlaps(range: Range, part: (Range, Attr)) -> bool
    ensures { result ≡ overlaps range part }
{
    let end = range.start.0 as u64 + range.size as u64;
    let part_end = part.0.start.0 as u64 + part.0.size as u64;
    (range.start.0 as u64) < part_end && (part.0.start.0 as u64) < end
}

/// Whether a range has a byte in common with one of these partitions.
fn overlaps_any(range: Range, parts: &[(Range, Attr)]) -> bool
    ensures { result ≡ list_any (overlaps range) parts.now }
{
    parts.iter().any(|part| overlaps(range, *part))
}

/// Whether a range lies outside of the area of the partitions.
fn is_outside(range: Range) -> bool
    ensures { result ≡ (nat_lt (2 ^ 32)
        (range.start.0 + range.size) || nat_lt range.start.0 PARTITION_AREA || nat_lt STACK_AREA
        (range.start.0 + range.size)) }
{
    let end = range.start.0 as u64 + range.size as u64;
    0x1_0000_0000 < end || range.start.0 < PARTITION_AREA || (STACK_AREA as u64) < end
}

/// Whether a partition can't be added to these.
pub fn is_bad(mpu: Mpu, parts: &[(Range, Attr)], range: Range, attr: Attr) -> bool
    ensures { result ≡ is_bad mpu parts.now (range, attr) }
{
    range.size == 0
        || is_outside(range)
        || !is_guardable(mpu, range)
        || writes_and_executes(attr, Mode::User)
        || writes_and_executes(attr, Mode::Supervisor)
        || overlaps_any(range, parts)
}

/// How many partitions a domain holds at most.
fn most_parts(image: &Image) -> usize
    ensures value { result ≡ most_parts image.now }
    ensures few { result ≤ 16 }
{
    DOMAIN_PARTITIONS.min((image.regions as usize).saturating_sub(3))
}

/// The partition that an instruction names.
pub fn part_named(image: &Image, part: &PartRef) -> (Range, Attr)
    ensures { result ≡ part_named image.now part.now }
{
    let blank = Range {
        start: Addr(0),
        size: 0,
    };
    match part {
        PartRef::Named(_) => (blank, Attr(0)),
        PartRef::At(i) => match image.partitions.as_slice().get(*i as usize) {
            Some(partition) => (partition.range, partition.attr),
            None => (blank, Attr(0)),
        },
        PartRef::Given { range, attr } => (*range, *attr),
    }
}

/// Partitions are added to an empty domain one after another, unless one is bad.
fn added_all(image: &Image, parts: &[PartRef]) -> Result<Parts, Errno>
    requires { length parts.now ≤ 16 }
    ensures { result ≡ added_all image.now.mpu [] (map (part_named image.now) parts.now) }
{
    let mut made = Parts::new();
    for part in parts {
        let (range, attr) = part_named(image, part);
        if is_bad(image.mpu, made.as_slice(), range, attr) {
            return Err(Errno::EINVAL);
        }
        made.push(range, attr);
    }
    Ok(made)
}

/// What an initialisation makes of a domain.
pub fn initialised(image: &Image, before: &Option<Parts>, parts: &[PartRef]) -> Result<Parts, Errno>
    ensures { result ≡ initialised image.now.mpu (most_parts image.now) before.now
        (map (part_named image.now) parts.now) }
{
    match before {
        Some(_) => Err(Errno::EINVAL),
        None => {
            if most_parts(image) < parts.len() {
                return Err(Errno::EINVAL);
            }
            added_all(image, parts)
        }
    }
}

/// What adding a partition makes of a domain.
pub fn added(
    image: &Image,
    before: &Option<Parts>,
    range: Range,
    attr: Attr,
) -> Result<Parts, Errno>
    ensures { result ≡ added image.now.mpu (most_parts image.now) before.now (range, attr) }
{
    match before {
        None => Err(Errno::EINVAL),
        Some(parts) => {
            if is_bad(image.mpu, parts.as_slice(), range, attr) {
                return Err(Errno::EINVAL);
            }
            if parts.len() >= most_parts(image) {
                return Err(Errno::ENOSPC);
            }
            let mut made = *parts;
            made.push(range, attr);
            Ok(made)
        }
    }
}

/// Whether a partition has exactly this range.
fn is_same_range(range: Range, part: (Range, Attr)) -> bool
    ensures { result ≡ is_same_range range part }
{
    part.0.start.0 == range.start.0 && part.0.size == range.size
}

/// Whether one of these partitions has exactly this range.
fn has_range(range: Range, parts: &[(Range, Attr)]) -> bool
    ensures { result ≡ list_any (is_same_range range) parts.now }
{
    parts.iter().any(|part| is_same_range(range, *part))
}

/// The partitions that don't have exactly this range.
fn others(range: Range, parts: &[(Range, Attr)]) -> Parts
    requires { length parts.now ≤ 16 }
    ensures { result ≡ filter (λ (part : Range × Attr). not (is_same_range range part)) parts.now }
{
    let mut left = Parts::new();
    for part in parts {
        if !is_same_range(range, *part) {
            left.push(part.0, part.1);
        }
    }
    left
}

/// What removing a partition makes of a domain.
pub fn removed(before: &Option<Parts>, range: Range) -> Result<Parts, Errno>
    ensures { result ≡ removed before.now range }
{
    match before {
        None => Err(Errno::EINVAL),
        Some(parts) => {
            if has_range(range, parts.as_slice()) {
                Ok(others(range, parts.as_slice()))
            } else {
                Err(Errno::ENOENT)
            }
        }
    }
}

/// The answer of a call.
pub fn reply_to(made: &Result<Parts, Errno>) -> Reply
    ensures { result ≡ reply_to made.now }
{
    match made {
        Ok(_) => Reply::Num(0),
        Err(error) => Reply::Fail(*error),
    }
}

/// The domain after a call: a refusal changes nothing.
pub fn domain_after(before: Option<Parts>, made: Result<Parts, Errno>) -> Option<Parts>
    ensures { result ≡ domain_after before made }
{
    match made {
        Ok(parts) => Some(parts),
        Err(_) => before,
    }
}
