//! Regions of memory, and what they allow.

ghost use Rattle.std.specs.{
  Prelude.{◌≡◌, ◌+◌, ◌<◌, ◌≤◌, ◌^◌, ◌&&◌, nat_le, map, slice_index_or, None},
  List.{list_any},
};
ghost use Rattle.um_base.specs.{
  declared.image.ObjectDef.{ObjectDef},
  declared.names.Range.{Range},
  declared.attr.Attr.{Attr},
  Places.{setup_at},
  Regions.{region_allows, read_write, read_only, range_region, right_bit, attr_allows, stack_range, partition_region, stack_regions},
};
ghost use Rattle.um_machine.specs.Memory.{parts_or_none};

use um_base::{Access, Attr, Image, Mode, ObjectDef, Parts, Range, Row, Setup};

/// Whether a range contains n bytes from an address on.
fn covers(range: Range, a: u32, n: u32) -> bool
    ensures { result ≡ (nat_le range.start.0 a && nat_le (a + n) (range.start.0 + range.size)) }
{
    range.start.0 <= a && a as u64 + n as u64 <= range.start.0 as u64 + range.size as u64
}

/// What a thread may do with a stack.
fn read_write(access: Access) -> bool
    ensures { result ≡ read_write access }
{
    match access {
        Access::Read => true,
        Access::Write => true,
        Access::Exec => false,
    }
}

/// What a thread may do with read-only data.
fn read_only(access: Access) -> bool
    ensures { result ≡ read_only access }
{
    match access {
        Access::Read => true,
        Access::Write => false,
        Access::Exec => false,
    }
}

/// The bit of a right in an attribute.
fn right_bit(mode: Mode, access: Access) -> u8
    ensures value { result ≡ right_bit mode access }
    ensures positive { 0 < result }
{
    match (mode, access) {
        (Mode::Supervisor, Access::Read) => 1,
        (Mode::Supervisor, Access::Write) => 2,
        (Mode::Supervisor, Access::Exec) => 4,
        (Mode::User, Access::Read) => 8,
        (Mode::User, Access::Write) => 16,
        (Mode::User, Access::Exec) => 32,
    }
}

/// Whether an attribute gives a right.
pub fn attr_allows(attr: Attr, mode: Mode, access: Access) -> bool
    ensures { result ≡ attr_allows attr mode access }
{
    attr.0 / right_bit(mode, access) % 2 == 1
}

/// Whether a stack, if there is one, allows it.
fn stack_allows(setup: Setup, access: Access, a: u32, n: u32) -> bool
    ensures { result ≡ list_any (region_allows access a n) (range_region read_write (stack_range setup)) }
{
    match setup {
        Setup::ThreadStack { range, .. } => read_write(access) && covers(range, a, n),
        _ => false,
    }
}

/// Whether the read-only data, if there is some, allows it.
pub fn rodata_allows(rodata: Option<Range>, access: Access, a: u32, n: u32) -> bool
    ensures { result ≡ list_any (region_allows access a n) (range_region read_only rodata) }
{
    match rodata {
        Some(range) => read_only(access) && covers(range, a, n),
        None => false,
    }
}

/// Whether one of all stacks allows it.
fn stacks_allow(image: &Image, access: Access, a: u32, n: u32) -> bool
    ensures { result ≡ list_any
        (λ (o : ObjectDef). list_any (region_allows access a n)
        (range_region read_write (stack_range o.setup))) image.now.objects }
{
    image
        .objects
        .as_slice()
        .iter()
        .any(|o| stack_allows(o.setup, access, a, n))
}

/// Whether one of these partitions allows it.
fn parts_allow(parts: &[(Range, Attr)], mode: Mode, access: Access, a: u32, n: u32) -> bool
    ensures { result ≡ list_any
        (λ (part : Range × Attr). region_allows access a n (partition_region mode part)) parts.now }
{
    parts.iter().any(|part| attr_allows(part.1, mode, access) && covers(part.0, a, n))
}

/// Whether the stack of a row allows it.
fn setup_allows(image: &Image, stack: Row, access: Access, a: u32, n: u32) -> bool
    ensures { result ≡ list_any (region_allows access a n)
        (range_region read_write (stack_range (setup_at image.now stack.0))) }
{
    match image.objects.as_slice().get(stack.0 as usize) {
        Some(o) => stack_allows(o.setup, access, a, n),
        None => false,
    }
}

/// Whether a partition of a domain allows it.
pub fn domain_allows(
    domains: &[Option<Parts>],
    domain: u8,
    mode: Mode,
    access: Access,
    a: u32,
    n: u32,
) -> bool
    ensures { result ≡ list_any
        (λ (part : Range × Attr). region_allows access a n (partition_region mode part))
        (parts_or_none (slice_index_or domains.now domain None)) }
{
    match domains.get(domain as usize) {
        Some(Some(parts)) => parts_allow(parts.as_slice(), mode, access, a, n),
        _ => false,
    }
}

/// Whether one of the stacks that a thread reaches allows it.
#[tactic(auto, using(crate::proofs::RegionLemmas::regions_allow))]
pub fn stack_regions_allow(
    image: &Image,
    mode: Mode,
    stack: Row,
    access: Access,
    a: u32,
    n: u32,
) -> bool
    ensures { result ≡ list_any (region_allows access a n) (stack_regions image.now mode stack.0) }
{
    match mode {
        Mode::User => setup_allows(image, stack, access, a, n),
        Mode::Supervisor => stacks_allow(image, access, a, n),
    }
}
