//! What the region table of a processor allows.

ghost use Rattle.std.specs.{Prelude.{◌≡◌, ◌+◌, ◌≤◌, ◌&&◌, nat_le}, List.{list_any}};
ghost use Rattle.um_base.specs.{
  declared.attr.Attr.{Attr},
  declared.names.Range.{Range},
  Regions.{partition_region, region_allows},
};
ghost use Rattle.um_fine.specs.{Asks.{allows, readable}, Processor.{mode_of}};
ghost use Rattle.um_processor.specs.declared.phase.Phase.TheVariants as Phase;
ghost use Rattle.um_processor.specs.Processors.{in_phase};

use crate::running::Running;
use um_base::{Access, Attr, Image, Mode, Range, Row};
use um_steps::regions::{attr_allows, rodata_allows, stack_regions_allow};

/// The mode in which a table was loaded.
fn mode_of(user: bool) -> Mode
    ensures { result ≡ mode_of user }
{
    if user { Mode::User } else { Mode::Supervisor }
}

/// Whether a range contains n bytes from an address on.
fn covers(range: Range, a: u32, n: u32) -> bool
    ensures { result ≡ (nat_le range.start.0 a && nat_le (a + n) (range.start.0 + range.size)) }
{
    range.start.0 <= a && a as u64 + n as u64 <= range.start.0 as u64 + range.size as u64
}

/// Whether one of these partitions allows the access.
fn parts_allow(parts: &[(Range, Attr)], mode: Mode, access: Access, a: u32, n: u32) -> bool
    ensures { result ≡ list_any
        (λ (part : Range × Attr). region_allows access a n (partition_region mode part)) parts.now }
{
    parts.iter().any(|part| attr_allows(part.1, mode, access) && covers(part.0, a, n))
}

impl Running {
    /// Whether the table allows this access to n bytes from an address on.
    #[tactic(auto, using(um_steps::proofs::RegionLemmas::regions_allow))]
    pub fn allows(&self, image: &Image, access: Access, a: u32, n: u32) -> bool
        ensures { result ≡ allows image.now (in_phase Phase.Park self.now) access a n }
    {
        if n == 0 {
            return true;
        }
        if !self.loaded || a as u64 + n as u64 > 0x1_0000_0000 {
            return false;
        }
        let key = &self.table.key;
        let mode = mode_of(key.user);
        let stacks = stack_regions_allow(image, mode, Row(key.stack), access, a, n);
        let parts = parts_allow(self.table.parts.as_slice(), mode, access, a, n);
        let rodata = rodata_allows(image.rodata, access, a, n);
        stacks || parts || rodata
    }

    /// How many of n bytes from an address on may be read one by one.
    pub fn readable(&self, image: &Image, a: u32, n: u32) -> u32
        ensures value { result ≡ readable image.now (in_phase Phase.Park self.now) a n }
        ensures few { result ≤ n }
    {
        if n == 0 || !self.allows(image, Access::Read, a, 1) {
            return 0;
        }
        match a.checked_add(1) {
            None => 1,
            Some(next) => self.readable(image, next, n - 1) + 1,
        }
    }
}
