//! Ranges in their places.

ghost use Rattle.std.specs.Prelude.{◌≡◌, ◌+◌, ◌%◌, ◌<◌, ◌≤◌, ◌^◌, IsTrue, All, length, map, sum, IfOk, IfErr, Err};
ghost use Rattle.um_base.specs.{Layout.{rounded, starts}, Lawful.{is_within, sizes_of, places_of}};
ghost use Rattle.um_layout.specs.{
  Sizes.{needed},
  Standing.{IsLawfulRange, IsInArea, AreDisjoint, AreLeast, StandInOrder, IsLayout},
  Entries.{AreDistinct, AreStanding, bytes_of},
};

use crate::entries::{Entry, entries_of, put_in_order, total};
use std::alloc::Global;
use um_base::{Addr, Mpu, OutOfMemory, Range};

/// Why there is no layout: the ranges need more bytes than the area has, or memory ran out.
#[derive(Clone, Copy, Debug, PartialEq, Eq)]
pub enum NoRoom {
    Full { need: u32, have: u32 },
    Memory,
}

/// A range for each size, in the order of the sizes. From the area's start on they stand one after another without a
/// gap: by descending rounded size under PMSAv7, equal ones as they were given, and in the order given under PMSAv8.
pub fn place(alloc: Global, mpu: Mpu, area: Range, sizes: &[u32]) -> Result<Vec<Range>, NoRoom>
    requires few { length sizes.now ≤ 128 }
    requires asked { All (λ n. IsTrue (is_within 1 65536 n)) sizes.now }
    requires area_start { area.start.0 % 65536 ≡ 0 }
    requires area_end { area.start.0 + area.size ≤ 2 ^ 32 }
    ensures sizes { IfOk result (λ ranges. sizes_of ranges.items ≡ map (rounded mpu) sizes.now) }
    ensures places { IfOk result (λ ranges. places_of ranges.items ≡ starts mpu area.start.0 (sizes_of ranges.items)) }
    ensures room { IfOk result (λ ranges. sum (sizes_of ranges.items) ≤ area.size) }
    ensures lawful { IfOk result (λ ranges. All (IsLawfulRange mpu) ranges.items) }
    ensures least { IfOk result (λ ranges. AreLeast mpu sizes.now ranges.items) }
    ensures within { IfOk result (λ ranges. All (IsInArea area) ranges.items) }
    ensures disjoint { IfOk result (λ ranges. AreDisjoint ranges.items) }
    ensures in_order { IfOk result (λ ranges. StandInOrder mpu area.start.0 ranges.items) }
    ensures full { area.size < needed mpu sizes.now → result ≡ Err (NoRoom.Full (needed mpu sizes.now) area.size) }
    ensures fits { needed mpu sizes.now ≤ area.size → IfErr result (λ e. e ≡ NoRoom.Memory) }
{
    let need = total(mpu, sizes);
    if need > area.size {
        return Err(NoRoom::Full {
            need,
            have: area.size,
        });
    }
    match laid_out(alloc, mpu, area, sizes) {
        Ok(ranges) => Ok(ranges),
        Err(OutOfMemory) => Err(NoRoom::Memory),
    }
}

/// The layout of sizes for which there is room.
fn laid_out(alloc: Global, mpu: Mpu, area: Range, sizes: &[u32]) -> Result<Vec<Range>, OutOfMemory>
    requires asked { All (λ n. IsTrue (is_within 1 65536 n)) sizes.now }
    requires area_start { area.start.0 % 65536 ≡ 0 }
    requires area_end { area.start.0 + area.size ≤ 2 ^ 32 }
    requires room { needed mpu sizes.now ≤ area.size }
    ensures { IfOk result (λ ranges. IsLayout mpu area sizes.now ranges.items) }
{
    let mut entries = entries_of(alloc, mpu, sizes)?;
    put_in_order(mpu, &mut entries);
    stand(alloc, area.start, &entries)
}

/// The ranges of entries that stand one after another from an address on, each at the number of its entry.
fn stand(alloc: Global, start: Addr, entries: &[Entry]) -> Result<Vec<Range>, OutOfMemory>
    requires numbers { All (λ e. e.number < length entries.now) entries.now }
    requires distinct { AreDistinct entries.now }
    requires sizes { All (λ e. 1 ≤ e.size) entries.now }
    requires bytes { bytes_of entries.now < 2 ^ 32 }
    requires fits { start.0 + bytes_of entries.now ≤ 2 ^ 32 }
    ensures { IfOk result (λ ranges. AreStanding start.0 entries.now ranges.items) }
{
    let nowhere = Range { start, size: 0 };
    let mut ranges = vec![in alloc; nowhere; entries.len()]?;
    let mut offset = 0u32;
    for entry in entries {
        ranges[entry.number] = Range {
            start: Addr(start.0 + offset),
            size: entry.size,
        };
        offset += entry.size;
    }
    Ok(ranges)
}
