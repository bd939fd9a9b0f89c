//! Worked layouts.

use crate::{NoRoom, place, rounded};
use std::test::Fail;
use um_base::{Addr, Mpu, Range};

macro_rules! range {
    ($start:expr, $size:expr) => {
        Range {
            start: Addr($start),
            size: $size,
        }
    };
}

const AREA: Range = range!(0x2000_0000, 0x8_0000);

const EMPTY: Range = range!(0, 0);

const LAST: Range = range!(0xffff_0000, 65_536);

const ONE_LESS: Range = range!(0xffff_0000, 65_535);

/// Whether ranges start at these addresses, and have these sizes.
fn are(ranges: &[Range], starts: &[u32], sizes: &[u32]) -> bool {
    ranges.len() == starts.len()
        && starts.len() == sizes.len()
        && ranges
            .iter()
            .zip(starts.iter().zip(sizes))
            .all(|(one, (start, size))| *one == range!(*start, *size))
}

#[test]
fn rounds_up_to_what_the_unit_guards(rt: HostRuntime) {
    assert_eq!(rt; rounded(Mpu::V7, 1), 32);
    assert_eq!(rt; rounded(Mpu::V7, 32), 32);
    assert_eq!(rt; rounded(Mpu::V7, 33), 64);
    assert_eq!(rt; rounded(Mpu::V7, 97), 128);
    assert_eq!(rt; rounded(Mpu::V7, 161), 256);
    assert_eq!(rt; rounded(Mpu::V7, 65_536), 65_536);
    assert_eq!(rt; rounded(Mpu::V8, 33), 64);
    assert_eq!(rt; rounded(Mpu::V8, 97), 128);
    assert_eq!(rt; rounded(Mpu::V8, 161), 192);
    assert_eq!(rt; rounded(Mpu::V8, 65_536), 65_536);
}

#[test]
fn places_larger_ones_first_or_in_the_order_given(rt: HostRuntime) -> Result<(), Fail> {
    let sizes = [33, 100, 4096, 1];
    let rounded = [64, 128, 4096, 32];
    let ranges = place(rt.alloc(), Mpu::V7, AREA, &sizes)?;
    let starts = [0x2000_1080, 0x2000_1000, 0x2000_0000, 0x2000_10c0];
    assert!(rt; are(&ranges, &starts, &rounded));
    let ranges = place(rt.alloc(), Mpu::V8, AREA, &sizes)?;
    let starts = [0x2000_0000, 0x2000_0040, 0x2000_00c0, 0x2000_10c0];
    assert!(rt; are(&ranges, &starts, &rounded));
    Ok(())
}

#[test]
fn places_nothing(rt: HostRuntime) -> Result<(), Fail> {
    assert!(rt; place(rt.alloc(), Mpu::V7, AREA, &[])?.is_empty());
    assert!(rt; place(rt.alloc(), Mpu::V8, EMPTY, &[])?.is_empty());
    Ok(())
}

#[test]
fn refuses_nine_of_the_greatest_size(rt: HostRuntime) {
    let full = NoRoom::Full {
        need: 589_824,
        have: 524_288,
    };
    let sizes = [65_536; 9];
    assert!(rt; matches!(place(rt.alloc(), Mpu::V7, AREA, &sizes), Err(e) if e == full));
    assert!(rt; matches!(place(rt.alloc(), Mpu::V8, AREA, &sizes), Err(e) if e == full));
}

#[test]
fn fills_an_area_to_its_end(rt: HostRuntime) -> Result<(), Fail> {
    let ranges = place(rt.alloc(), Mpu::V7, LAST, &[32_768, 32_767])?;
    assert!(rt; are(&ranges, &[0xffff_0000, 0xffff_8000], &[32_768, 32_768]));
    let full = NoRoom::Full {
        need: 65_536,
        have: 65_535,
    };
    assert!(rt;
        matches!(place(rt.alloc(), Mpu::V7, ONE_LESS, &[32_768, 32_767]), Err(e) if e == full)
    );
    Ok(())
}

#[test]
fn places_128_at_once(rt: HostRuntime) -> Result<(), Fail> {
    let sizes = [4096; 128];
    let ranges = place(rt.alloc(), Mpu::V7, AREA, &sizes)?;
    assert!(rt; ranges.len() == 128);
    assert!(rt; ranges[0] == range!(0x2000_0000, 4096));
    assert!(rt; ranges[127] == range!(0x2007_f000, 4096));
    Ok(())
}
