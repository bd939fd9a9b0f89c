//! What words name: places in memory.

ghost use Rattle.std.specs.Prelude.{◌≡◌};
ghost use Rattle.um_base.specs.Places.{addr_of, setup_at};
ghost use Rattle.um_question.specs.Names as names;

use crate::names::row_named;
use crate::numbers::range_spelled;
use um_base::{Addr, Image, OBJECT_STEP, Range, Setup};
use um_steps::rows::{addr_of, setup_at};

/// The range of the partition with this name.
fn partition_named(image: &Image, word: &[u8]) -> Option<Range>
    ensures { result ≡ names.partition_named image.now word.now }
{
    let partitions = image.partitions.as_slice();
    match partitions.iter().find(|p| word == p.name.as_slice()) {
        Some(p) => Some(p.range),
        None => None,
    }
}

/// Where the object of a row stands.
fn object_range(image: &Image, row: u8) -> Range
    ensures { result ≡ names.object_range (addr_of image.now row) (setup_at image.now row) }
{
    match setup_at(image, row as usize) {
        Setup::ThreadStack { range, .. } => range,
        _ => Range {
            start: Addr(addr_of(image, row as usize)),
            size: OBJECT_STEP,
        },
    }
}

/// Where the object stands that a word names.
fn object_place(image: &Image, word: &[u8]) -> Option<Range>
    ensures { result ≡ names.object_place image.now word.now }
{
    match row_named(image, word) {
        Some(row) => Some(object_range(image, row)),
        None => None,
    }
}

/// The range of the place that a word names.
pub fn place_named(image: &Image, word: &[u8]) -> Option<Range>
    ensures { result ≡ names.place_named image.now word.now }
{
    match partition_named(image, word) {
        Some(range) => Some(range),
        None => match object_place(image, word) {
            Some(range) => Some(range),
            None => range_spelled(word),
        },
    }
}
