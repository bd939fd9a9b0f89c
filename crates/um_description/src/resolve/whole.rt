//! The image of a description, or the flaw of its weight or its areas.

ghost use Rattle.std.specs.Prelude.{◌≡◌, IfOk, nat_lt, length};
ghost use Rattle.um_base.specs.{Weight.{weight}, declared.limits.TheConstants.{MOST_WEIGHT}};
ghost use Rattle.um_description.specs.{
  Flaws.{image_flaws, meaning_by},
  InLimits.{IsInLimits},
  Resolve.{image_in},
  Told.{told},
};

use crate::flaw::Flaw;
use crate::read::ReadScript;
use crate::resolve::base::without_scripts;
use crate::resolve::ranges::{Placing, partition_ranges, stack_ranges};
use crate::resolve::scripts::scripts;
use crate::weighing::weight;
use std::alloc::Global;
use um_base::{AREA_SIZE, Image, MOST_WEIGHT, OutOfMemory};
use um_document::Description;

/// The image with its partitions and its thread stacks in these ranges.
fn image_in(
    alloc: Global,
    d: &Description,
    partitions: &Placing,
    stacks: &Placing,
    read: &[ReadScript<'_>],
) -> Result<Image, OutOfMemory>
    requires read { read.now ≡ d.now.scripts }
    requires limits { IsInLimits d.now }
    requires ranges { length partitions.now.ranges.items ≡ length d.now.partitions }
    ensures { IfOk result (λ image. image ≡ image_in d.now partitions.now.ranges.items stacks.now.ranges.items) }
{
    let mut image = without_scripts(
        alloc,
        d,
        partitions.ranges.as_slice(),
        stacks.ranges.as_slice(),
    )?;
    image.scripts = scripts(alloc, &image, d, read)?;
    Ok(image)
}

/// Whether an image is heavier than any may be.
fn is_too_heavy(image: &Image) -> bool
    ensures { result ≡ nat_lt MOST_WEIGHT (weight image.now) }
{
    weight(image) > MOST_WEIGHT as u64
}

/// What is told of an image, by its weight and by the bytes that its areas have too few of.
fn told(
    image: Image,
    heavy: bool,
    partitions: Option<u32>,
    stacks: Option<u32>,
) -> Result<Image, Flaw>
    ensures { result ≡ told heavy partitions stacks image }
{
    if heavy {
        return Err(Flaw::Weight);
    }
    match (partitions, stacks) {
        (Some(need), _) => Err(Flaw::Layout {
            stacks: false,
            need,
            have: AREA_SIZE,
        }),
        (None, Some(need)) => Err(Flaw::Layout {
            stacks: true,
            need,
            have: AREA_SIZE,
        }),
        (None, None) => Ok(image),
    }
}

/// The image of a description in its limits, or the first flaw of its weight and its areas.
pub fn image_or_flaw(
    alloc: Global,
    d: &Description,
    read: &[ReadScript<'_>],
) -> Result<Result<Image, Flaw>, OutOfMemory>
    requires read { read.now ≡ d.now.scripts }
    requires limits { IsInLimits d.now }
    ensures { IfOk result (λ r. r ≡ meaning_by d.now (image_flaws d.now)) }
{
    let partitions = partition_ranges(alloc, d)?;
    let stacks = stack_ranges(alloc, d)?;
    let image = image_in(alloc, d, &partitions, &stacks, read)?;
    let heavy = is_too_heavy(&image);
    Ok(told(image, heavy, partitions.need, stacks.need))
}
