//! The kinds of flaws in their order, and what a description means.

ghost use Rattle.std.specs.Prelude.{◌≡◌, IfOk};
ghost use Rattle.um_document.specs.First.{first_of};
ghost use Rattle.um_description.specs.Flaws as spec;
ghost use Rattle.um_description.specs.Kinds as kinds;
ghost use Rattle.um_description.specs.Packed.{HaveVariables};

use crate::blocks::first_block;
use crate::duplicates::first_duplicate;
use crate::flaw::Flaw;
use crate::limits::first_limit;
use crate::lines::first_unread;
use crate::order::first_misordered;
use crate::read::{ReadScript, read_scripts};
use crate::resolve::image_or_flaw;
use crate::strangers::first_stranger;
use crate::unknown::first_unknown;
use std::alloc::Global;
use um_base::{Image, OutOfMemory};
use um_document::Description;

/// The first flaw of a description's entries: a name given twice, one that names nothing, or a number out of its range.
fn first_in_entries(alloc: Global, d: &Description) -> Result<Option<Flaw>, OutOfMemory>
    ensures { IfOk result (λ found. found ≡ first_of (kinds.entry_flaws d.now)) }
{
    if let Some(place) = first_duplicate(alloc, d)? {
        return Ok(Some(Flaw::Duplicate(place)));
    }
    if let Some(place) = first_unknown(alloc, d)? {
        return Ok(Some(Flaw::UnknownName(place)));
    }
    Ok(first_limit(d))
}

/// The first flaw of the lines of a description's scripts.
fn first_in_lines(
    alloc: Global,
    d: &Description,
    scripts: &[ReadScript<'_>],
) -> Result<Option<Flaw>, OutOfMemory>
    requires { scripts.now ≡ d.now.scripts }
    ensures { IfOk result (λ found. found ≡ first_of (kinds.line_flaws d.now)) }
{
    if let Some(flaw) = first_unread(scripts) {
        return Ok(Some(flaw));
    }
    if let Some(place) = first_block(alloc, scripts)? {
        return Ok(Some(Flaw::Block(place)));
    }
    if let Some(flaw) = first_stranger(alloc, d, scripts)? {
        return Ok(Some(flaw));
    }
    if let Some(place) = first_misordered(d, scripts) {
        return Ok(Some(Flaw::ScriptOrder(place)));
    }
    Ok(None)
}

/// The image that a description gives, or the first of its flaws. Its partitions have their variables packed: apart, in
/// their order, each at a multiple of its alignment, and none could stand lower. Each ends within its partition's range, and has
/// its data at its offset.
pub fn meaning(alloc: Global, d: &Description) -> Result<Result<Image, Flaw>, OutOfMemory>
    ensures value { IfOk result (λ r. r ≡ spec.meaning d.now) }
    ensures packed { IfOk result (λ r. IfOk r (λ image. HaveVariables image.partitions d.now.partitions)) }
{
    if let Some(flaw) = first_in_entries(alloc, d)? {
        return Ok(Err(flaw));
    }
    let scripts = read_scripts(alloc, d.scripts.as_slice())?;
    if let Some(flaw) = first_in_lines(alloc, d, &scripts)? {
        return Ok(Err(flaw));
    }
    image_or_flaw(alloc, d, &scripts)
}
