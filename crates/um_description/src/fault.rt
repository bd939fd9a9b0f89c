//! The fault that is told of a flaw.

ghost use Rattle.std.specs.Prelude.{◌≡◌, IfOk};
ghost use Rattle.um_description.specs.Faults as spec;

use crate::flaw::{Counted, Flaw};
use std::alloc::Global;
use um_base::OutOfMemory;
use um_document::{ImageFault, Spot};

/// What is counted where a limit is passed, as it is written.
fn counted_text(counted: Counted) -> &'static str
    ensures { result.now ≡ spec.counted_text counted }
{
    match counted {
        Counted::Key(key) => key.word(),
        Counted::Threads => "threads",
    }
}

/// The fault of a flaw: its places as text, as `boot[0].thread`.
pub fn fault_of(alloc: Global, flaw: Flaw) -> Result<ImageFault, OutOfMemory>
    ensures { IfOk result (λ fault. fault ≡ spec.fault_of flaw) }
{
    let fault = match flaw {
        Flaw::Duplicate(place) => ImageFault::Duplicate(place.spot(alloc)?),
        Flaw::UnknownName(place) => ImageFault::UnknownName(place.spot(alloc)?),
        Flaw::Limit {
            counted,
            number,
            place,
        } => ImageFault::Limit {
            counted: Spot::of_text(alloc, counted_text(counted))?,
            number,
            spot: place.spot(alloc)?,
        },
        Flaw::Line {
            kind,
            place,
            column,
        } => ImageFault::Line {
            kind,
            spot: place.spot(alloc)?,
            column,
        },
        Flaw::Block(place) => ImageFault::Block(place.spot(alloc)?),
        Flaw::LineName { place, column } => ImageFault::LineName {
            spot: place.spot(alloc)?,
            column,
        },
        Flaw::ScriptOrder(place) => ImageFault::ScriptOrder(place.spot(alloc)?),
        Flaw::Weight => ImageFault::Weight,
        Flaw::Layout { stacks, need, have } => ImageFault::Layout { stacks, need, have },
    };
    Ok(fault)
}
