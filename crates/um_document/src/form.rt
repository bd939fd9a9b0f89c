//! The form of a document: its faults in the order of their kinds.

ghost use Rattle.std.specs.Prelude.{◌≡◌, map};
ghost use Rattle.toml.specs.View.{table_view};
ghost use Rattle.um_document.specs.Broken.{broken};
ghost use Rattle.um_document.specs.Faults as faults;

use crate::check::{Check, broken};
use crate::fault::ImageFault;
use crate::spot::Spot;
use crate::tables::has_version;
use crate::unknown::first_unknown;
use std::alloc::Global;
use toml::Table;

/// Whether `version` is the integer 1 or 2.
fn is_known_version(table: &Table) -> bool
    ensures { result ≡ faults.is_known_version (table_view table.now) }
{
    has_version(table, 1) || has_version(table, 2)
}

#[tactic(auto, unfolding(crate::specs::Faults::version_faults))]
fn check_version(table: &Table) -> Result<(), ImageFault>
    ensures { faults.Passes result (faults.version_faults (table_view table.now)) }
{
    if is_known_version(table) {
        Ok(())
    } else {
        Err(ImageFault::Version)
    }
}

/// The fault of what a check finds.
fn fault(check: Check, spot: Spot) -> ImageFault
    ensures { result ≡ faults.fault_of check spot }
{
    match check {
        Check::Missing => ImageFault::MissingKey(spot),
        Check::WrongType => ImageFault::WrongType(spot),
        Check::BadName => ImageFault::BadName(spot),
    }
}

fn check_parts(alloc: Global, check: Check, table: &Table) -> Result<(), ImageFault>
    ensures { faults.Passes result (faults.broken_parts check (table_view table.now)) }
{
    match broken(check, table) {
        Some(place) => Err(fault(check, place.spot(alloc)?)),
        None => Ok(()),
    }
}

fn check_keys(alloc: Global, table: &Table) -> Result<(), ImageFault>
    ensures { faults.Passes result (faults.unknown_key_faults (table_view table.now)) }
{
    match first_unknown(alloc, table)? {
        Some(spot) => Err(ImageFault::UnknownKey(spot)),
        None => Ok(()),
    }
}

/// Whether a document has the form of a description, or its first fault.
pub fn check_form(alloc: Global, table: &Table) -> Result<(), ImageFault>
    ensures { faults.Passes result (faults.form_faults (table_view table.now)) }
{
    check_version(table)?;
    check_parts(alloc, Check::Missing, table)?;
    check_parts(alloc, Check::WrongType, table)?;
    check_keys(alloc, table)?;
    check_parts(alloc, Check::BadName, table)
}
