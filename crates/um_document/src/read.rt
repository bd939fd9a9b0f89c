//! Reading a description.

ghost use Rattle.std.specs.Prelude.{◌≡◌, [], IfOk, IfErr};
ghost use Rattle.toml.specs.{Data.{Members}, View.{table_view}};
ghost use Rattle.um_document.specs.Faults as faults;
ghost use Rattle.um_document.specs.Reading as reading;

use crate::description::Description;
use crate::entries::entries_at;
use crate::fault::ImageFault;
use crate::form::check_form;
use crate::shape::{Key, Section};
use crate::texts::{bytes_at, number_at, text_given};
use std::alloc::Global;
use toml::Table;
use um_base::{Mpu, OutOfMemory, Policy};
use um_vocabulary::{mpu_named, policy_named};

/// What a document describes.
fn description(alloc: Global, table: &Table) -> Result<Description, OutOfMemory>
    ensures { IfOk result (λ d. d ≡ reading.description_of (table_view table.now)) }
{
    Ok(Description {
        mpu: text_given(table, Key::Mpu)
            .and_then(|word| mpu_named(word))
            .unwrap_or(Mpu::V7),
        regions: number_at(table, Key::Regions),
        policy: text_given(table, Key::Oops)
            .and_then(|word| policy_named(word))
            .unwrap_or(Policy::Abort),
        rodata: bytes_at(alloc, table, Key::Rodata)?,
        pools: entries_at(alloc, table, Section::Pool)?,
        partitions: entries_at(alloc, table, Section::Partition)?,
        domains: entries_at(alloc, table, Section::Domain)?,
        objects: entries_at(alloc, table, Section::Object)?,
        boots: entries_at(alloc, table, Section::Boot)?,
        scripts: entries_at(alloc, table, Section::Script)?,
        futexes: entries_at(alloc, table, Section::Futex)?,
    })
}

/// What a document of this table describes, or the first fault of its form.
fn read_table(alloc: Global, table: &Table) -> Result<Description, ImageFault>
    ensures { faults.Describes result (table_view table.now) }
{
    check_form(alloc, table)?;
    Ok(description(alloc, table)?)
}

/// Reads a document: UTF-8 text of TOML, of any length.
///
/// # Errors
///
/// The first fault of its form: of the kinds `NotToml`, `Version`, `MissingKey`, `WrongType`, `UnknownKey` and
/// `BadName` in this order, and within a kind by its place. `Memory` where memory ran out.
pub fn read_document(alloc: Global, text: &[u8]) -> Result<Description, ImageFault>
    ensures { faults.ReadsDocument result text.now }
{
    match toml::table_from_slice(alloc, text) {
        Ok(table) => read_table(alloc, &table),
        Err(e) if e.is_memory() => Err(ImageFault::Memory),
        Err(_) => Err(ImageFault::NotToml),
    }
}
