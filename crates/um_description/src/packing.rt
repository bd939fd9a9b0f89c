//! Variables in a partition, each at the least multiple of its alignment that is no less than the end of the one before
//! it.

ghost use Rattle.std.specs.{Prelude.{◌≡◌, ◌≤◌, ◌+◌, IfOk, OnOk}, Int.{next_multiple_of}};
ghost use Rattle.um_base.specs.declared.limits.TheConstants.{AREA_ENTRY};
ghost use Rattle.um_document.specs.Words.{alignment_bytes};
ghost use Rattle.um_description.specs.Numbers.{natural, bounded};
ghost use Rattle.um_description.specs.Packing as spec;

use crate::numbers::clamped;
use std::alloc::Global;
use um_base::OutOfMemory;
use um_document::{Alignment, PartitionContents, PartitionEntry, Text, VariableEntry};

/// Where a variable of this alignment begins behind so many bytes.
pub fn offset_behind(end: u32, align: Alignment) -> u32
    ensures { result ≡ bounded (next_multiple_of end (alignment_bytes align)) }
{
    let offset = (end as u64).next_multiple_of(align.bytes() as u64);
    if offset > 0xffff_ffff {
        0xffff_ffff
    } else {
        offset as u32
    }
}

/// Where a variable ends that begins at an offset.
pub fn end_behind(offset: u32, variable: &VariableEntry) -> u32
    ensures { result ≡ bounded (offset + natural variable.now.size) }
{
    offset.saturating_add(clamped(variable.size))
}

/// The size of a partition of these variables.
pub fn packed_size(variables: &[VariableEntry]) -> u32
    ensures { result ≡ spec.size_of variables.now }
{
    let mut end = 0u32;
    for variable in variables {
        end = end_behind(offset_behind(end, variable.align), variable);
    }
    end
}

/// The size that a partition asks for.
pub fn asked_size(entry: &PartitionEntry) -> u32
    ensures { result ≡ spec.asked_size entry.now }
{
    match &entry.contents {
        PartitionContents::Whole { size, .. } => clamped(*size),
        PartitionContents::Variables(variables) => packed_size(variables.as_slice()),
    }
}

/// The data of a variable at its offset behind bytes, with zeros between.
fn add_data(bytes: &mut Vec<u8>, offset: u32, given: &Option<Text>) -> Result<(), OutOfMemory>
    ensures { OnOk result (bytes.new.items ≡ spec.with_data bytes.old.items offset given.now) }
{
    if let Some(text) = given {
        if bytes.len() < offset as usize {
            bytes.resize(offset as usize, 0)?;
        }
        bytes.extend_from_slice(text.as_slice())?;
    }
    Ok(())
}

/// The bytes of a partition of these variables, up to the end of the last data that is given.
pub fn packed_bytes(alloc: Global, variables: &[VariableEntry]) -> Result<Vec<u8>, OutOfMemory>
    requires { spec.size_of variables.now ≤ AREA_ENTRY }
    ensures { IfOk result (λ bytes. bytes.items ≡ spec.bytes_of variables.now) }
{
    let mut bytes = Vec::new(alloc);
    let mut end = 0u32;
    for variable in variables {
        let offset = offset_behind(end, variable.align);
        add_data(&mut bytes, offset, &variable.data)?;
        end = end_behind(offset, variable);
    }
    Ok(bytes)
}
