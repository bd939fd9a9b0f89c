//! Where variables stand, by their names.

ghost use Rattle.std.specs.Prelude.{◌≡◌, ℕ, List, Some, None, if◌then◌else◌, bytes_eq, IfOk, OnOk};
ghost use Rattle.um_description.specs.{
  Names.{variables_of},
  Packing.{offset_named},
  Spots.{or_else, spot_at, spot_of, spot_in},
};

use crate::packing::{end_behind, offset_behind};
use std::alloc::Global;
use std::collections::HashMap;
use um_base::OutOfMemory;
use um_document::{PartitionContents, PartitionEntry, VariableEntry};

/// Where a variable stands: the number of its partition, and its offset there in bytes.
#[derive(Clone, Copy)]
pub struct Spot {
    pub partition: usize,
    pub offset: u32,
}

/// The spot that is kept for a name.
pub fn spot_named(spots: &HashMap<Vec<u8>, Spot>, name: &[u8]) -> Option<Spot>
    ensures { result ≡ spot_in spots.now name.now }
{
    spots.get(name).copied()
}

/// Keeps a spot for a name, unless one is kept for it.
fn add(
    spots: &mut HashMap<Vec<u8>, Spot>,
    alloc: Global,
    name: &[u8],
    spot: Spot,
) -> Result<(), OutOfMemory>
    ensures { OnOk result ((text : List ℕ) → spot_in spots.new text ≡ or_else (spot_in spots.old text) (if bytes_eq text name.now then Some spot else None)) }
{
    if spots.contains_key(name) {
        return Ok(());
    }
    let mut key = Vec::new(alloc);
    key.extend_from_slice(name)?;
    spots.insert(key, spot)?;
    Ok(())
}

/// Keeps the spots of a partition's variables.
fn add_variables(
    spots: &mut HashMap<Vec<u8>, Spot>,
    alloc: Global,
    partition: usize,
    variables: &[VariableEntry],
) -> Result<(), OutOfMemory>
    ensures { OnOk result ((text : List ℕ) → spot_in spots.new text ≡ or_else (spot_in spots.old text) (spot_at partition (offset_named text 0 variables.now))) }
{
    let mut end = 0u32;
    for variable in variables {
        let offset = offset_behind(end, variable.align);
        let spot = Spot { partition, offset };
        add(spots, alloc, variable.name.as_slice(), spot)?;
        end = end_behind(offset, variable);
    }
    Ok(())
}

/// Keeps the spots of what a partition consists of.
fn add_contents(
    spots: &mut HashMap<Vec<u8>, Spot>,
    alloc: Global,
    partition: usize,
    contents: &PartitionContents,
) -> Result<(), OutOfMemory>
    ensures { OnOk result ((text : List ℕ) → spot_in spots.new text ≡ or_else (spot_in spots.old text) (spot_at partition (offset_named text 0 (variables_of contents.now)))) }
{
    match contents {
        PartitionContents::Whole { .. } => Ok(()),
        PartitionContents::Variables(variables) => {
            add_variables(spots, alloc, partition, variables.as_slice())
        }
    }
}

/// The spots of all variables of some partitions, by their names.
pub fn spots_of(
    alloc: Global,
    partitions: &[PartitionEntry],
) -> Result<HashMap<Vec<u8>, Spot>, OutOfMemory>
    ensures { IfOk result (λ spots. (text : List ℕ) → spot_in spots text ≡ spot_of text 0 partitions.now) }
{
    let mut spots = HashMap::new(alloc);
    let mut index = 0usize;
    for partition in partitions {
        add_contents(&mut spots, alloc, index, &partition.contents)?;
        index += 1;
    }
    Ok(spots)
}
