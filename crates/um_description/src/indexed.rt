//! A description whose variables are found by their names.

ghost use Rattle.std.specs.Prelude.{◌≡◌, IfOk};
ghost use Rattle.um_description.specs.{Mentions.{names_variable}, Resolve.{variable_addr}};

use crate::spots::{Spot, spot_named, spots_of};
use std::alloc::Global;
use std::collections::HashMap;
use std::marker::Model;
use um_base::{OutOfMemory, Partition, RODATA};
use um_document::Description;

/// A description, with the spots of its variables. Contracts see the description.
#[derive(Drop)]
pub struct Indexed<'a> {
    description: &'a Description,
    spots: HashMap<Vec<u8>, Spot>,
}

impl<'a> Model for Indexed<'a> {
    ghost use Rattle.std.specs.Prelude.{◌≡◌, List, ℕ};
    ghost use Rattle.um_document.specs.declared.description.Description.{Description};
    ghost use Rattle.um_description.specs.Spots.{spot_of, spot_in};

    ghost Value = { Description };

    ghost view = { λ d. d.description.now };

    ghost invariant = { λ d. (text : List ℕ) → spot_in d.spots text ≡ spot_of text 0 d.description.now.partitions };
}

impl<'a> Indexed<'a> {
    /// A description, once its variables are found.
    pub fn new(alloc: Global, description: &'a Description) -> Result<Indexed<'a>, OutOfMemory>
        ensures { IfOk result (λ d. d ≡ description.now) }
    {
        let spots = spots_of(alloc, description.partitions.as_slice())?;
        Ok(Indexed { description, spots })
    }

    /// The description.
    pub fn description(&self) -> &'a Description
        ensures { result.now ≡ self.now }
    {
        self.description
    }

    /// Whether a partition lists a variable of this name.
    pub fn is_variable(&self, name: &[u8]) -> bool
        ensures { result ≡ names_variable self.now.partitions name.now }
    {
        spot_named(&self.spots, name).is_some()
    }

    /// The address of the variable with this name, in the partition that lists it, or of the read-only data.
    pub fn variable_addr(&self, partitions: &[Partition], name: &[u8]) -> u32
        ensures { result ≡ variable_addr name.now partitions.now self.now.partitions }
    {
        match spot_named(&self.spots, name) {
            None => RODATA,
            Some(spot) => match partitions.get(spot.partition) {
                None => RODATA,
                Some(partition) => partition.range.start.0.wrapping_add(spot.offset),
            },
        }
    }
}
