//! Where something stands in a description.

ghost use Rattle.std.specs.Prelude.{◌≡◌, IfOk};
ghost use Rattle.um_document.specs.Places.{place_text, key_text, variable_text};

use crate::shape::{Key, Section};
use crate::spot::Spot;
use std::alloc::Global;
use std::fmt::Write;
use um_base::OutOfMemory;

/// A key at the top, an entry, a key of an entry, an item of the list at such a key, or a key of a partition's variable.
#[derive(Clone, Copy, PartialEq, Eq)]
pub enum Place {
    Top(Key),
    Entry(Section, usize),
    Field(Section, usize, Key),
    Item(Section, usize, Key, usize),
    Variable(usize, usize, Key),
}

impl Place {
    /// The place as it is written.
    pub fn spot(self, alloc: Global) -> Result<Spot, OutOfMemory>
        ensures { IfOk result (λ spot. spot ≡ place_text self) }
    {
        let mut text = String::new(alloc);
        let written = match self {
            Place::Top(key) => write!(text, "{}", key.word()),
            Place::Entry(section, i) => write!(text, "{}[{}]", section.key().word(), i),
            Place::Field(section, i, key) => {
                write!(text, "{}[{}].{}", section.key().word(), i, key.word())
            }
            Place::Item(section, i, key, j) => write!(
                text,
                "{}[{}].{}[{}]",
                section.key().word(),
                i,
                key.word(),
                j
            ),
            Place::Variable(i, j, key) => write!(
                text,
                "{}[{}].{}[{}].{}",
                Key::Partition.word(),
                i,
                Key::Vars.word(),
                j,
                key.word()
            ),
        };
        match written {
            Ok(()) => Ok(Spot::new(text)),
            Err(_) => Err(OutOfMemory),
        }
    }
}

/// A key of an entry, as its place is written.
pub fn key_spot(alloc: Global, section: Section, i: usize, key: &str) -> Result<Spot, OutOfMemory>
    ensures { IfOk result (λ spot. spot ≡ key_text section i key.now) }
{
    let mut text = String::new(alloc);
    match write!(text, "{}[{}].{}", section.key().word(), i, key) {
        Ok(()) => Ok(Spot::new(text)),
        Err(_) => Err(OutOfMemory),
    }
}

/// A key of a variable, as its place is written.
pub fn variable_spot(alloc: Global, i: usize, j: usize, key: &str) -> Result<Spot, OutOfMemory>
    ensures { IfOk result (λ spot. spot ≡ variable_text i j key.now) }
{
    let mut text = String::new(alloc);
    match write!(
        text,
        "{}[{}].{}[{}].{}",
        Key::Partition.word(),
        i,
        Key::Vars.word(),
        j,
        key
    ) {
        Ok(()) => Ok(Spot::new(text)),
        Err(_) => Err(OutOfMemory),
    }
}
