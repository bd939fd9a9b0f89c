//! The form of a description: a TOML document gives the entries that it lists, with a value of its own type at each
//! key, or the first fault of its form.
#![tactic(auto)]

mod check;
mod description;
mod entries;
mod fault;
mod form;
mod forms;
mod place;
mod read;
mod sequence;
mod shape;
mod spot;
mod tables;
mod texts;
mod told;
mod unknown;
mod words;

pub use description::{
    Alignment, BootEntry, Description, Details, DomainEntry, FutexEntry, MsgqNumbers, ObjectEntry,
    PartitionContents, PartitionEntry, PoolEntry, ScriptEntry, SemNumbers, VariableEntry,
};
pub use fault::ImageFault;
pub use place::Place;
pub use read::read_document;
pub use sequence::{Sequence, Text};
pub use shape::{Key, Section};
pub use spot::Spot;
pub use told::fault_text;
