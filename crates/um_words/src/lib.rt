//! The words that processors share: what each says of a row, a thread, a domain or a cell, and which steps change it.
#![tactic(auto)]

mod cell_word;
mod content;
mod dom_word;
mod domain_act;
mod events;
mod fine;
mod kind;
mod local;
mod made;
mod next_word;
mod permissions;
mod row_act;
mod row_steps;
mod row_word;
mod thread_act;
mod thread_word;

pub use cell_word::CellWord;
pub use content::Content;
pub use dom_word::DomWord;
pub use domain_act::DomainAct;
pub use events::{checked, shown};
pub use fine::{FineAct, Mark, More, Unseen};
pub use kind::{CellKind, SITES, WordKind, step_number};
pub use local::{AnyStep, Local};
pub use made::{Made, Moved};
pub use permissions::Permissions;
pub use row_act::{RowAct, RowSaid};
pub use row_word::{RowWord, Stage};
pub use thread_act::ThreadAct;
pub use thread_word::ThreadWord;

#[cfg(test)]
mod tests;
