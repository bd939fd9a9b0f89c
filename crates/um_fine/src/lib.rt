//! The fine machine: processors each of whose steps reads and changes one place that they share. Definitions only: sites and cells, the
//! scheduler, processors, where their steps stand, fine runs, and the events that they show.
#![tactic(auto)]

mod table;

pub use table::{Table, TableKey};
