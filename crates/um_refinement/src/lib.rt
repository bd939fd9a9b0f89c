//! The fine machine and the access-matrix machine: the relation between the processors and sites of the one and the state of the other,
//! and the law that every fine run is a run of the machine.
#![tactic(auto)]

mod laws;

pub use laws::every_fine_run;
