//! Worked runs of the access-matrix machine, evaluated by its definitions.
#![tactic(auto)]
