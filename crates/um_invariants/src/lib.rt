//! The states that runs of the machine reach: what holds of each, and what an event changes of calls, statuses and pairs.
#![tactic(auto)]
