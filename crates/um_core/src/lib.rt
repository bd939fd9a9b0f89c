//! The processors of the fine machine together, on one thread: which step each makes, and which processor is next.
#![tactic(auto)]

mod laws;
mod order;
mod processors;
mod running;

pub use laws::{every_moment, every_order, one_whole};
pub use order::Order;
pub use processors::Core;
pub use running::run;
