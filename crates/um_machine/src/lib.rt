//! The access-matrix machine as definitions, with the types that its state is made of.
#![tactic(auto)]

mod byte_pipe;
mod contents;
mod message_queue;
mod object;
mod pending;
pub mod pieces;
pub mod places;
mod same;
mod served;
mod thread;
mod value_stack;
mod waiters;

pub use byte_pipe::BytePipe;
pub use contents::Contents;
pub use message_queue::MessageQueue;
pub use object::{Cost, Object, Status};
pub use pending::{Amount, Pending, Pendings, Refusal};
pub use served::Served;
pub use thread::{Life, Place, Thread};
pub use value_stack::ValueStack;
pub use waiters::Waiters;
