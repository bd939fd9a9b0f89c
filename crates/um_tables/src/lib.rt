//! The sites that processors of the fine machine share: how a processor asks for a step at one (`Sites`), what is kept in each cell, and
//! sites that are tables with a log.
#![tactic(auto)]

mod asleep;
mod bytes;
mod clock;
mod context;
mod domain_cell;
mod futex_act;
mod heap;
mod heap_act;
mod here;
mod joins;
mod kinds;
mod log;
mod look;
mod marked;
mod memory_act;
mod newborn;
mod object_cell;
mod object_cells;
mod parked;
mod pieces;
mod said;
mod scheduler;
mod seeker;
mod sites;
mod slots;
mod table_parts;
mod tables;

pub use asleep::Asleep;
pub use bytes::Bytes;
pub use clock::Clock;
pub use context::Context;
pub use domain_cell::{DomainCell, edited, load};
pub use futex_act::{FutexWait, FutexWake};
pub use heap::Heap;
pub use heap_act::{HeapAct, HeapSaid};
pub use here::Here;
pub use joins::Joins;
pub use kinds::kind_of;
pub use log::{
    armed, expired, is_full, joined, left, named, note, resumed, ticked, waited, woke, worked,
};
pub use look::{Look, Waiting};
pub use marked::Marked;
pub use memory_act::{MemoryAct, MemorySaid};
pub use newborn::{NOBODY, Newborn};
pub use object_cell::ObjectCell;
pub use object_cells::ObjectCells;
pub use parked::Parked;
pub use pieces::empties;
pub use said::Said;
pub use scheduler::Scheduler;
pub use seeker::Seeker;
pub use sites::Sites;
pub use table_parts::TableParts;
pub use tables::Tables;
