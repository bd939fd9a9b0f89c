//! The types that the layers share: names of things, instructions, acts, and the image that a description gives.
#![tactic(auto)]

mod act;
mod ask;
mod attr;
mod bounded_vec;
mod image;
mod instr;
mod limits;
mod lists;
mod name;
mod names;
mod out_of_memory;

pub use act::{Act, Answer, Cause, Event, Found, Given, Leftover, SetSaid};
pub use ask::{Ask, Told, Waiter};
pub use attr::Attr;
pub use bounded_vec::BoundedVec;
pub use image::{Boot, Bytes, DomainDef, Futex, Image, ObjectDef, Partition, Pool, Script, Setup};
pub use instr::{Instr, Options};
pub use limits::{
    AREA_ENTRY, AREA_SIZE, BOOTS, DOMAIN_PARTITIONS, DOMAINS, DYNAMIC_OBJECTS, FUTEX_CELL, FUTEXES,
    JOIN_CELL, LINES, MOST_WEIGHT, NAMED_PARTITIONS, OBJECT_STEP, OBJECTS, PARTITION_AREA,
    PARTITIONS, PIECE, POOLS, RODATA, ROWS, SCRIPTS, STACK_AREA, STATIC_ROWS, STATIC_THREADS,
    THREADS,
};
pub use lists::{PartRefs, Parts, Piece, Replies};
pub use name::Name;
pub use names::{
    Access, Addr, Errno, Kind, Mode, Mpu, PartRef, Policy, Range, Ref, Reply, Row, Term, ThreadIx,
    Timeout, Want,
};
pub use out_of_memory::OutOfMemory;
