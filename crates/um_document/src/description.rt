//! A description: what a document says, entry by entry, before names are looked up and numbers are held to their limits.

use crate::sequence::{Sequence, Text};
use um_base::{Attr, Mode, Mpu, Name, Policy};

/// A pool of so many bytes.
#[derive(Clone, Copy)]
pub struct PoolEntry {
    pub name: Name,
    pub size: i64,
}

/// How a variable is aligned: its offset is a multiple of so many bytes.
#[derive(Clone, Copy, PartialEq, Eq)]
pub enum Alignment {
    One,
    Two,
    Four,
    Eight,
    Sixteen,
    ThirtyTwo,
}

/// A variable of so many bytes, with those at its start where they are given.
#[derive(Drop)]
pub struct VariableEntry {
    pub name: Name,
    pub size: i64,
    pub align: Alignment,
    pub data: Option<Text>,
}

/// What a partition consists of.
#[derive(Drop)]
pub enum PartitionContents {
    /// So many bytes, with those at its start.
    Whole { size: i64, data: Text },
    /// The variables that lie in it, in their order.
    Variables(Sequence<VariableEntry>),
}

/// A partition.
#[derive(Drop)]
pub struct PartitionEntry {
    pub name: Name,
    pub attr: Attr,
    pub contents: PartitionContents,
}

/// A domain, with the names of its partitions where it is initialised.
#[derive(Drop)]
pub struct DomainEntry {
    pub name: Name,
    pub partitions: Option<Sequence<Text>>,
}

/// The count and the limit of a semaphore.
#[derive(Clone, Copy, PartialEq, Eq)]
pub struct SemNumbers {
    pub count: i64,
    pub limit: i64,
}

/// The bytes of a message and how many messages a queue holds.
#[derive(Clone, Copy, PartialEq, Eq)]
pub struct MsgqNumbers {
    pub msg_size: i64,
    pub max_msgs: i64,
}

/// The kind of an object, and what the description says of it beside. Where numbers could stand and don't it isn't initialised.
#[derive(Clone, Copy, PartialEq, Eq)]
pub enum Details {
    Thread,
    ThreadStack { size: i64 },
    Sem { numbers: Option<SemNumbers> },
    Mutex { init: bool },
    Msgq { numbers: Option<MsgqNumbers> },
    Stack { entries: Option<i64> },
    Pipe { size: Option<i64> },
    Timer,
}

/// A static object.
#[derive(Clone, Copy)]
pub struct ObjectEntry {
    pub name: Name,
    pub public: bool,
    pub details: Details,
}

/// A thread that is ready from the beginning: the names of what it has.
#[derive(Drop)]
pub struct BootEntry {
    pub thread: Text,
    pub stack: Text,
    pub script: Text,
    pub priority: i64,
    pub domain: Text,
    pub mode: Mode,
    pub pool: Option<Text>,
    pub grants: Sequence<Text>,
}

/// A script, with its lines as they stand.
#[derive(Drop)]
pub struct ScriptEntry {
    pub name: Name,
    pub lines: Sequence<Text>,
}

/// A word in memory on which threads wait.
#[derive(Drop)]
pub struct FutexEntry {
    pub name: Name,
    pub partition: Text,
    pub offset: i64,
}

/// What a document says. The read-only data are its bytes, none where the key is absent.
#[derive(Drop)]
pub struct Description {
    pub mpu: Mpu,
    pub regions: i64,
    pub policy: Policy,
    pub rodata: Text,
    pub pools: Sequence<PoolEntry>,
    pub partitions: Sequence<PartitionEntry>,
    pub domains: Sequence<DomainEntry>,
    pub objects: Sequence<ObjectEntry>,
    pub boots: Sequence<BootEntry>,
    pub scripts: Sequence<ScriptEntry>,
    pub futexes: Sequence<FutexEntry>,
}
