//! The entries of a document.

ghost use Rattle.std.specs.Prelude.{◌≡◌, IfOk};
ghost use Rattle.toml.specs.{Data.{Members}, View.{view, array_view, table_view}};
ghost use Rattle.um_document.specs.Reading as reading;

use crate::description::{
    Alignment, BootEntry, Details, DomainEntry, FutexEntry, MsgqNumbers, ObjectEntry,
    PartitionContents, PartitionEntry, PoolEntry, ScriptEntry, SemNumbers, VariableEntry,
};
use crate::sequence::Sequence;
use crate::shape::{Key, Section};
use crate::tables::{items_at, kind_of};
use crate::texts::{
    bytes_at, bytes_given, copies_at, copies_given, copy_at, copy_given, name_at, number_at,
    number_given, text_given, truth_at,
};
use crate::words::alignment_of;
use std::alloc::Global;
use toml::Table;
use toml::value::Array;
use um_base::{Attr, Kind, Mode, OutOfMemory};
use um_vocabulary::{given_attr_named, mode_named};

/// What a section lists.
pub trait Entry: Drop + Sized {
    /// What a table says.
    ghost of: { Members → Self };

    /// The entry of a table.
    fn read(alloc: Global, table: &Table) -> Result<Self, OutOfMemory>
        ensures { IfOk result (λ entry. entry ≡ of (table_view table.now)) };
}

/// The entries of the tables among some items.
fn entries_of<E: Entry>(alloc: Global, items: &Array) -> Result<Sequence<E>, OutOfMemory>
    ensures { IfOk result (λ entries. entries ≡ reading.entries_of E.of (array_view items.now)) }
{
    let mut entries = Sequence::new(alloc);
    for item in items {
        if let Some(table) = item.as_table() {
            entries.push(E::read(alloc, table)?)?;
        }
    }
    Ok(entries)
}

/// The entries of a section.
pub fn entries_at<E: Entry>(
    alloc: Global,
    table: &Table,
    section: Section,
) -> Result<Sequence<E>, OutOfMemory>
    ensures { IfOk result (λ entries. entries ≡ reading.entries_at E.of section (table_view table.now)) }
{
    match items_at(table, section.key()) {
        Some(items) => entries_of(alloc, items),
        None => Ok(Sequence::new(alloc)),
    }
}

impl Entry for PoolEntry {
    ghost of = { reading.pool_of };

    fn read(_alloc: Global, table: &Table) -> Result<PoolEntry, OutOfMemory> {
        Ok(PoolEntry {
            name: name_at(table),
            size: number_at(table, Key::Size),
        })
    }
}

impl Entry for VariableEntry {
    ghost of = { reading.variable_of };

    fn read(alloc: Global, table: &Table) -> Result<VariableEntry, OutOfMemory> {
        Ok(VariableEntry {
            name: name_at(table),
            size: number_at(table, Key::Size),
            align: number_given(table, Key::Align)
                .and_then(alignment_of)
                .unwrap_or(Alignment::One),
            data: bytes_given(alloc, table, Key::Data)?,
        })
    }
}

/// What a partition consists of: its variables, where it lists them.
fn contents_of(alloc: Global, table: &Table) -> Result<PartitionContents, OutOfMemory>
    ensures { IfOk result (λ contents. contents ≡ reading.contents_of (table_view table.now)) }
{
    match items_at(table, Key::Vars) {
        Some(items) => Ok(PartitionContents::Variables(entries_of(alloc, items)?)),
        None => Ok(PartitionContents::Whole {
            size: number_at(table, Key::Size),
            data: bytes_at(alloc, table, Key::Data)?,
        }),
    }
}

impl Entry for PartitionEntry {
    ghost of = { reading.partition_of };

    fn read(alloc: Global, table: &Table) -> Result<PartitionEntry, OutOfMemory> {
        Ok(PartitionEntry {
            name: name_at(table),
            attr: text_given(table, Key::Attr)
                .and_then(|word| given_attr_named(word))
                .unwrap_or(Attr::P_RW_U_RW),
            contents: contents_of(alloc, table)?,
        })
    }
}

impl Entry for DomainEntry {
    ghost of = { reading.domain_of };

    fn read(alloc: Global, table: &Table) -> Result<DomainEntry, OutOfMemory> {
        Ok(DomainEntry {
            name: name_at(table),
            partitions: copies_given(alloc, table, Key::Partitions)?,
        })
    }
}

fn sem_numbers(table: &Table) -> Option<SemNumbers>
    ensures { result ≡ reading.sem_numbers (reading.number_given Key.Count (table_view table.now)) (reading.number_given Key.Limit (table_view table.now)) }
{
    let count = number_given(table, Key::Count)?;
    let limit = number_given(table, Key::Limit)?;
    Some(SemNumbers { count, limit })
}

fn msgq_numbers(table: &Table) -> Option<MsgqNumbers>
    ensures { result ≡ reading.msgq_numbers (reading.number_given Key.MsgSize (table_view table.now)) (reading.number_given Key.MaxMsgs (table_view table.now)) }
{
    let msg_size = number_given(table, Key::MsgSize)?;
    let max_msgs = number_given(table, Key::MaxMsgs)?;
    Some(MsgqNumbers { msg_size, max_msgs })
}

/// What is said of an object of this kind.
fn details(table: &Table, kind: Kind) -> Details
    ensures { result ≡ reading.details_of kind (table_view table.now) }
{
    match kind {
        Kind::Thread => Details::Thread,
        Kind::ThreadStack => Details::ThreadStack {
            size: number_at(table, Key::Size),
        },
        Kind::Sem => Details::Sem {
            numbers: sem_numbers(table),
        },
        Kind::Mutex => Details::Mutex {
            init: truth_at(table, Key::Init),
        },
        Kind::Msgq => Details::Msgq {
            numbers: msgq_numbers(table),
        },
        Kind::Stack => Details::Stack {
            entries: number_given(table, Key::Entries),
        },
        Kind::Pipe => Details::Pipe {
            size: number_given(table, Key::Size),
        },
        Kind::Timer => Details::Timer,
    }
}

impl Entry for ObjectEntry {
    ghost of = { reading.object_of };

    fn read(_alloc: Global, table: &Table) -> Result<ObjectEntry, OutOfMemory> {
        Ok(ObjectEntry {
            name: name_at(table),
            public: truth_at(table, Key::Public),
            details: details(table, kind_of(table).unwrap_or(Kind::Thread)),
        })
    }
}

impl Entry for BootEntry {
    ghost of = { reading.boot_of };

    fn read(alloc: Global, table: &Table) -> Result<BootEntry, OutOfMemory> {
        Ok(BootEntry {
            thread: copy_at(alloc, table, Key::Thread)?,
            stack: copy_at(alloc, table, Key::Stack)?,
            script: copy_at(alloc, table, Key::Script)?,
            priority: number_at(table, Key::Priority),
            domain: copy_at(alloc, table, Key::Domain)?,
            mode: text_given(table, Key::Mode)
                .and_then(|word| mode_named(word))
                .unwrap_or(Mode::User),
            pool: copy_given(alloc, table, Key::Pool)?,
            grants: copies_at(alloc, table, Key::Grants)?,
        })
    }
}

impl Entry for ScriptEntry {
    ghost of = { reading.script_of };

    fn read(alloc: Global, table: &Table) -> Result<ScriptEntry, OutOfMemory> {
        Ok(ScriptEntry {
            name: name_at(table),
            lines: copies_at(alloc, table, Key::Lines)?,
        })
    }
}

impl Entry for FutexEntry {
    ghost of = { reading.futex_of };

    fn read(alloc: Global, table: &Table) -> Result<FutexEntry, OutOfMemory> {
        Ok(FutexEntry {
            name: name_at(table),
            partition: copy_at(alloc, table, Key::Partition)?,
            offset: number_at(table, Key::Offset),
        })
    }
}
