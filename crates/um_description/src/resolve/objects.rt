//! Objects in their rows.

ghost use Rattle.std.specs.Prelude.{◌≡◌, ◌+◌, ◌≤◌, ◌<◌, IfOk, length, drop};
ghost use Rattle.um_description.specs.{
  Resolve.{object_def, objects_from, first_range, ranges_taken, row_addr, object_of, sem_setup, msgq_setup, stack_setup, pipe_setup},
  Limits.{threads_after},
};

use crate::numbers::clamped;
use std::alloc::Global;
use um_base::{
    Addr, BoundedVec, Kind, OBJECT_STEP, OBJECTS, ObjectDef, OutOfMemory, Range, STATIC_ROWS,
    Setup, ThreadIx,
};
use um_document::{Details, MsgqNumbers, ObjectEntry, SemNumbers};

/// The address of a row whose object isn't a thread stack.
fn row_addr(x: usize) -> u32
    requires { x < STATIC_ROWS }
    ensures { result ≡ row_addr x }
{
    OBJECTS + OBJECT_STEP * x as u32
}

fn object_of(entry: &ObjectEntry, kind: Kind, addr: u32, setup: Setup) -> ObjectDef
    ensures { result ≡ object_of entry.now kind addr setup }
{
    ObjectDef {
        name: entry.name,
        kind,
        addr: Addr(addr),
        public: entry.public,
        setup,
    }
}

fn sem_setup(numbers: Option<SemNumbers>) -> Setup
    ensures { result ≡ sem_setup numbers }
{
    match numbers {
        None => Setup::Bare,
        Some(numbers) => Setup::Sem {
            count: clamped(numbers.count),
            limit: clamped(numbers.limit),
        },
    }
}

fn msgq_setup(numbers: Option<MsgqNumbers>) -> Setup
    ensures { result ≡ msgq_setup numbers }
{
    match numbers {
        None => Setup::Bare,
        Some(numbers) => Setup::Msgq {
            msg_size: clamped(numbers.msg_size),
            max_msgs: clamped(numbers.max_msgs),
        },
    }
}

fn stack_setup(entries: Option<i64>) -> Setup
    ensures { result ≡ stack_setup entries }
{
    match entries {
        None => Setup::Bare,
        Some(entries) => Setup::Stack {
            entries: clamped(entries),
        },
    }
}

fn pipe_setup(size: Option<i64>) -> Setup
    ensures { result ≡ pipe_setup size }
{
    match size {
        None => Setup::Bare,
        Some(size) => Setup::Pipe {
            size: clamped(size),
        },
    }
}

/// The object of a row, with a thread index where it is a thread, and a range where it is a thread stack.
fn object_def(range: Range, x: usize, t: u8, entry: &ObjectEntry) -> ObjectDef
    requires { x < STATIC_ROWS }
    ensures { result ≡ object_def range x t entry.now }
{
    match entry.details {
        Details::Thread => object_of(
            entry,
            Kind::Thread,
            row_addr(x),
            Setup::Thread { index: ThreadIx(t) },
        ),
        Details::ThreadStack { size } => object_of(
            entry,
            Kind::ThreadStack,
            range.start.0,
            Setup::ThreadStack {
                range,
                declared: clamped(size),
            },
        ),
        Details::Sem { numbers } => object_of(entry, Kind::Sem, row_addr(x), sem_setup(numbers)),
        Details::Mutex { init } => object_of(
            entry,
            Kind::Mutex,
            row_addr(x),
            if init { Setup::Mutex } else { Setup::Bare },
        ),
        Details::Msgq { numbers } => {
            object_of(entry, Kind::Msgq, row_addr(x), msgq_setup(numbers))
        }
        Details::Stack { entries } => {
            object_of(entry, Kind::Stack, row_addr(x), stack_setup(entries))
        }
        Details::Pipe { size } => object_of(entry, Kind::Pipe, row_addr(x), pipe_setup(size)),
        Details::Timer => object_of(entry, Kind::Timer, row_addr(x), Setup::Timer),
    }
}

/// How many of the ranges an object takes.
fn ranges_taken(entry: &ObjectEntry) -> usize
    ensures value { result ≡ ranges_taken entry.now }
    ensures few { result ≤ 1 }
{
    match entry.details {
        Details::ThreadStack { .. } => 1,
        _ => 0,
    }
}

/// How many threads there are after an object, behind so many.
fn threads_after(threads: u8, entry: &ObjectEntry) -> u8
    requires { threads < 255 }
    ensures value { result ≡ threads_after threads entry.now }
    ensures few { result ≤ threads + 1 }
{
    match entry.details {
        Details::Thread => threads + 1,
        _ => threads,
    }
}

/// The first of the ranges that are left.
fn first_range(ranges: &[Range], taken: usize) -> Range
    ensures { result ≡ first_range (drop taken ranges.now) }
{
    match ranges.get(taken) {
        Some(range) => *range,
        None => Range {
            start: Addr(0),
            size: 0,
        },
    }
}

/// The objects in their rows, with the ranges of the thread stacks.
pub fn objects(
    alloc: Global,
    ranges: &[Range],
    entries: &[ObjectEntry],
) -> Result<BoundedVec<ObjectDef, STATIC_ROWS>, OutOfMemory>
    requires { length entries.now ≤ STATIC_ROWS }
    ensures { IfOk result (λ all. all ≡ objects_from ranges.now 0 0 entries.now) }
{
    let mut all = BoundedVec::new(alloc);
    let mut taken = 0;
    let mut threads = 0;
    for (x, entry) in entries.iter().enumerate() {
        all.push_copy(&object_def(first_range(ranges, taken), x, threads, entry))?;
        taken += ranges_taken(entry);
        threads = threads_after(threads, entry);
    }
    Ok(all)
}
