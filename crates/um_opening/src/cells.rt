//! The contents of all cells, as a state of the machine has them.

ghost use Rattle.std.specs.{
  Prelude.{◌≡◌, ◌<◌, IfOk, IsTrue, length, map, slice_index_or, slice_set},
  List.{All},
};
ghost use Rattle.um_base.specs.{
  declared.limits.TheConstants.{DOMAINS, ROWS, THREADS},
  declared.image.Boot.{Boot},
  Lawful.{IsLawful},
  Places.{thread_of_row},
};
ghost use Rattle.um_machine.specs.{Limits.{is_in_limits}, Run.{index_or, objects_from}, Table.{domain_at}};
ghost use Rattle.um_fine.specs.{Cells.{Cell}, Opening.{boot_index, indexed, is_shut_at, joins_cell, scheduler_cell}};
ghost use Rattle.um_tables.specs.{Contexts.{rests}, ObjectCells.{cleared}};
ghost use Rattle.um_opening.specs.Opened.{AreParts, heap_of, kept_by, opened};

use crate::words::is_init;
use arrayvec::ArrayVec;
use std::alloc::Global;
use um_base::{Boot, DOMAINS, Image, OutOfMemory, Parts, ROWS, STATIC_ROWS, Setup, THREADS};
use um_boot::OpeningState;
use um_steps::blank::{is_set_up, set_up};
use um_steps::rows::{own_row, thread_of_row};
use um_tables::{DomainCell, Heap, Joins, ObjectCells, Scheduler};

/// The partitions of a domain.
fn parts_of(state: &OpeningState, d: usize) -> Option<Parts>
    ensures { result ≡ domain_at state.now d }
{
    match state.domains().get(d) {
        Some(parts) => *parts,
        None => None,
    }
}

/// The cells of all domains.
pub fn domain_cells(alloc: Global, state: &OpeningState) -> Result<Vec<DomainCell>, OutOfMemory>
    ensures parts { IfOk result (λ cells. AreParts state.now DOMAINS cells.items) }
    ensures all { IfOk result (λ cells. length cells.items ≡ DOMAINS) }
{
    let mut cells = Vec::with_capacity(alloc, DOMAINS)?;
    for d in 0..DOMAINS {
        let parts = parts_of(state, d);
        cells.push(DomainCell { parts, steps: 0 })?;
    }
    Ok(cells)
}

/// Opens the cell of an object. Where the setup has no contents, no cell is asked for: it keeps nothing, as before.
#[tactic(auto, using(crate::proofs::Lists::stays_empty))]
fn open_cell(cells: &mut ObjectCells, x: usize, setup: Setup)
    requires limits { IsTrue (is_in_limits setup) }
    requires row { x < ROWS }
    requires empty { slice_index_or cells.old x (cleared 0) ≡ cleared 0 }
    ensures { cells.new ≡ slice_set cells.old x (opened setup) }
{
    if is_set_up(setup) {
        set_up(&mut cells.row_mut(x).contents, setup);
    }
}

/// The cells of all rows.
#[tactic(auto, using(um_boot::proofs::BootLemmas::in_limits))]
pub fn objects(alloc: Global, image: &Image) -> Result<ObjectCells, OutOfMemory>
    requires { IsLawful image.now }
    ensures cells { IfOk result
        (λ cells. cells ≡ map kept_by (objects_from image.now.boots 0 image.now.objects)) }
    ensures all { IfOk result (λ cells. length cells ≡ ROWS) }
{
    let mut cells = ObjectCells::new(alloc)?;
    for (x, object) in image.objects.as_slice().iter().enumerate() {
        open_cell(&mut cells, x, object.setup);
    }
    Ok(cells)
}

/// The heap of the opening: what is left in each pool, the dynamic addresses, all free, and what each object cost, which is nothing.
pub fn heap(alloc: Global, pools: Vec<u32>) -> Result<Heap, OutOfMemory>
    ensures { IfOk result (λ heap. heap ≡ heap_of pools.items) }
{
    let mut free = Vec::with_capacity(alloc, ROWS)?;
    free.resize(STATIC_ROWS, false)?;
    free.resize(ROWS, true)?;
    let mut costs = Vec::with_capacity(alloc, ROWS)?;
    costs.resize(ROWS, None)?;
    Ok(Heap::new(pools, free, costs))
}

/// The index of a boot entry's thread.
fn index_of(image: &Image, boot: &Boot) -> u8
    ensures { result ≡ index_or (thread_of_row image.now boot.now.thread.0) }
{
    match thread_of_row(image, boot.thread.0 as usize) {
        Some(t) => t as u8,
        None => 0,
    }
}

/// The threads of the boot entries, in their order.
fn ready(state: &OpeningState) -> ArrayVec<u8, THREADS>
    ensures { result.items ≡ map (boot_index state.now) state.now.image.boots }
{
    let image = state.image();
    let mut ready = ArrayVec::new();
    for boot in image.boots.as_slice() {
        ready.push(index_of(image, boot));
    }
    ready
}

/// The ready list, and the threads, all at rest.
pub fn scheduler(alloc: Global, state: &OpeningState) -> Result<Scheduler, OutOfMemory>
    requires boots { All (λ (boot : Boot). boot_index state.now boot < THREADS) state.now.image.boots }
    requires rest { All rests state.now.threads }
    ensures { IfOk result (λ scheduler. Cell.scheduler scheduler ≡ scheduler_cell state.now) }
{
    Scheduler::at_rest(alloc, ready(state), state.threads())
}

/// Which threads nobody joins: those whose object isn't initialised.
fn shut(state: &OpeningState) -> [bool; THREADS]
    ensures { result ≡ indexed (is_shut_at state.now) 0 state.now.threads }
{
    let image = state.image();
    let threads = state.threads();
    let mut shut = [false; THREADS];
    for t in 0..threads.len() {
        shut[t] = !is_init(image, own_row(image, t));
    }
    shut
}

/// The joins, where nobody waits or sleeps.
pub fn joins(alloc: Global, state: &OpeningState) -> Result<Joins, OutOfMemory>
    ensures { IfOk result (λ joins. Cell.joins joins ≡ joins_cell state.now) }
{
    Joins::new(alloc, shut(state))
}
