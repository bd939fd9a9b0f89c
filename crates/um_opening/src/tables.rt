//! The tables at the opening.

ghost use Rattle.std.specs.Prelude.{◌≡◌, ◌≤◌, [], IfOk, IsTrue};
ghost use Rattle.um_base.specs.Lawful.{IsLawful};
ghost use Rattle.um_machine.specs.Memory.{rodata_of};
ghost use Rattle.um_fine.specs.{Opening.{s_start, site_state}, Sites.{is_site}, Steps.{Site}};
ghost use Rattle.um_tables.specs.Sited.{IsSized, state_at};
ghost use Rattle.um_opening.specs.Opened.{IsFresh};

use crate::cells::{domain_cells, heap, joins, objects, scheduler};
use crate::words::{domains, rows, threads};
use std::alloc::Global;
use um_base::{Image, OutOfMemory};
use um_boot::OpeningState;
use um_tables::{Bytes, Clock, Tables};

/// Tables of a state in which nobody has run.
fn tables_of(alloc: Global, state: OpeningState, most: usize) -> Result<Tables, OutOfMemory>
    requires lawful { IsLawful state.image }
    requires fresh { IsFresh state }
    ensures sites { IfOk result
        (λ t. (i : Site) → IsTrue (is_site i) → state_at t i ≡ site_state state.entry i) }
    ensures sized { IfOk result (λ t. IsSized t) }
    ensures rodata { IfOk result (λ t. t.rodata ≡ rodata_of state.entry.image) }
    ensures log { IfOk result (λ t. t.log ≡ []) }
    ensures room { IfOk result (λ t. most ≤ t.most) }
{
    // no more domains than have words
    let _few = state.domains().len();
    let rows = rows(alloc, &state)?;
    let threads = threads(alloc, &state)?;
    let domains = domains(alloc, &state)?;
    let domain_cells = domain_cells(alloc, &state)?;
    let objects = objects(alloc, state.image())?;
    let scheduler = scheduler(alloc, &state)?;
    let joins = joins(alloc, &state)?;
    let parts = state.into_parts();
    let memory = Bytes::new(alloc, parts.memory, parts.stacks)?;
    let heap = heap(alloc, parts.pools)?;
    let log = Vec::with_capacity(alloc, most)?;
    let clock = Clock::new(alloc, log.capacity())?;
    let tables = Tables::new(
        rows,
        threads,
        domains,
        domain_cells,
        objects,
        parts.rodata,
        memory,
        heap,
        scheduler,
        clock,
        joins,
        log,
    );
    Ok(tables)
}

/// Makes the tables of an image at its opening: the words and cells of all sites, the read-only data, and room for at least `most`
/// events and as many marks.
pub fn opening(alloc: Global, image: &Image, most: usize) -> Result<Tables, OutOfMemory>
    requires lawful { IsLawful image.now }
    ensures sites { IfOk result (λ t. (i : Site) → IsTrue (is_site i) → state_at t i ≡ s_start image.now i) }
    ensures sized { IfOk result (λ t. IsSized t) }
    ensures image { IfOk result (λ t. t.rodata ≡ rodata_of image.now) }
    ensures log { IfOk result (λ t. t.log ≡ []) }
    ensures room { IfOk result (λ t. most ≤ t.most) }
{
    let state = OpeningState::boot(alloc, image)?;
    tables_of(alloc, state, most)
}
