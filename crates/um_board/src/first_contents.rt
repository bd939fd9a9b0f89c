//! The contents with which the cells of an image's board open.

ghost use Rattle.std.specs.Prelude.{◌≡◌, ◌+◌, ◌<◌, ◌≤◌, ℕ, IfOk, length, slice_index_or};
ghost use Rattle.um_base.specs.Weight.{weight};
ghost use Rattle.um_base.specs.declared.limits.TheConstants.{DOMAINS, ROWS};
ghost use Rattle.um_fine.specs.{Cells.{Cell}, Sites.{site_numbered}, Steps.{Site}};
ghost use Rattle.um_tables.specs.ObjectCells.{cleared};
ghost use Rattle.um_board.specs.{Kept.{HasRoom, cell_of, room_of}, Opening.{AreDomainCells, AreFirst, AreObjects, OpensWith}};

use crate::contents::{Contents, Kept};
use crate::object_room::ObjectRoom;
use std::alloc::Global;
use um_base::{Image, OutOfMemory, ROWS};
use um_tables::{Bytes, Clock, DomainCell, Heap, Joins, ObjectCells, Scheduler};

/// How many cells a board has.
const CELLS: usize = 141;

/// Adds one cell.
fn add(image: &Image, all: &mut Vec<Contents>, kept: Kept) -> Result<(), OutOfMemory>
    requires first { AreFirst image.now all.old.items }
    requires opens { OpensWith image.now (site_numbered (168 + length all.old.items)) (cell_of kept) }
    requires room { HasRoom image.now (room_of kept) }
    ensures first { IfOk result (λ _. AreFirst image.now all.new.items) }
    ensures one { IfOk result (λ _. length all.new.items ≡ length all.old.items + 1) }
{
    all.push(Contents::new(image, kept))?;
    Ok(())
}

/// Room with the cell of a row, which is taken out.
fn room_of(alloc: Global, objects: &mut ObjectCells, x: usize) -> Result<ObjectRoom, OutOfMemory>
    requires row { x < ROWS }
    ensures cell { IfOk result (λ room. room ≡ slice_index_or objects.old x (cleared 0)) }
    ensures others { IfOk result (λ room. (k : ℕ) → x < k
        → slice_index_or objects.new k (cleared 0) ≡ slice_index_or objects.old k (cleared 0)) }
{
    match objects.row(x) {
        Some(_) => ObjectRoom::with(alloc, objects.take(x)),
        None => ObjectRoom::new(alloc),
    }
}

/// The cells of the objects.
fn add_objects(
    alloc: Global,
    image: &Image,
    all: &mut Vec<Contents>,
    mut objects: ObjectCells,
) -> Result<(), OutOfMemory>
    requires first { AreFirst image.now all.old.items }
    requires none { length all.old.items ≡ 0 }
    requires objects { AreObjects image.now objects }
    ensures first { IfOk result (λ _. AreFirst image.now all.new.items) }
    ensures all { IfOk result (λ _. length all.new.items ≡ ROWS) }
{
    for x in 0..ROWS {
        let room = room_of(alloc, &mut objects, x)?;
        add(image, all, Kept::Object(room))?;
    }
    Ok(())
}

/// The cells of the domains, after those of the objects.
fn add_parts(
    alloc: Global,
    image: &Image,
    all: &mut Vec<Contents>,
    cells: Vec<DomainCell>,
) -> Result<(), OutOfMemory>
    requires first { AreFirst image.now all.old.items }
    requires objects { length all.old.items ≡ ROWS }
    requires parts { AreDomainCells image.now cells.items }
    requires all { length cells.items ≡ DOMAINS }
    ensures first { IfOk result (λ _. AreFirst image.now all.new.items) }
    ensures all { IfOk result (λ _. length all.new.items ≡ ROWS + DOMAINS) }
{
    for cell in cells {
        add(image, all, Kept::Parts(Box::new(alloc, cell)?))?;
    }
    Ok(())
}

/// The contents of all cells, in the order of their sites.
pub fn first_contents(
    alloc: Global,
    image: &Image,
    objects: ObjectCells,
    domain_cells: Vec<DomainCell>,
    memory: Bytes,
    heap: Heap,
    scheduler: Scheduler,
    clock: Clock,
    joins: Joins,
) -> Result<Vec<Contents>, OutOfMemory>
    requires objects { AreObjects image.now objects }
    requires parts { AreDomainCells image.now domain_cells.items }
    requires all_parts { length domain_cells.items ≡ DOMAINS }
    requires memory { OpensWith image.now Site.memory (Cell.memory memory) }
    requires heap { OpensWith image.now Site.heap (Cell.heap heap) }
    requires scheduler { OpensWith image.now Site.scheduler (Cell.scheduler scheduler) }
    requires clock { OpensWith image.now Site.clock (Cell.clock clock.clock) }
    requires joins { OpensWith image.now Site.joins (Cell.joins joins) }
    requires room { weight image.now < clock.most }
    ensures first { IfOk result (λ all. AreFirst image.now all.items) }
    ensures all { IfOk result (λ all. length all.items ≡ 141) }
{
    let mut all = Vec::with_capacity(alloc, CELLS)?;
    add_objects(alloc, image, &mut all, objects)?;
    add_parts(alloc, image, &mut all, domain_cells)?;
    add(image, &mut all, Kept::Memory(Box::new(alloc, memory)?))?;
    add(image, &mut all, Kept::Heap(Box::new(alloc, heap)?))?;
    add(
        image,
        &mut all,
        Kept::Scheduler(Box::new(alloc, scheduler)?),
    )?;
    add(image, &mut all, Kept::Clock(Box::new(alloc, clock)?))?;
    add(image, &mut all, Kept::Joins(Box::new(alloc, joins)?))?;
    Ok(all)
}
