//! The board of an image as it stands at the opening.

ghost use Rattle.std.specs.Prelude.{◌≡◌, ◌<◌, IfOk};
ghost use Rattle.um_base.specs.{Lawful.{IsLawful}, Weight.{weight}};
ghost use Rattle.um_board.specs.{Opening.{AreOpening, IsFirst}, Seated.{IsSeated}};

use crate::contents::Contents;
use crate::first_contents::first_contents;
use crate::first_words::first_words;
use crate::next_step::NextStep;
use std::alloc::Global;
use um_base::{Image, OutOfMemory};
use um_cell::Cells;
use um_site::{Board, Seat};
use um_tables::{Clock, TableParts};

/// The site of the first cell.
const FIRST_CELL: u16 = 168;

/// How many cells a board has.
const CELLS: u32 = 141;

/// The board of an image, on which nobody has made a step, its first seat, and its cells with the contents with which they open. There is room
/// for at least `most` deadlines, and those are more than the image's weight.
pub fn opening(
    alloc: Global,
    image: &Image,
    most: usize,
) -> Result<(Board<Contents, NextStep>, Seat<Contents>, Cells<Contents>), OutOfMemory>
    requires lawful { IsLawful image.now }
    requires room { weight image.now < most }
    ensures seated { IfOk result (λ r. IsSeated image.now r.0.table.shared.table_id r.2 r.1) }
    ensures slots { IfOk result (λ r. r.0.table.shared.table_id.slots ≡ 141) }
    ensures first { IfOk result (λ r. IsFirst r.1) }
    ensures words { IfOk result (λ r. AreOpening image.now r.1.token.me.0.opening) }
{
    let tables = um_opening::opening(alloc, image, 0)?;
    let TableParts {
        rows,
        threads,
        domains,
        domain_cells,
        objects,
        memory,
        heap,
        scheduler,
        clock: _,
        joins,
    } = tables.into_parts();
    let words = first_words(
        alloc,
        image,
        rows.as_slice(),
        threads.as_slice(),
        domains.as_slice(),
    )?;
    let clock = Clock::new(alloc, most)?;
    let contents = first_contents(
        alloc,
        image,
        objects,
        domain_cells,
        memory,
        heap,
        scheduler,
        clock,
        joins,
    )?;
    let (board, mut seat) = Board::make(alloc, words, CELLS, image)?;
    let cells = Cells::make(&board, &mut seat, FIRST_CELL, contents);
    Ok((board, seat, cells))
}
