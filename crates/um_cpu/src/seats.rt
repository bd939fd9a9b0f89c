//! A seat for each processor.

ghost use Rattle.std.specs.Prelude.{◌≡◌, ◌<◌, ◌≤◌, [], IfOk, length};
ghost use Rattle.um_base.specs.Weight.{weight};
ghost use Rattle.um_machine.specs.Memory.{rodata_of};
ghost use Rattle.um_fine.specs.Processor.{idle};
ghost use Rattle.um_processor.specs.Standing.{whole};
ghost use Rattle.um_board.specs.{Opening.{AreOpening, IsFirst}, Seated.{IsSeated}};
ghost use Rattle.um_cpu.specs.Ended.{Begins, EachAt};

use crate::cpu::Cpu;
use std::alloc::Global;
use um_base::{Image, OutOfMemory};
use um_board::{Contents, NextStep, Seated};
use um_cell::Cells;
use um_merge::Log;
use um_processor::Processor;
use um_site::{Board, Seat};

/// Makes a processor without a thread, at this seat, with room for more than `most` steps in its log.
fn placed<'a>(
    alloc: Global,
    image: &Image,
    board: &'a Board<Contents, NextStep>,
    cells: &'a Cells<Contents>,
    rodata: &'a [u8],
    seat: Seat<Contents>,
    number: u8,
    most: usize,
) -> Result<Cpu<'a>, OutOfMemory>
    requires room { weight image.now ≤ most }
    requires light { weight image.now ≤ 400000 }
    ensures number { IfOk result (λ cpu. cpu.number ≡ number) }
    ensures fresh { IfOk result (λ cpu. whole cpu.processor ≡ idle) }
    ensures seat { IfOk result (λ cpu. cpu.place.seat ≡ seat) }
    ensures place { IfOk result
        (λ cpu. (cpu.place.board.now ≡ board.now) × (cpu.place.cells.now ≡ cells.now)
        × (cpu.place.rodata.now ≡ rodata.now)) }
    ensures log { IfOk result (λ cpu. cpu.place.log.items ≡ []) }
    ensures room { IfOk result (λ cpu. weight image.now < cpu.place.log.room) }
{
    let _ = image;
    let log = Log::with_room(alloc, most.saturating_add(1))?;
    let processor = Processor::new(alloc)?;
    let place = Seated::new(board, cells, rodata, seat, log);
    Ok(Cpu {
        number,
        processor,
        place,
    })
}

/// Makes this many processors without threads, each with room for more than `most` steps in its log. The first one has the board's first
/// seat, and each other one a seat that this one splits off. All memory is taken here.
pub(crate) fn seats<'a>(
    alloc: Global,
    image: &Image,
    board: &'a Board<Contents, NextStep>,
    cells: &'a Cells<Contents>,
    rodata: &'a [u8],
    seat: Seat<Contents>,
    cpus: u8,
    most: usize,
) -> Result<Vec<Cpu<'a>>, OutOfMemory>
    requires seated { IsSeated image.now board.now.table.shared.table_id cells.now seat }
    requires rodata { rodata.now ≡ rodata_of image.now }
    requires first { IsFirst seat }
    requires opening { AreOpening image.now seat.token.me.0.opening }
    requires some { 1 ≤ cpus }
    requires few { cpus ≤ 8 }
    requires room { weight image.now ≤ most }
    requires light { weight image.now ≤ 400000 }
    ensures count { IfOk result (λ all. length all.items ≡ cpus) }
    ensures begins { IfOk result
        (λ all. EachAt (Begins image.now board.now.table.shared.table_id cpus) all.items) }
{
    let mut all = Vec::with_capacity(alloc, cpus as usize)?;
    all.push_reserved(placed(alloc, image, board, cells, rodata, seat, 0, most)?);
    for number in 1..cpus {
        let own = board.split(&mut all[0].place.seat);
        all.push_reserved(placed(alloc, image, board, cells, rodata, own, number, most)?);
    }
    Ok(all)
}
