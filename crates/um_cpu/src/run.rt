//! Processors as threads on one board.

ghost use Rattle.std.specs.Prelude.{◌≡◌, ◌≤◌, ℕ, [], IfOk, length, vec_capacity};
ghost use Rattle.um_base.specs.{Lawful.{IsLawful}, Weight.{weight}};
ghost use Rattle.um_invariants.specs.Described.{IsDescribed};
ghost use Rattle.um_refinement.specs.Room.{CanRun};
ghost use Rattle.um_steps.specs.Given.{IsGiven};
ghost use Rattle.um_cpu.specs.Ended.{Begins, EachAt, Ends, Gathered, HasEnded};

use crate::cpu::Cpu;
use crate::seats::seats;
use crate::turns::turns;
use std::alloc::Global;
use std::sync::Wait;
use std::thread;
use std::thread::Threads;
use um_base::{Image, OutOfMemory};
use um_board::{Contents, NextStep, opening};
use um_io::Gate;
use um_merge::{Log, PROCESSORS};
use um_site::{Board, Closed, Seat};
use um_steps::rodata::rodata;

/// What is left of processors that have ended.
pub struct Ended {
    /// The steps of the processors 0, 1, ..
    pub logs: Vec<Log>,
    pub closed: Closed<Contents>,
}

/// The processor of this number, one of this many, takes its turns.
fn play<R: Wait, G: Gate>(
    rt: &R,
    image: &Image,
    board: &Board<Contents, NextStep>,
    cpus: usize,
    number: usize,
    cpu: &mut Cpu<'_>,
    gate: &G,
)
    requires given { IsGiven image.now }
    requires described { IsDescribed image.now }
    requires can { CanRun image.now 8 }
    requires begins { Begins image.now board.now.table.shared.table_id cpus number cpu.old }
    ensures { Ends image.now board.now.table.shared.table_id cpus number cpu.new }
{
    let _ = board;
    let _ = (cpus, number);
    turns(rt, image, cpu, gate);
}

/// Each processor takes its turns, in a thread of its own where one can be made.
fn run_all<R: Threads + Wait + Sync, G: Gate + Sync>(
    rt: &R,
    image: &Image,
    board: &Board<Contents, NextStep>,
    cpus: &mut [Cpu<'_>],
    gate: &G,
)
    requires given { IsGiven image.now }
    requires described { IsDescribed image.now }
    requires can { CanRun image.now 8 }
    requires begins { EachAt (Begins image.now board.now.table.shared.table_id (length cpus.old)) cpus.old }
    ensures ends { EachAt (Ends image.now board.now.table.shared.table_id (length cpus.old)) cpus.new }
    ensures count { length cpus.new ≡ length cpus.old }
{
    let count = cpus.len();
    thread::for_each_mut(
        rt,
        cpus,
        PROCESSORS,
        &|k, cpu: &mut Cpu<'_>|
            requires { IsGiven image.now × IsDescribed image.now × CanRun image.now 8
                × Begins image.now board.now.table.shared.table_id count k cpu.now }
            ensures { Ends image.entry.now board.entry.now.table.shared.table_id count k cpu.exit.now }
        { play(rt, image, board, count, k, cpu, gate) },
    );
}

/// Joins the seats of the other processors to that of the first one, which it returns, and collects the logs, for which there is room.
fn gather(
    image: &Image,
    board: &Board<Contents, NextStep>,
    cpus: &mut Vec<Cpu<'_>>,
    logs: &mut Vec<Log>,
) -> Seat<Contents>
    requires ends { EachAt (Ends image.now board.now.table.shared.table_id (length cpus.old.items))
        cpus.old.items }
    requires some { 1 ≤ length cpus.old.items }
    requires few { length cpus.old.items ≤ 8 }
    requires empty { logs.old.items ≡ [] }
    requires room { length cpus.old.items ≤ vec_capacity logs.old }
    ensures { Gathered image.now board.now.table.shared.table_id result (length cpus.old.items)
        logs.new.items }
{
    let _ = image;
    while cpus.len() > 1 {
        let Some(cpu) = cpus.pop() else {
            unreachable!()
        };
        let (own, log) = cpu.place.into_parts();
        board.join(&mut cpus[0].place.seat, own);
        logs.push_reserved(log);
    }
    let Some(first) = cpus.pop() else {
        unreachable!()
    };
    let (seat, log) = first.place.into_parts();
    logs.push_reserved(log);
    logs.reverse();
    seat
}

/// Runs this many processors on a board of the image to their end, each in a thread of its own if one can be made. Each log has room for
/// more than `most` steps, and `most` is at least the image's weight. All memory is taken before the first step, except what closing the
/// board takes. A gate can hold each processor before its turns.
pub fn run_cpus<R: Threads + Wait + Sync, G: Gate + Sync>(
    rt: &R,
    alloc: Global,
    image: &Image,
    cpus: u8,
    most: usize,
    gate: &G,
) -> Result<Ended, OutOfMemory>
    requires lawful { IsLawful image.now }
    requires some { 1 ≤ cpus }
    requires few { cpus ≤ 8 }
    requires room { weight image.now ≤ most }
    ensures { IfOk result (λ e. HasEnded image.now cpus e.closed e.logs.items) }
{
    let _objects = image.objects.len();
    let _domains = image.domains.len();
    let bytes = rodata(alloc, image)?;
    let mut logs = Vec::with_capacity(alloc, cpus as usize)?;
    let (board, seat, cells) = opening(alloc, image, most.saturating_add(1))?;
    let mut all = seats(
        alloc,
        image,
        &board,
        &cells,
        bytes.as_slice(),
        seat,
        cpus,
        most,
    )?;
    run_all(rt, image, &board, all.as_mut_slice(), gate);
    let seat = gather(image, &board, &mut all, &mut logs);
    drop(all);
    let Ok(closed) = board.close(seat) else {
        unreachable!()
    };
    Ok(Ended { logs, closed })
}
