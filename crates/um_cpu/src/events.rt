//! The events that processors on a board show.

ghost use Rattle.std.specs.Prelude.{◌≡◌, ◌≤◌, IfOk, List, length};
ghost use Rattle.um_base.specs.{Lawful.{IsLawful}, Weight.{weight}};
ghost use Rattle.um_fine.specs.{Erasure.{shown}, Steps.{FineStep}};
ghost use Rattle.um_laws.specs.Obeys.{ObeysLaws};
ghost use Rattle.um_merge.specs.Logs.{events_of};
ghost use Rattle.um_refinement.specs.Shows.{AreCompleteRun};
ghost use Rattle.um_cpu.specs.{OnBoard.{HasRun}, Standing.{IsLastState}};

use crate::run::{Ended, run_cpus};
use std::alloc::Global;
use std::sync::Wait;
use std::thread::Threads;
use um_base::{Event, Image, OutOfMemory};
use um_board::Contents;
use um_closing::every_closing;
use um_fine_measure::longest_fine_run;
use um_history::every_played_board;
use um_io::Gate;
use um_laws::every_run;
use um_merge::{Log, merged};
use um_site::Closed;

/// What processors have shown, and the board that they leave.
pub struct Ran {
    pub events: Vec<Event>,
    pub closed: Closed<Contents>,
}

/// Runs this many processors on a board of the image, each in a thread of its own if one can be made, and merges the steps that they made
/// there into one list. Its events are a complete run, which obeys the laws and whose last state the board keeps. Each log and the list have
/// room for `most` steps, which is at least the image's weight. A gate can hold each processor before its turns.
pub fn run_events<R: Threads + Wait + Sync, G: Gate + Sync>(
    rt: &R,
    alloc: Global,
    image: &Image,
    cpus: u8,
    most: usize,
    gate: &G,
) -> Result<Ran, OutOfMemory>
    requires lawful { IsLawful image.now }
    requires some { 1 ≤ cpus }
    requires few { cpus ≤ 8 }
    requires room { weight image.now ≤ most }
    ensures run { IfOk result (λ ran. AreCompleteRun image.now ran.events.items) }
    ensures board { IfOk result
        (λ ran. (steps : List FineStep) × HasRun image.now cpus ran.closed steps
        × (ran.events.items ≡ shown steps)) }
    ensures closes { IfOk result (λ ran. IsLastState image.now ran.closed ran.events.items) }
    ensures few { IfOk result (λ ran. length ran.events.items ≤ weight image.now) }
    ensures laws { IfOk result (λ ran. ObeysLaws image.now ran.events.items) }
{
    every_played_board();
    every_closing();
    longest_fine_run();
    every_run();
    let _objects = image.objects.len();
    let _domains = image.domains.len();
    let room = Log::with_room(alloc, most)?;
    let Ended { logs, closed } = run_cpus(rt, alloc, image, cpus, most, gate)?;
    let steps = merged(logs, room);
    Ok(Ran {
        events: steps.into_events(),
        closed,
    })
}
