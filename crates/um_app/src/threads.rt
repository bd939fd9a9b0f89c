//! Runs whose processors are threads.

ghost use Rattle.std.specs.Prelude.{◌≡◌, ◌≤◌, IfOk, length};
ghost use Rattle.um_base.specs.{Lawful.{IsLawful}, Weight.{weight}};
ghost use Rattle.um_closing.specs.ReadOff.{read_off};
ghost use Rattle.um_cpu.specs.Standing.{IsReadable, standing};
ghost use Rattle.um_trace.specs.Text.{text};
ghost use Rattle.um_app.specs.{Ended.{HaveEnded}, Threaded.{MayRun}, Top.{IsThreadRunText}};

use std::alloc::Global;
use std::sync::Wait;
use std::thread::Threads;
use um_base::{Event, Image, OutOfMemory};
use um_board::Contents;
use um_closing::Closing;
use um_core::one_whole;
use um_cpu::{LeftBoard, Ran, run_events};
use um_image::weight;
use um_io::Gate;
use um_order::one_order;
use um_site::Closed;
use um_texts::one_dump;

/// What `run` writes of an image, and the board on which the run was made.
pub struct ThreadText {
    pub text: Vec<u8>,
    pub closed: Closed<Contents>,
}

/// A complete run of an image whose processors are threads, and the board on which it was made. The gate is asked before each of their turns.
fn thread_run<R: Threads + Wait + Sync, G: Gate + Sync>(
    rt: &R,
    alloc: Global,
    image: &Image,
    cpus: u8,
    gate: &G,
) -> Result<Ran, OutOfMemory>
    requires may { MayRun image.now cpus }
    ensures { IfOk result (λ ran. HaveEnded image.now cpus ran.closed ran.events.items) }
{
    // on one processor the events are in order, and the steps are those of every pick
    one_order();
    one_whole();
    let _objects = image.objects.len();
    let ran = run_events(rt, alloc, image, cpus, weight(image) as usize, gate)?;
    Ok(ran)
}

/// The text of a run that threads made on a board, whose last state is read off the board.
fn text_of(
    alloc: Global,
    image: &Image,
    events: &[Event],
    closed: &Closed<Contents>,
) -> Result<Vec<u8>, OutOfMemory>
    requires lawful { IsLawful image.now }
    requires readable { IsReadable closed.now }
    requires few { length events.now ≤ weight image.now }
    ensures { IfOk result
        (λ written. written.items
        ≡ text image.now events.now (read_off image.now (standing closed.now))) }
{
    let board = LeftBoard::new(closed);
    let mut text = Vec::with_capacity(alloc, um_trace::text_room(events))?;
    um_trace::trace_text(image, events, &Closing::new(image, &board), &mut text);
    Ok(text)
}

/// The text of a run of an image whose processors are threads, and the board on which they made it. The gate is asked before each of their turns.
pub fn thread_text<R: Threads + Wait + Sync, G: Gate + Sync>(
    rt: &R,
    alloc: Global,
    image: &Image,
    cpus: u8,
    gate: &G,
) -> Result<ThreadText, OutOfMemory>
    requires may { MayRun image.now cpus }
    ensures { IfOk result (λ made. IsThreadRunText image.now cpus made.closed made.text.items) }
{
    // the state that is read off the board has the text of the run's last state
    one_dump();
    let Ran { events, closed } = thread_run(rt, alloc, image, cpus, gate)?;
    match text_of(alloc, image, events.as_slice(), &closed) {
        Ok(text) => Ok(ThreadText { text, closed }),
        Err(memory) => {
            closed.free();
            Err(memory)
        }
    }
}
