//! Whether any run comes to what is asked.

ghost use Rattle.std.specs.Prelude.{◌≡◌, ◌≤◌, ◌<◌, ◌++◌, ◌^◌, IfOk, IsTrue, List, None, false, length, true, vec_capacity};
ghost use Rattle.um_base.specs.Lawful.{IsLawful};
ghost use Rattle.um_base.specs.declared.act.Event.{Event};
ghost use Rattle.um_invariants.specs.Described.{IsDescribed};
ghost use Rattle.um_machine.specs.Run.{IsComplete, Runs, opening};
ghost use Rattle.um_machine.specs.State.{State};
ghost use Rattle.um_matrix.specs.Offered.{IsStep};
ghost use Rattle.um_question.specs.{Asked.{is_met}, Sound.{IsSoundQuestion}};
ghost use Rattle.um_trace.specs.Text.{text};
ghost use Rattle.um_explore.specs.{
  Met.{AreMet, AreRooms, IsUnknown, Leads, Shows},
  Questions.{IsFinding, Test},
};

use crate::finding::Finding;
use crate::met::Met;
use crate::rooms::{Rooms, rebuild};
use crate::search::{Asked, Outcome, search};
use crate::steps::push;
use std::alloc::Global;
use um_base::{Act, Event, Image, MOST_WEIGHT, OutOfMemory};
use um_matrix::{Matrix, NotAStep};
use um_question::{Question, meets};
use um_trace::{LINE_ROOM, text_room, trace_text};

/// How many buckets a search has at most for the states that it met.
pub(crate) const MOST_BUCKETS: usize = 131_072;

/// Goes on with a run until it is complete, if it comes to its end within so many steps, and says whether it did.
fn finish(state: &mut Matrix, run: &mut Vec<Event>) -> Result<bool, OutOfMemory>
    ensures run { IfOk result
        (λ _. (s : State) → Runs s run.old.items state.old → Runs s run.new.items state.new) }
    ensures more { IfOk result (λ _. (more : List Event) × (run.new.items ≡ run.old.items ++ more)) }
    ensures complete { IfOk result (λ ended. ended ≡ true → IsComplete state.new) }
{
    'steps: for _ in 0..MOST_WEIGHT {
        let event = match state.next_event() {
            None => return Ok(true),
            Some(event) => event,
        };
        match state.apply(&event) {
            Ok(()) => {}
            Err(NotAStep) => unreachable!(),
        }
        push(&event, run)?;
    }
    Ok(false)
}

/// The text of a run.
fn text_of(
    alloc: Global,
    image: &Image,
    run: &[Event],
    last: &Matrix,
) -> Result<Vec<u8>, OutOfMemory>
    requires few { length run.now ≤ 2 ^ 32 }
    ensures { IfOk result (λ bytes. bytes.items ≡ text image.now run.now last.now) }
{
    let mut bytes = Vec::with_capacity(alloc, text_room(run))?;
    trace_text(image, run, last.tables(), &mut bytes);
    Ok(bytes)
}

/// How many states were met and not looked at, where the search stopped at the state of a number.
fn unknown(met: &Met, from: usize) -> Finding
    ensures { IsUnknown result }
{
    let states = met.links.len().saturating_add(1);
    Finding::Unknown {
        states,
        unseen: states.saturating_sub(from),
    }
}

/// Shows a step from the state of a number, by the text of a complete run.
fn show(
    alloc: Global,
    image: &Image,
    rooms: &mut Rooms,
    met: &Met,
    number: usize,
    event: &Event,
) -> Result<Finding, OutOfMemory>
    requires are { AreMet image.now met.now.links.items }
    requires rooms { AreRooms image.now rooms.old }
    requires met { number ≤ length met.now.links.items }
    requires step { (s : State) → Leads image.now met.now.links.items number s → IsStep s event.now }
    ensures { IfOk result (λ finding. Shows image.now met.now.links.items number event.now finding) }
{
    let mut run = rebuild(
        alloc,
        image,
        &rooms.opens,
        &mut rooms.here,
        met.links.as_slice(),
        number,
    )?;
    match rooms.here.apply(event) {
        Ok(()) => {}
        Err(NotAStep) => unreachable!(),
    }
    push(event, &mut run)?;
    let ended = finish(&mut rooms.here, &mut run)?;
    if !ended {
        return Ok(unknown(met, number));
    }
    if run.as_slice().len() > 0xffff_ffff {
        return Ok(unknown(met, number));
    }
    Ok(Finding::Found(text_of(alloc, image, run.as_slice(), &rooms.here)?))
}

/// Shows that the opening comes to what is asked, by the text of a complete run.
fn show_opening(alloc: Global, image: &Image, state: &mut Matrix) -> Result<Finding, OutOfMemory>
    requires opens { state.old ≡ opening image.now }
    ensures { IfOk result (λ finding. (asked : Test) → IsTrue (asked None (opening image.now))
        → IsFinding image.now asked finding) }
{
    let mut run = Vec::new(alloc);
    let ended = finish(state, &mut run)?;
    if !ended || run.as_slice().len() > 0xffff_ffff {
        return Ok(Finding::Unknown {
            states: 1,
            unseen: 1,
        });
    }
    Ok(Finding::Found(text_of(alloc, image, run.as_slice(), state)?))
}

/// Searches all runs of an image whose opening doesn't come to what is asked.
fn searched(
    alloc: Global,
    asked: &Asked,
    rooms: &mut Rooms,
    room: &mut Vec<u8>,
) -> Result<Finding, OutOfMemory>
    requires described { IsDescribed asked.now.image.now }
    requires rooms { AreRooms asked.now.image.now rooms.old }
    requires few { asked.now.most < 2 ^ 32 }
    requires room { LINE_ROOM ≤ vec_capacity room.old }
    requires sound { IsSoundQuestion asked.now.question.now }
    requires opening { is_met asked.now.image.now asked.now.question.now None (opening asked.now.image.now) ≡ false }
    ensures { IfOk result (λ finding. IsFinding asked.now.image.now
        (is_met asked.now.image.now asked.now.question.now) finding) }
{
    let mut met = Met::new(alloc, asked.most.min(MOST_BUCKETS))?;
    match search(alloc, asked, rooms, &mut met, room)? {
        Outcome::Never => Ok(Finding::Never {
            states: met.links.len().saturating_add(1),
        }),
        Outcome::Full { from } => Ok(unknown(&met, from)),
        Outcome::Hit { number, event } => {
            let _act: &Act = &event.act;
            show(alloc, asked.image, rooms, &met, number, &event)
        }
    }
}

/// Whether any run comes to what is asked. One room has the opening.
fn found(
    alloc: Global,
    asked: &Asked,
    rooms: &mut Rooms,
    room: &mut Vec<u8>,
) -> Result<Finding, OutOfMemory>
    requires described { IsDescribed asked.now.image.now }
    requires rooms { AreRooms asked.now.image.now rooms.old }
    requires here { rooms.old.here ≡ opening asked.now.image.now }
    requires few { asked.now.most < 2 ^ 32 }
    requires room { LINE_ROOM ≤ vec_capacity room.old }
    requires sound { IsSoundQuestion asked.now.question.now }
    ensures { IfOk result (λ finding. IsFinding asked.now.image.now
        (is_met asked.now.image.now asked.now.question.now) finding) }
{
    if meets(asked.image, asked.question, None, rooms.here.tables(), room) {
        return show_opening(alloc, asked.image, &mut rooms.here);
    }
    searched(alloc, asked, rooms, room)
}

/// Whether any run of an image comes to what is asked. At most so many states are kept beside the opening; where that isn't enough, or the
/// run that would be shown is too long, it isn't known.
pub fn find(
    alloc: Global,
    image: &Image,
    question: &Question,
    most: usize,
) -> Result<Finding, OutOfMemory>
    requires lawful { IsLawful image.now }
    requires few { most < 2 ^ 32 }
    requires sound { IsSoundQuestion question.now }
    ensures { IfOk result (λ finding. IsFinding image.now (is_met image.now question.now) finding) }
{
    let _objects = image.objects.len();
    let asked = Asked {
        image,
        question,
        most,
    };
    let mut room = Vec::with_capacity(alloc, LINE_ROOM)?;
    let mut rooms = Rooms::boot(alloc, image)?;
    found(alloc, &asked, &mut rooms, &mut room)
}
