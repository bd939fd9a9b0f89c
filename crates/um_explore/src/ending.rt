//! How runs can end.

ghost use Rattle.std.specs.Prelude.{◌≡◌, ◌≤◌, ◌<◌, ◌++◌, ◌^◌, ℕ, List, [], Some, IfOk, IfNone, length, slice_get, string_bytes, vec_capacity};
ghost use Rattle.std.specs.List.{flat_map};
ghost use Rattle.um_base.specs.{Lawful.{IsLawful}, declared.image.Image.{Image}};
ghost use Rattle.um_invariants.specs.Described.{IsDescribed};
ghost use Rattle.um_question.specs.declared.question.Question.TheVariants as Question;
ghost use Rattle.um_explore.specs.{
  Ends.{AreTold, Ending, HaveAllWays, IsEndings, IsToldOf, ending_text, endings_text, has_part, heading, run_line, somebody_waits, waiting_text},
  Met.{AreLayered, AreMet, AreRooms, IsTree},
  declared.ways.Way.{Way},
};

use crate::all_runs::MOST_BUCKETS;
use crate::endings::Endings;
use crate::met::{Link, Met, path};
use crate::rooms::Rooms;
use crate::search::{Asked, Expanded, expand};
use crate::ways::{Way, Ways};
use std::alloc::Global;
use um_base::{Event, Image, OutOfMemory};
use um_question::Question;
use um_trace::{LINE_ROOM, THREADS_ROOM, line_text};

/// Whether a text has a part.
fn has_part(part: &[u8], text: &[u8]) -> bool
    ensures { result ≡ has_part part.now text.now }
{
    match text {
        [] => false,
        [_, rest @ ..] => text.starts_with(part) || has_part(part, rest),
    }
}

/// Whether a thread waits for good, where this is shown of an end.
#[tactic(auto, unfolding(crate::specs::Ends::somebody_waits))]
fn somebody_waits(text: &[u8]) -> bool
    ensures { result ≡ somebody_waits text.now }
{
    has_part("waits:".as_bytes(), text)
}

/// What is said of an end where a thread waits for good.
fn waiting_text(waits: bool) -> &'static str
    ensures { result.now ≡ waiting_text waits }
{
    if waits {
        ", a thread waits for good"
    } else {
        ""
    }
}

/// What is said of an end.
#[tactic(auto, unfolding(crate::specs::Ends::heading))]
fn heading(
    alloc: Global,
    number: usize,
    states: usize,
    count: usize,
    waits: bool,
) -> Result<String, OutOfMemory>
    ensures { IfOk result (λ line. string_bytes line ≡ heading number states count waits) }
{
    let waiting = waiting_text(waits);
    Ok(format!(in alloc; "end {number}: {states} states, {count} events{waiting}\n")?)
}

/// Adds the lines of a run, each behind two spaces.
fn add_run(
    image: &Image,
    events: &[Event],
    text: &mut Vec<u8>,
    room: &mut Vec<u8>,
) -> Result<(), OutOfMemory>
    requires room { LINE_ROOM ≤ vec_capacity room.old }
    ensures text { IfOk result (λ _. text.new.items ≡ text.old.items ++ flat_map (run_line image.now) events.now) }
    ensures capacity { vec_capacity room.old ≤ vec_capacity room.new }
{
    for event in events {
        line_text(image, event, room);
        text.extend_from_slice("  ".as_bytes())?;
        text.extend_from_slice(room.as_slice())?;
    }
    Ok(())
}

/// Adds the text of an end: which one it is, in how many states, how the threads stand, and the shortest run that leads there.
fn add_ending(
    alloc: Global,
    image: &Image,
    links: &[Link],
    way: &Way,
    k: usize,
    states: usize,
    text: &mut Vec<u8>,
    room: &mut Vec<u8>,
) -> Result<(), OutOfMemory>
    requires tree { IsTree links.now }
    requires met { way.now.number ≤ length links.now }
    requires few { k < 2 ^ 62 }
    requires room { LINE_ROOM ≤ vec_capacity room.old }
    ensures text { IfOk result (λ _. (ending : Ending) × IsToldOf links.now way.now ending
        × (text.new.items ≡ text.old.items ++ ending_text image.now k ending)) }
    ensures capacity { vec_capacity room.old ≤ vec_capacity room.new }
{
    let events = path(alloc, links, way.number)?;
    let waits = somebody_waits(way.text.as_slice());
    let line = heading(alloc, k + 1, states, events.as_slice().len(), waits)?;
    text.extend_from_slice(line.as_bytes())?;
    text.extend_from_slice(way.text.as_slice())?;
    add_run(image, events.as_slice(), text, room)?;
    Ok(())
}

/// In how many states runs end in the way of a number.
fn count_at(counts: &[usize], i: usize) -> usize {
    match counts.get(i) {
        Some(count) => *count,
        None => 0,
    }
}

/// The text of all ways to end.
fn text_of(
    alloc: Global,
    image: &Image,
    links: &[Link],
    ways: &Ways,
    room: &mut Vec<u8>,
) -> Result<Vec<u8>, OutOfMemory>
    requires tree { IsTree links.now }
    requires met { (i : ℕ) (way : Way) → slice_get ways.now.ways.items i ≡ Some way → way.number ≤ length links.now }
    requires few { length ways.now.ways.items < 2 ^ 62 }
    requires room { LINE_ROOM ≤ vec_capacity room.old }
    ensures { IfOk result (λ text. (endings : List Ending) × AreTold links.now ways.now.ways.items endings
        × (length endings ≡ length ways.now.ways.items) × (text.items ≡ endings_text image.now 0 endings)) }
{
    let mut text = Vec::new(alloc);
    for (k, way) in ways.ways.as_slice().iter().enumerate() {
        let states = count_at(&ways.counts, k);
        add_ending(alloc, image, links, way, k, states, &mut text, room)?;
    }
    Ok(text)
}

/// How many states were met.
fn states_of(met: &Met) -> usize {
    met.links.len().saturating_add(1)
}

/// Looks at all states that runs reach, and finds the ways in which runs end: whether it came to all.
fn find_ways(
    alloc: Global,
    asked: &Asked,
    rooms: &mut Rooms,
    met: &mut Met,
    ways: &mut Ways,
    room: &mut Vec<u8>,
) -> Result<Option<usize>, OutOfMemory>
    requires rooms { AreRooms asked.now.image.now rooms.old }
    requires described { IsDescribed asked.now.image.now }
    requires nothing { asked.now.question.now ≡ Question.Nothing }
    requires opening { met.old.links.items ≡ [] }
    requires none { ways.old.ways.items ≡ [] }
    requires few { asked.now.most < 2 ^ 32 }
    requires line { LINE_ROOM ≤ vec_capacity room.old }
    requires room { THREADS_ROOM ≤ vec_capacity room.old }
    ensures are { IfOk result (λ _. AreMet asked.now.image.now met.new.links.items) }
    ensures layered { IfOk result (λ _. AreLayered met.new.links.items) }
    ensures few { IfOk result (λ _. length met.new.links.items ≤ asked.now.most) }
    ensures all { IfOk result (λ stop. IfNone stop (HaveAllWays asked.now.image.now met.new.links.items ways.new.ways.items)) }
    ensures capacity { vec_capacity room.old ≤ vec_capacity room.new }
{
    let mut events = Vec::new(alloc);
    let mut k = 0;
    while k <= met.links.as_slice().len() {
        match expand(alloc, asked, rooms, met, k, &mut events, room)? {
            Expanded::Done => {}
            Expanded::Last => {
                ways.add(alloc, asked.image, rooms, met.links.as_slice(), k, room)?
            }
            Expanded::Hit(_) => unreachable!(),
            Expanded::Full => return Ok(Some(k)),
        }
        k += 1;
    }
    Ok(None)
}

/// The ways in which runs end, told or not known.
fn told(
    alloc: Global,
    asked: &Asked,
    rooms: &mut Rooms,
    met: &mut Met,
    ways: &mut Ways,
    room: &mut Vec<u8>,
) -> Result<Endings, OutOfMemory>
    requires rooms { AreRooms asked.now.image.now rooms.old }
    requires described { IsDescribed asked.now.image.now }
    requires nothing { asked.now.question.now ≡ Question.Nothing }
    requires opening { met.old.links.items ≡ [] }
    requires none { ways.old.ways.items ≡ [] }
    requires few { asked.now.most < 2 ^ 32 }
    requires line { LINE_ROOM ≤ vec_capacity room.old }
    requires room { THREADS_ROOM ≤ vec_capacity room.old }
    ensures { IfOk result (λ endings. IsEndings asked.now.image.now endings) }
{
    if let Some(from) = find_ways(alloc, asked, rooms, met, ways, room)? {
        let states = states_of(met);
        return Ok(Endings::Unknown {
            states,
            unseen: states.saturating_sub(from),
        });
    }
    if ways.ways.as_slice().len() > 0xffff_ffff {
        let states = states_of(met);
        return Ok(Endings::Unknown {
            states,
            unseen: states,
        });
    }
    let text = text_of(alloc, asked.image, met.links.as_slice(), ways, room)?;
    Ok(Endings::Ends(text))
}

/// How the runs of an image can end. At most so many states are kept beside the opening; where that isn't enough, it isn't known.
pub fn ends(alloc: Global, image: &Image, most: usize) -> Result<Endings, OutOfMemory>
    requires lawful { IsLawful image.now }
    requires few { most < 2 ^ 32 }
    ensures { IfOk result (λ endings. IsEndings image.now endings) }
{
    let _objects = image.objects.len();
    let question = Question::Nothing;
    let asked = Asked {
        image,
        question: &question,
        most,
    };
    let mut met = Met::new(alloc, most.min(MOST_BUCKETS))?;
    let mut ways = Ways::new(alloc);
    let mut room = Vec::with_capacity(alloc, THREADS_ROOM)?;
    let mut rooms = Rooms::boot(alloc, image)?;
    told(alloc, &asked, &mut rooms, &mut met, &mut ways, &mut room)
}
