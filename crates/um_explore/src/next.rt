//! The lines that can come next.

ghost use Rattle.std.specs.Prelude.{◌≡◌, ◌<◌, ◌≤◌, ◌-◌, ◌^◌, IfOk, IfSome, length, vec_capacity};
ghost use Rattle.um_base.specs.Lawful.{IsLawful};
ghost use Rattle.um_machine.specs.Run.{opening};
ghost use Rattle.um_explore.specs.{Following.{Followed, FollowsLine, IsFirstOf}, Questions.{IsNextOf, lines}};

use crate::steps::steps_of;
use std::alloc::Global;
use um_base::{Event, Image, OutOfMemory};
use um_matrix::{Matrix, NotAStep};
use um_trace::{LINE_ROOM, line_text};

/// What can come next in a text that is cut off behind a line.
#[derive(Drop)]
pub enum Next {
    /// These lines.
    Lines(Vec<u8>),
    /// This line of the text, counted from 1, is no step, or lacks its newline.
    NoStep { line: u32 },
}

/// Which of some events has the line that comes first in a text. That line is left in the room.
fn first_of(image: &Image, events: &[Event], rest: &[u8], room: &mut Vec<u8>) -> Option<Event>
    requires room { LINE_ROOM ≤ vec_capacity room.old }
    ensures first { IsFirstOf image.now events.now rest.now room.new.items result }
    ensures capacity { vec_capacity room.old ≤ vec_capacity room.new }
{
    for event in events {
        line_text(image, event, room);
        if rest.starts_with(room.as_slice()) {
            return Some(*event);
        }
    }
    None
}

/// Makes the step whose line comes first in a text, and says how many bytes that line has.
fn follow_line(
    matrix: &mut Matrix,
    image: &Image,
    rest: &[u8],
    events: &mut Vec<Event>,
    room: &mut Vec<u8>,
) -> Result<Option<usize>, OutOfMemory>
    requires room { LINE_ROOM ≤ vec_capacity room.old }
    ensures follows { IfOk result (λ bytes. FollowsLine image.now rest.now matrix.old matrix.new bytes) }
    ensures capacity { vec_capacity room.old ≤ vec_capacity room.new }
{
    steps_of(matrix.tables(), events)?;
    match first_of(image, events, rest, room) {
        None => Ok(None),
        Some(event) => match matrix.apply(&event) {
            Ok(()) => Ok(Some(room.as_slice().len())),
            Err(NotAStep) => unreachable!(),
        },
    }
}

/// Makes the steps of a text's lines, up to the first line that is no step: then it says how many lines stand before.
fn follow(
    matrix: &mut Matrix,
    image: &Image,
    text: &[u8],
    events: &mut Vec<Event>,
    room: &mut Vec<u8>,
) -> Result<Option<usize>, OutOfMemory>
    requires opens { matrix.old ≡ opening image.now }
    requires short { length text.now < 2 ^ 32 - 1 }
    requires room { LINE_ROOM ≤ vec_capacity room.old }
    ensures follows { IfOk result (λ stop. Followed image.now text.now matrix.new stop) }
    ensures few { IfOk result (λ stop. IfSome stop (λ count. count ≤ length text.now)) }
    ensures capacity { vec_capacity room.old ≤ vec_capacity room.new }
{
    let mut rest = text;
    let mut count = 0;
    while !rest.is_empty() {
        match follow_line(matrix, image, rest, events, room)? {
            None => return Ok(Some(count)),
            Some(n) => {
                rest = rest.split_at(n).1;
                count += 1;
            }
        }
    }
    Ok(None)
}

/// The lines of events, one after another.
fn lines_of(
    alloc: Global,
    image: &Image,
    events: &[Event],
    room: &mut Vec<u8>,
) -> Result<Vec<u8>, OutOfMemory>
    requires room { LINE_ROOM ≤ vec_capacity room.old }
    ensures { IfOk result (λ text. text.items ≡ lines image.now events.now) }
{
    let mut text = Vec::new(alloc);
    for event in events {
        line_text(image, event, room);
        text.extend_from_slice(room.as_slice())?;
    }
    Ok(text)
}

/// The lines that can come next, where a text is that of the first steps of a run of an image: the line of each step that the machine
/// offers then, and no other.
pub fn next_lines(alloc: Global, image: &Image, text: &[u8]) -> Result<Next, OutOfMemory>
    requires lawful { IsLawful image.now }
    requires short { length text.now < 2 ^ 32 - 1 }
    ensures { IfOk result (λ answer. IsNextOf image.now text.now answer) }
{
    let _objects = image.objects.len();
    let mut matrix = Matrix::boot(alloc, image)?;
    let mut events = Vec::new(alloc);
    let mut room = Vec::with_capacity(alloc, LINE_ROOM)?;
    match follow(&mut matrix, image, text, &mut events, &mut room)? {
        Some(count) => Ok(Next::NoStep {
            line: (count + 1) as u32,
        }),
        None => {
            steps_of(matrix.tables(), &mut events)?;
            Ok(Next::Lines(lines_of(alloc, image, &events, &mut room)?))
        }
    }
}
