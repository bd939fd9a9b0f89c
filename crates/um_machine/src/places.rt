//! Places in scripts.

ghost use Rattle.std.specs.{
  Prelude.{◌≡◌, ◌+◌, ◌-◌, ◌<◌, ◌≤◌, ◌^◌, is_some, length, slice_get, IsTrue},
  Option.{option_copied},
};
ghost use Rattle.um_machine.specs.State.{script_lines, instruction_at, is_repeat, repeat_before, past_end, into_repeat, settled, first_place, next_place};

use crate::thread::Place;
use um_base::{Image, Instr};

/// A line of a script.
fn line_at(image: &Image, script: u8, line: usize) -> Option<&Instr>
    ensures value { option_copied result ≡ slice_get (script_lines image.now script) line }
    ensures inside { IsTrue (is_some result) → line < 1000 }
{
    match image.scripts.as_slice().get(script as usize) {
        Some(script) => script.lines.as_slice().get(line),
        None => None,
    }
}

/// Whether a line is a repeat.
fn is_repeat(image: &Image, script: u8, line: usize) -> bool
    ensures { result ≡ is_repeat (slice_get (script_lines image.now script) line) }
{
    match line_at(image, script, line) {
        Some(Instr::Repeat { .. }) => true,
        _ => false,
    }
}

/// The line of the last repeat before this line.
#[tactic(auto, using(crate::proofs::PlaceLemmas::repeat_before_pred))]
fn repeat_before(image: &Image, script: u8, line: u16) -> u16
    ensures value { result ≡ repeat_before (script_lines image.now script) line }
    ensures before { result ≤ line }
{
    let mut at = line;
    while at > 0 {
        if is_repeat(image, script, at as usize - 1) {
            return at - 1;
        }
        at -= 1;
    }
    0
}

/// From an end back to the first line of its repeat, where turns are left, and else past it.
fn past_end(image: &Image, place: Place) -> Place
    ensures { result ≡ past_end (script_lines image.now place.script) place (slice_get (script_lines image.now place.script) place.line) }
{
    match line_at(image, place.script, place.line as usize) {
        Some(Instr::End) => {
            if place.left <= 1 {
                Place {
                    script: place.script,
                    line: place.line + 1,
                    left: 0,
                }
            } else {
                Place {
                    script: place.script,
                    line: repeat_before(image, place.script, place.line) + 1,
                    left: place.left - 1,
                }
            }
        }
        _ => place,
    }
}

/// From a repeat to its first line.
fn into_repeat(image: &Image, place: Place) -> Place
    ensures { result ≡ into_repeat place (slice_get (script_lines image.now place.script) place.line) }
{
    match line_at(image, place.script, place.line as usize) {
        Some(Instr::Repeat { times }) => Place {
            script: place.script,
            line: place.line + 1,
            left: *times,
        },
        _ => place,
    }
}

/// The first line at or after this place that makes a step.
fn settled(image: &Image, place: Place) -> Place
    ensures { result ≡ settled (script_lines image.now place.script) place }
{
    into_repeat(image, past_end(image, place))
}

/// The first place of a script.
pub fn first_place(image: &Image, script: u8) -> Place
    ensures { result ≡ first_place image.now script }
{
    settled(
        image,
        Place {
            script,
            line: 0,
            left: 0,
        },
    )
}

/// The instruction at a place, or none after the last line.
pub fn instruction_at(image: &Image, place: Place) -> Option<&Instr>
    ensures value { option_copied result ≡ instruction_at image.now place }
    ensures inside { IsTrue (is_some result) → place.line < 1000 }
{
    line_at(image, place.script, place.line as usize)
}

/// The place after the instruction at this one.
pub fn next_place(image: &Image, place: Place) -> Place
    ensures { result ≡ next_place image.now place }
{
    match line_at(image, place.script, place.line as usize) {
        Some(_) => settled(
            image,
            Place {
                script: place.script,
                line: place.line + 1,
                left: place.left,
            },
        ),
        None => place,
    }
}

/// How many lines of its script a place has behind it, itself included.
pub fn lines_behind(image: &Image, place: Place) -> usize
    ensures value { result ≡ length (script_lines image.now place.script) - place.line }
    ensures few { result ≤ 1000 }
{
    match image.scripts.as_slice().get(place.script as usize) {
        Some(script) => script.lines.len().saturating_sub(place.line as usize),
        None => 0,
    }
}
