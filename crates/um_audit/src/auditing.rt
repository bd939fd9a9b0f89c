//! The audit of a text.

ghost use Rattle.std.specs.Prelude.{◌≡◌, ◌↔◌, ◌<◌, ◌≤◌, ◌+◌, ◌-◌, ◌^◌, ℕ, List, IfOk, length, vec_capacity};
ghost use Rattle.um_base.specs.Lawful.{IsLawful};
ghost use Rattle.um_machine.specs.Run.{opening};
ghost use Rattle.um_audit.specs.{
  Beginnings.{AreBeginnings},
  Verdict.{IsVerdict, IsTextOfRun},
  Progress.{IsAt, BeginsDump, Stopped},
};

use crate::dump::first_difference;
use crate::names::beginnings;
use crate::pieces::{first_line, is_dump};
use crate::steps::takes_line;
use crate::verdict::Verdict;
use std::alloc::Global;
use um_base::{Image, OutOfMemory};
use um_matrix::Matrix;
use um_trace::{DUMP_ROOM, LINE_ROOM, dump_text};

/// Where the lines of steps end.
enum Stop<'t> {
    /// After this many lines, at a line that is no step or is missing.
    NoStep { lines: usize },
    /// After this many lines, at a line `dump`, with which the rest of the text begins.
    Dump { lines: usize, rest: &'t [u8] },
}

/// Makes the steps of a text's lines, up to its first line `dump` or the first line that is no step.
fn follow<'t>(
    matrix: &mut Matrix,
    image: &Image,
    names: &[Vec<u8>],
    text: &'t [u8],
    room: &mut Vec<u8>,
) -> Stop<'t>
    requires opens { matrix.old ≡ opening image.now }
    requires names { AreBeginnings image.now names.now }
    requires room { LINE_ROOM ≤ vec_capacity room.old }
    ensures { Stopped image.now text.now result matrix.new }
{
    let mut rest = text;
    let mut lines = 0;
    while !rest.is_empty() {
        let (line, behind) = first_line(rest);
        if is_dump(line) {
            return Stop::Dump { lines, rest };
        }
        if !takes_line(matrix, image, names, line, room) {
            return Stop::NoStep { lines };
        }
        rest = behind;
        lines += 1;
    }
    Stop::NoStep { lines }
}

/// The verdict on a text whose lines before its line `dump` are steps.
fn ended(matrix: &Matrix, image: &Image, lines: usize, rest: &[u8], room: &mut Vec<u8>) -> Verdict
    requires room { DUMP_ROOM ≤ vec_capacity room.old }
    requires short { lines + length rest.now < 2 ^ 32 - 1 }
    ensures { (text : List ℕ) → IsAt image.now text rest.now lines matrix.now → BeginsDump rest.now
        → IsVerdict image.now text result }
{
    if !matrix.is_final() {
        return Verdict::NotComplete;
    }
    dump_text(image, matrix.tables(), room);
    match first_difference(rest, room) {
        None => Verdict::Yes,
        Some(more) => Verdict::NoDump {
            line: (lines + more + 1) as u32,
        },
    }
}

/// What is said of a text: whether it is that of a complete run of an image, and else its first line that isn't. All memory is taken
/// before the first line is read.
pub fn audit(alloc: Global, image: &Image, text: &[u8]) -> Result<Verdict, OutOfMemory>
    requires lawful { IsLawful image.now }
    requires short { length text.now < 2 ^ 32 - 1 }
    ensures verdict { IfOk result (λ verdict. IsVerdict image.now text.now verdict) }
    ensures exact { IfOk result (λ verdict. (verdict ≡ Verdict.Yes) ↔ IsTextOfRun image.now text.now) }
{
    let _objects = image.objects.len();
    let mut matrix = Matrix::boot(alloc, image)?;
    let names = beginnings(alloc, image)?;
    let mut room = Vec::with_capacity(alloc, LINE_ROOM)?;
    let mut dump = Vec::with_capacity(alloc, DUMP_ROOM)?;
    match follow(&mut matrix, image, &names, text, &mut room) {
        Stop::NoStep { lines } => Ok(Verdict::NoStep {
            line: (lines + 1) as u32,
        }),
        Stop::Dump { lines, rest } => Ok(ended(&matrix, image, lines, rest, &mut dump)),
    }
}
