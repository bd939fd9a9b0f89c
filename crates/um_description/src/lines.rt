//! Script lines that can't be read.

ghost use Rattle.std.specs.Prelude.{◌≡◌};
ghost use Rattle.um_document.specs.First.{first_of};
ghost use Rattle.um_description.specs.Lines as spec;
ghost use Rattle.um_description.specs.Names as names;

use crate::first::first_found;
use crate::flaw::Flaw;
use crate::read::{ReadLine, ReadScript};
use um_document::{Key, Place, Section};

/// The place of a line.
pub fn line_place(script: usize, line: usize) -> Place
    ensures { result ≡ spec.line_place script line }
{
    Place::Item(Section::Script, script, Key::Lines, line)
}

/// What is wrong with a line.
#[tactic(auto, unfolding(crate::specs::Lines::unread_at))]
fn unread(script: usize, index: usize, line: &ReadLine<'_>) -> Option<Flaw>
    ensures { result ≡ first_of (spec.unread_at script index line.now) }
{
    match line.outcome() {
        Ok(_) => None,
        Err(fault) => Some(Flaw::Line {
            kind: fault.kind,
            place: line_place(script, index),
            column: fault.column,
        }),
    }
}

/// The first line of a script that can't be read.
#[tactic(auto, unfolding(crate::specs::Lines::unread_in))]
fn unread_line(script: usize, lines: &[ReadLine<'_>]) -> Option<Flaw>
    ensures { result ≡ first_of (spec.unread_in script lines.now) }
{
    first_found(lines, |index, line| unread(script, index, line))
}

/// The first line of some scripts that can't be read.
pub fn first_unread(scripts: &[ReadScript<'_>]) -> Option<Flaw>
    ensures { result ≡ first_of (names.each spec.unread_lines 0 scripts.now) }
{
    first_found(scripts, |index, script| unread_line(index, script.lines()))
}
