//! The order of scripts: a line names only those behind its own.

ghost use Rattle.std.specs.Prelude.{◌≡◌, ◌<◌, length};
ghost use Rattle.um_document.specs.First.{first_of};
ghost use Rattle.um_description.specs.Lines as spec;
ghost use Rattle.um_description.specs.Names as names;

use crate::first::first_found;
use crate::lines::line_place;
use crate::named::has_name;
use crate::read::{ReadLine, ReadScript};
use um_base::{Instr, Name, Ref};
use um_document::{Description, Place};

fn name_in(named: &Ref) -> Option<Name>
    ensures { result ≡ spec.name_in named.now }
{
    match named {
        Ref::Named(name) => Some(*name),
        Ref::At(_) => None,
    }
}

/// The name of the script that an instruction names.
fn script_in(instr: &Instr) -> Option<Name>
    ensures { result ≡ spec.script_in instr.now }
{
    match instr {
        Instr::Create { script, .. } => name_in(script),
        Instr::UserMode { script } => name_in(script),
        _ => None,
    }
}

/// The name of the script that a line names.
fn script_named(line: &ReadLine<'_>) -> Option<Name>
    ensures { result ≡ spec.script_named line.now }
{
    match line.outcome() {
        Ok(instr) => script_in(instr),
        Err(_) => None,
    }
}

/// A script that doesn't stand behind the one with this number.
fn is_misordered(d: &Description, script: usize, name: Option<Name>) -> bool
    requires { script < length d.now.scripts }
    ensures { result ≡ spec.is_misordered d.now script name }
{
    match name {
        Some(name) => {
            has_name(
                &d.scripts.as_slice()[..script + 1],
                |script| script.name,
                name.as_slice(),
            )
        },
        None => false,
    }
}

/// A line that names a script that doesn't stand behind its own.
#[tactic(auto, unfolding(crate::specs::Lines::misordered_at))]
fn misordered_line(
    d: &Description,
    script: usize,
    index: usize,
    line: &ReadLine<'_>,
) -> Option<Place>
    requires { script < length d.now.scripts }
    ensures { result ≡ first_of (spec.misordered_at d.now script index line.now) }
{
    if is_misordered(d, script, script_named(line)) {
        Some(line_place(script, index))
    } else {
        None
    }
}

/// The first such line of a script.
#[tactic(auto, unfolding(crate::specs::Lines::misordered_in))]
fn misordered_script(d: &Description, script: usize, lines: &[ReadLine<'_>]) -> Option<Place>
    requires { script < length d.now.scripts }
    ensures { result ≡ first_of (spec.misordered_in d.now script lines.now) }
{
    first_found(lines, |index, line| misordered_line(d, script, index, line))
}

/// The first line of a description that names a script that doesn't stand behind its own.
pub fn first_misordered(d: &Description, scripts: &[ReadScript<'_>]) -> Option<Place>
    requires { scripts.now ≡ d.now.scripts }
    ensures { result ≡ first_of (names.each (spec.misordered_script d.now) 0 d.now.scripts) }
{
    first_found(
        scripts,
        |index, script| misordered_script(d, index, script.lines()),
    )
}
