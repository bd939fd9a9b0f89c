//! Scripts, with the addresses and numbers of what their lines name.

ghost use Rattle.std.specs.{Prelude.{◌≡◌, ◌≤◌, ◌<◌, ◌++◌, IfOk, OnOk, All, length, map}, List.{flat_map}};
ghost use Rattle.um_base.specs.declared.limits.TheConstants.{DOMAINS, LINES, PARTITIONS, SCRIPTS};
ghost use Rattle.um_description.specs.Resolve.{option_list, read_line, script_of};

use crate::indexed::Indexed;
use crate::read::{ReadLine, ReadScript};
use crate::resolve::lines::resolved;
use std::alloc::Global;
use um_base::{BoundedVec, Image, Instr, LINES, OutOfMemory, SCRIPTS, Script};
use um_document::Description;

/// What a line says, with its names resolved, where it can be read.
fn resolved_line(image: &Image, d: &Indexed<'_>, line: &ReadLine<'_>) -> Option<Instr>
    requires domains { length d.now.domains ≤ DOMAINS }
    requires partitions { length d.now.partitions ≤ PARTITIONS }
    requires scripts { length d.now.scripts ≤ SCRIPTS }
    ensures { option_list result ≡ read_line image.now d.now line.now }
{
    match line.outcome() {
        Ok(instr) => Some(resolved(image, d, instr)),
        Err(_) => None,
    }
}

/// One more line at the end, where it can be read.
fn push_line(
    lines: &mut BoundedVec<Instr, LINES>,
    image: &Image,
    d: &Indexed<'_>,
    line: &ReadLine<'_>,
) -> Result<(), OutOfMemory>
    requires room { length lines.old < LINES }
    requires domains { length d.now.domains ≤ DOMAINS }
    requires partitions { length d.now.partitions ≤ PARTITIONS }
    requires scripts { length d.now.scripts ≤ SCRIPTS }
    ensures { OnOk result (lines.new ≡ lines.old ++ read_line image.now d.now line.now) }
{
    match resolved_line(image, d, line) {
        Some(instr) => Ok(lines.push_copy(&instr)?),
        None => Ok(()),
    }
}

/// The instructions of a script's lines.
fn lines(
    alloc: Global,
    image: &Image,
    d: &Indexed<'_>,
    read: &[ReadLine<'_>],
) -> Result<BoundedVec<Instr, LINES>, OutOfMemory>
    requires few { length read.now ≤ LINES }
    requires domains { length d.now.domains ≤ DOMAINS }
    requires partitions { length d.now.partitions ≤ PARTITIONS }
    requires scripts { length d.now.scripts ≤ SCRIPTS }
    ensures { IfOk result (λ all. all ≡ flat_map (read_line image.now d.now) read.now) }
{
    let mut all = BoundedVec::new(alloc);
    for line in read {
        push_line(&mut all, image, d, line)?;
    }
    Ok(all)
}

/// The scripts, with the addresses and numbers of what their lines name.
pub fn scripts(
    alloc: Global,
    image: &Image,
    d: &Description,
    read: &[ReadScript<'_>],
) -> Result<BoundedVec<Script, SCRIPTS>, OutOfMemory>
    requires read { read.now ≡ d.now.scripts }
    requires lines { All (λ s. length s.lines ≤ LINES) d.now.scripts }
    requires domains { length d.now.domains ≤ DOMAINS }
    requires partitions { length d.now.partitions ≤ PARTITIONS }
    requires scripts { length d.now.scripts ≤ SCRIPTS }
    ensures { IfOk result (λ all. all ≡ map (script_of image.now d.now) d.now.scripts) }
{
    let indexed = Indexed::new(alloc, d)?;
    let mut all = BoundedVec::new(alloc);
    for script in read {
        all.push(Script {
            name: script.entry().name,
            lines: lines(alloc, image, &indexed, script.lines())?,
        })?;
    }
    Ok(all)
}
