//! Scripts.

ghost use Rattle.std.specs.{Prelude.{◌≡◌, ◌++◌, true, OnOk}, List.{flat_map}};
ghost use Rattle.um_canonical.specs.{
  Pieces.{pair_text},
  Sections.{texts_pair},
  Tables.{script_by, shown_line, shown_lines},
};
ghost use Rattle.um_document.specs.declared.shape.Key.{Key};
ghost use Rattle.um_canonical.specs.Printed.{before, items_text, quoted};

use crate::lines::put_shown;
use crate::names::NameTable;
use crate::pairs::{put, put_before, put_header, put_key, put_text};
use um_base::{Instr, OutOfMemory, Script};
use um_document::Key;

/// A line in its list.
fn put_item(
    text: &mut Vec<u8>,
    names: &NameTable,
    line: &Instr,
    is_first: bool,
) -> Result<(), OutOfMemory>
    ensures { OnOk result (text.new.items ≡ text.old.items ++ (before is_first ++ quoted (shown_line names.now line.now))) }
{
    put_before(text, is_first)?;
    put(text, b"\"")?;
    put_shown(text, names, line)?;
    put(text, b"\"")
}

/// Lines, up to the end of their list.
fn put_lines(text: &mut Vec<u8>, names: &NameTable, lines: &[Instr]) -> Result<(), OutOfMemory>
    ensures { OnOk result (text.new.items ≡ text.old.items ++ items_text true (shown_lines names.now lines.now)) }
{
    let mut is_first = true;
    for line in lines {
        put_item(text, names, line, is_first)?;
        is_first = false;
    }
    put(text, b"]")
}

/// The list of a script's lines.
fn put_list(text: &mut Vec<u8>, names: &NameTable, lines: &[Instr]) -> Result<(), OutOfMemory>
    ensures { OnOk result (text.new.items ≡ text.old.items ++ pair_text (texts_pair Key.Lines (shown_lines names.now lines.now))) }
{
    put_key(text, Key::Lines)?;
    put(text, b"[")?;
    put_lines(text, names, lines)?;
    put(text, b"\n")
}

fn put_script(text: &mut Vec<u8>, names: &NameTable, script: &Script) -> Result<(), OutOfMemory>
    ensures { OnOk result (text.new.items ≡ text.old.items ++ script_by names.now script.now) }
{
    put_header(text, Key::Script)?;
    put_text(text, Key::Name, script.name.as_slice())?;
    put_list(text, names, script.lines.as_slice())
}

/// The scripts, with the names of what their lines number.
pub fn put_scripts(
    text: &mut Vec<u8>,
    names: &NameTable,
    scripts: &[Script],
) -> Result<(), OutOfMemory>
    ensures { OnOk result (text.new.items ≡ text.old.items ++ flat_map (script_by names.now) scripts.now) }
{
    for script in scripts {
        put_script(text, names, script)?;
    }
    Ok(())
}
