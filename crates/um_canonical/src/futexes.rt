//! Futexes.

ghost use Rattle.std.specs.{Prelude.{◌≡◌, ◌++◌, OnOk}, List.{flat_map}};
ghost use Rattle.um_canonical.specs.Pieces.{futex_text};

use crate::names::name_at;
use crate::pairs::{put_header, put_number, put_text};
use um_base::{Futex, Name, OutOfMemory};
use um_document::Key;

fn put_futex(text: &mut Vec<u8>, partitions: &[Name], futex: &Futex) -> Result<(), OutOfMemory>
    ensures { OnOk result (text.new.items ≡ text.old.items ++ futex_text partitions.now futex.now) }
{
    put_header(text, Key::Futex)?;
    put_text(text, Key::Name, futex.name.as_slice())?;
    put_text(
        text,
        Key::Partition,
        name_at(partitions, futex.partition).as_slice(),
    )?;
    put_number(text, Key::Offset, futex.offset)
}

/// The futexes. A partition has the name of its number.
pub fn put_futexes(
    text: &mut Vec<u8>,
    partitions: &[Name],
    futexes: &[Futex],
) -> Result<(), OutOfMemory>
    ensures { OnOk result (text.new.items ≡ text.old.items ++ flat_map (futex_text partitions.now) futexes.now) }
{
    for futex in futexes {
        put_futex(text, partitions, futex)?;
    }
    Ok(())
}
