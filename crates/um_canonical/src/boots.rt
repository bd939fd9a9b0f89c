//! Boot entries.

ghost use Rattle.std.specs.{Prelude.{◌≡◌, ◌++◌, true, map, option_map, OnOk}, List.{flat_map}};
ghost use Rattle.um_canonical.specs.{
  Entries.{row_names},
  Named.{name_at},
  Objects.{number_pair, text_pair},
  Pieces.{pair_text, pairs_text, rows_text},
  Sections.{pool_pairs, grant_pairs},
  Tables.{boot_by},
};
ghost use Rattle.um_document.specs.declared.shape.Key.{Key};
ghost use Rattle.um_canonical.specs.Printed.{items_text};

use crate::names::{NameTable, name_at};
use crate::pairs::{put, put_header, put_item, put_key, put_signed, put_text};
use um_base::{Boot, Name, OutOfMemory, Row};
use um_document::Key;
use um_vocabulary::mode_word;

/// A key with the name of a number.
fn put_named(text: &mut Vec<u8>, key: Key, names: &[Name], index: u8) -> Result<(), OutOfMemory>
    ensures { OnOk result (text.new.items ≡ text.old.items ++ pair_text (text_pair key (name_at names.now index))) }
{
    put_text(text, key, name_at(names, index).as_slice())
}

/// The name of a thread's resource pool, where it has one.
fn put_pool(text: &mut Vec<u8>, pools: &[Name], pool: Option<u8>) -> Result<(), OutOfMemory>
    ensures { OnOk result (text.new.items ≡ text.old.items ++ pairs_text (pool_pairs (option_map (name_at pools.now) pool))) }
{
    match pool {
        Some(number) => put_named(text, Key::Pool, pools, number),
        None => Ok(()),
    }
}

/// The names of objects, up to the end of their list.
fn put_names(text: &mut Vec<u8>, objects: &[Name], rows: &[Row]) -> Result<(), OutOfMemory>
    ensures { OnOk result (text.new.items ≡ text.old.items ++ items_text true (row_names objects.now rows.now)) }
{
    let mut is_first = true;
    for row in rows {
        put_item(text, name_at(objects, row.0).as_slice(), is_first)?;
        is_first = false;
    }
    put(text, b"]")
}

/// A list of objects.
#[tactic(auto, unfolding(crate::specs::Pieces::rows_text))]
fn put_rows(text: &mut Vec<u8>, objects: &[Name], rows: &[Row]) -> Result<(), OutOfMemory>
    ensures { OnOk result (text.new.items ≡ text.old.items ++ rows_text objects.now rows.now) }
{
    put_key(text, Key::Grants)?;
    put(text, b"[")?;
    put_names(text, objects, rows)?;
    put(text, b"\n")
}

/// The objects that a thread has the permission for, where there are any.
#[tactic(auto, unfolding(crate::specs::Pieces::rows_text))]
fn put_grants(text: &mut Vec<u8>, objects: &[Name], rows: &[Row]) -> Result<(), OutOfMemory>
    ensures { OnOk result (text.new.items ≡ text.old.items ++ pairs_text (grant_pairs (row_names objects.now rows.now))) }
{
    if rows.is_empty() {
        return Ok(());
    }
    put_rows(text, objects, rows)
}

/// The key `priority`.
fn put_priority(text: &mut Vec<u8>, boot: &Boot) -> Result<(), OutOfMemory>
    ensures { OnOk result (text.new.items ≡ text.old.items ++ pair_text (number_pair Key.Priority boot.now.priority)) }
{
    put_signed(text, Key::Priority, boot.priority)
}

fn put_boot(text: &mut Vec<u8>, names: &NameTable, boot: &Boot) -> Result<(), OutOfMemory>
    ensures { OnOk result (text.new.items ≡ text.old.items ++ boot_by names.now boot.now) }
{
    put_header(text, Key::Boot)?;
    put_named(text, Key::Thread, &names.objects, boot.thread.0)?;
    put_named(text, Key::Stack, &names.objects, boot.stack.0)?;
    put_named(text, Key::Script, &names.scripts, boot.script)?;
    put_priority(text, boot)?;
    put_named(text, Key::Domain, &names.domains, boot.domain)?;
    put_text(text, Key::Mode, mode_word(boot.mode))?;
    put_pool(text, &names.pools, boot.pool)?;
    put_grants(text, &names.objects, boot.grants.as_slice())
}

/// The threads that are ready from the beginning, in their order.
pub fn put_boots(text: &mut Vec<u8>, names: &NameTable, boots: &[Boot]) -> Result<(), OutOfMemory>
    ensures { OnOk result (text.new.items ≡ text.old.items ++ flat_map (boot_by names.now) boots.now) }
{
    for boot in boots {
        put_boot(text, names, boot)?;
    }
    Ok(())
}
