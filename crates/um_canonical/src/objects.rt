//! Kernel objects.

ghost use Rattle.std.specs.{Prelude.{◌≡◌, ◌++◌, OnOk}, List.{flat_map}};
ghost use Rattle.um_canonical.specs.{
  Entries.{details_by},
  Objects.{details_pairs},
  Pieces.{object_text, pairs_text},
};

use crate::pairs::{put_header, put_number, put_text, put_truth};
use um_base::{Kind, ObjectDef, OutOfMemory, Setup};
use um_document::Key;
use um_vocabulary::kind_word;

/// What an object of this kind has beside its name.
fn put_details(text: &mut Vec<u8>, kind: Kind, setup: &Setup) -> Result<(), OutOfMemory>
    ensures { OnOk result (text.new.items ≡ text.old.items ++ pairs_text (details_pairs (details_by kind setup.now))) }
{
    match (kind, setup) {
        (Kind::ThreadStack, Setup::ThreadStack { declared, .. }) => {
            put_number(text, Key::Size, *declared)
        }
        (Kind::ThreadStack, _) => put_number(text, Key::Size, 0),
        (Kind::Sem, Setup::Sem { count, limit }) => {
            put_number(text, Key::Count, *count)?;
            put_number(text, Key::Limit, *limit)
        }
        (Kind::Mutex, Setup::Mutex) => put_truth(text, Key::Init, true),
        (Kind::Msgq, Setup::Msgq { msg_size, max_msgs }) => {
            put_number(text, Key::MsgSize, *msg_size)?;
            put_number(text, Key::MaxMsgs, *max_msgs)
        }
        (Kind::Stack, Setup::Stack { entries }) => put_number(text, Key::Entries, *entries),
        (Kind::Pipe, Setup::Pipe { size }) => put_number(text, Key::Size, *size),
        _ => Ok(()),
    }
}

fn put_object(text: &mut Vec<u8>, object: &ObjectDef) -> Result<(), OutOfMemory>
    ensures { OnOk result (text.new.items ≡ text.old.items ++ object_text object.now) }
{
    put_header(text, Key::Object)?;
    put_text(text, Key::Name, object.name.as_slice())?;
    put_text(text, Key::Kind, kind_word(object.kind))?;
    put_truth(text, Key::Public, object.public)?;
    put_details(text, object.kind, &object.setup)
}

/// The objects.
pub fn put_objects(text: &mut Vec<u8>, objects: &[ObjectDef]) -> Result<(), OutOfMemory>
    ensures { OnOk result (text.new.items ≡ text.old.items ++ flat_map object_text objects.now) }
{
    for object in objects {
        put_object(text, object)?;
    }
    Ok(())
}
