//! What stands at the keys of a table.

ghost use Rattle.std.specs.Prelude.{◌≡◌, option_map};
ghost use Rattle.toml.specs.{Data.{as_array}, View.{view, array_view, table_view}};
ghost use Rattle.um_document.specs.Parts as parts;

use crate::forms::text_of;
use crate::shape::{FIRST_SECTIONS, Key, Need, SECOND_SECTIONS, Section};
use toml::value::Array;
use toml::{Table, Value};
use um_base::Kind;
use um_vocabulary::kind_named;

/// The value at a key.
pub fn value_at(table: &Table, key: Key) -> Option<&Value>
    ensures { option_map (λ v. view v.now) result ≡ parts.value_at key (table_view table.now) }
{
    table.get(key.word())
}

/// The array at a key.
pub fn items_at(table: &Table, key: Key) -> Option<&Array>
    ensures { option_map (λ a. array_view a.now) result ≡ parts.◌>>=◌ (parts.value_at key (table_view table.now)) as_array }
{
    match value_at(table, key) {
        Some(value) => value.as_array(),
        None => None,
    }
}

/// Whether the document's `version` is this integer.
pub fn has_version(table: &Table, version: i64) -> bool
    ensures { result ≡ parts.has_version version (table_view table.now) }
{
    match value_at(table, Key::Version) {
        Some(Value::Integer(number)) => *number == version,
        _ => false,
    }
}

/// The sections of a document, in their order: those of its version.
pub fn sections(table: &Table) -> &'static [Section]
    ensures { result.now ≡ parts.sections (table_view table.now) }
{
    if has_version(table, 2) {
        SECOND_SECTIONS
    } else {
        FIRST_SECTIONS
    }
}

/// Whether a key has to be there.
pub fn is_needed(table: &Table, need: Need) -> bool
    ensures { result ≡ parts.is_needed need (table_view table.now) }
{
    match need {
        Need::Required => true,
        Need::Optional => false,
        Need::With(key) => value_at(table, key).is_some(),
    }
}

/// The kind of an object, where its `kind` is a kind's word.
pub fn kind_of(table: &Table) -> Option<Kind>
    ensures { result ≡ parts.kind_of (table_view table.now) }
{
    match value_at(table, Key::Kind) {
        Some(value) => match text_of(value) {
            Some(text) => kind_named(text),
            None => None,
        },
        None => None,
    }
}
