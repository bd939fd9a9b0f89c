//! Keys that mean nothing at their places.

ghost use Rattle.std.specs.Prelude.{◌≡◌, ℕ, List, flat_map, option_map, IfOk};
ghost use Rattle.toml.specs.{Data.{Data, as_table}, View.{view, items_view, array_view, table_view}};
ghost use Rattle.um_document.specs.{First.{first_of}, Parts.{each_item}};
ghost use Rattle.um_document.specs.Unknown as unknown;

use crate::place::{key_spot, variable_spot};
use crate::shape::{
    Field, Key, Section, any_kind_fields, kind_fields, top_fields, variable_fields,
};
use crate::spot::Spot;
use crate::tables::{items_at, kind_of, sections};
use std::alloc::Global;
use toml::value::Array;
use toml::{Table, Value};
use um_base::OutOfMemory;

/// A spot, where one is found.
type FoundSpot = Result<Option<Spot>, OutOfMemory>;

/// Whether one of the keys is written so.
fn is_key(fields: &[Field], text: &str) -> bool
    ensures { result ≡ unknown.is_key fields.now text.now }
{
    fields.iter().any(|field| text == field.0.word())
}

/// The first key of a table that stands in neither list.
fn stray<'a>(table: &'a Table, fields: &[Field], further: &[Field]) -> Option<&'a str>
    ensures { option_map (λ key. key.now) result ≡ first_of (unknown.strays fields.now further.now (table_view table.now)) }
{
    'keys: for (key, _value) in table.iter() {
        let text = key.as_str();
        if !is_key(fields, text) && !is_key(further, text) {
            return Some(text);
        }
    }
    None
}

/// The first of such keys below some items, each with its number counted from 0.
fn stray_at_items<F: Fn(usize, &Value) -> FoundSpot>(items: &[Value], find: F) -> FoundSpot
    requires { F.IsAlwaysCallable find }
    ensures { (f : ℕ → Data → List (List ℕ)) → ((i : ℕ) (item : _) (found : _) → F.post find i item found → IfOk found (λ found. found ≡ first_of (f i (view item.now)))) → IfOk result (λ found. found ≡ first_of (each_item f 0 (items_view items.now))) }
{
    for (index, item) in items.iter().enumerate() {
        let found = find(index, item)?;
        if found.is_some() {
            return Ok(found);
        }
    }
    Ok(None)
}

/// The further keys that may stand in an entry: in an object those of its kind, and of any kind where it has none.
fn known_further(section: Section, table: &Table) -> &'static [Field]
    ensures { result.now ≡ unknown.known_further section (table_view table.now) }
{
    match section {
        Section::Object => kind_of(table).map_or(any_kind_fields(), kind_fields),
        _ => &[],
    }
}

/// The first key of a variable that means nothing there.
fn stray_of_variable(alloc: Global, partition: usize, index: usize, value: &Value) -> FoundSpot
    ensures { IfOk result (λ found. found ≡ first_of (unknown.strays_of_variable partition index (view value.now))) }
{
    match value.as_table() {
        Some(table) => match stray(table, variable_fields(), &[]) {
            Some(key) => Ok(Some(variable_spot(alloc, partition, index, key)?)),
            None => Ok(None),
        },
        None => Ok(None),
    }
}

/// The first such key of a partition's variables.
fn stray_of_variables(alloc: Global, partition: usize, items: &Array) -> FoundSpot
    ensures { IfOk result (λ found. found ≡ first_of (each_item (unknown.strays_of_variable partition) 0 (array_view items.now))) }
{
    stray_at_items(
        items.as_slice(),
        |index, item| stray_of_variable(alloc, partition, index, item),
    )
}

/// The first such key below an entry, in its variables.
#[tactic(auto, unfolding(crate::specs::Unknown::strays_below))]
fn stray_below(alloc: Global, section: Section, entry: usize, table: &Table) -> FoundSpot
    ensures { IfOk result (λ found. found ≡ first_of (unknown.strays_below section entry (table_view table.now))) }
{
    if section != Section::PackedPartition {
        return Ok(None);
    }
    match items_at(table, Key::Vars) {
        Some(items) => stray_of_variables(alloc, entry, items),
        None => Ok(None),
    }
}

/// The first such key of an entry's own.
#[tactic(auto, unfolding(crate::specs::Unknown::own_strays))]
fn own_stray(alloc: Global, section: Section, entry: usize, table: &Table) -> FoundSpot
    ensures { IfOk result (λ found. found ≡ first_of (unknown.own_strays section entry (table_view table.now))) }
{
    match stray(table, section.fields(), known_further(section, table)) {
        Some(key) => Ok(Some(key_spot(alloc, section, entry, key)?)),
        None => Ok(None),
    }
}

/// The first key of an entry, or of its variables, that means nothing there.
fn stray_of_table(alloc: Global, section: Section, entry: usize, table: &Table) -> FoundSpot
    ensures { IfOk result (λ found. found ≡ first_of (unknown.strays_of_entry section entry (table_view table.now))) }
{
    let found = own_stray(alloc, section, entry, table)?;
    if found.is_some() {
        return Ok(found);
    }
    stray_below(alloc, section, entry, table)
}

/// The first such key of an entry.
fn stray_of_entry(alloc: Global, section: Section, entry: usize, value: &Value) -> FoundSpot
    ensures { IfOk result (λ found. found ≡ first_of (unknown.strays_of_table section entry (as_table (view value.now)))) }
{
    match value.as_table() {
        Some(table) => stray_of_table(alloc, section, entry, table),
        None => Ok(None),
    }
}

/// The first such key of some entries.
fn stray_of_entries(alloc: Global, section: Section, items: &Array) -> FoundSpot
    ensures { IfOk result (λ found. found ≡ first_of (unknown.strays_of_entries section 0 (array_view items.now))) }
{
    stray_at_items(
        items.as_slice(),
        |index, item| stray_of_entry(alloc, section, index, item),
    )
}

/// The first such key of a section.
fn stray_of_section(alloc: Global, table: &Table, section: Section) -> FoundSpot
    ensures { IfOk result (λ found. found ≡ first_of (unknown.strays_of_section (table_view table.now) section)) }
{
    match items_at(table, section.key()) {
        Some(items) => stray_of_entries(alloc, section, items),
        None => Ok(None),
    }
}

/// The first such key of some sections.
fn stray_of_sections(alloc: Global, table: &Table, sections: &[Section]) -> FoundSpot
    ensures { IfOk result (λ found. found ≡ first_of (flat_map (unknown.strays_of_section (table_view table.now)) sections.now)) }
{
    for section in sections {
        let found = stray_of_section(alloc, table, *section)?;
        if found.is_some() {
            return Ok(found);
        }
    }
    Ok(None)
}

/// The first such key at the top.
#[tactic(auto, unfolding(crate::specs::Unknown::strays_at_top))]
fn stray_at_top(alloc: Global, table: &Table) -> FoundSpot
    ensures { IfOk result (λ found. found ≡ first_of (unknown.strays_at_top (table_view table.now))) }
{
    match stray(table, top_fields(), &[]) {
        Some(key) => Ok(Some(Spot::of_text(alloc, key)?)),
        None => Ok(None),
    }
}

/// The place of the first key of a document that means nothing there.
#[tactic(auto, unfolding(crate::specs::Unknown::strays_of_sections))]
pub fn first_unknown(alloc: Global, table: &Table) -> FoundSpot
    ensures { IfOk result (λ found. found ≡ first_of (unknown.unknown_keys (table_view table.now))) }
{
    let found = stray_at_top(alloc, table)?;
    if found.is_some() {
        return Ok(found);
    }
    stray_of_sections(alloc, table, sections(table))
}
