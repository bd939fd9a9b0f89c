//! The parts of a document, one after the other, held to what has to stand there.

ghost use Rattle.std.specs.Prelude.{◌≡◌, ◌++◌, ℕ, List, Option, map, flat_map, option_map};
ghost use Rattle.toml.specs.{Data.{Data}, View.{view, items_view, array_view, table_view}};
ghost use Rattle.um_document.specs.{
  declared.place.Place.{Place},
  Broken.{breaks},
  First.{first_place},
  Parts.{Part},
};
ghost use Rattle.um_document.specs.Parts as parts;
ghost use Rattle.um_document.specs.Shape as shape;

use crate::forms::{has_form, is_bad_name};
use crate::place::Place;
use crate::shape::{Field, Form, Key, Section, kind_fields, top_fields, variable_fields};
use crate::tables::{is_needed, items_at, kind_of, sections, value_at};
use toml::value::Array;
use toml::{Table, Value};

/// What is looked for.
#[derive(Clone, Copy)]
pub enum Check {
    /// What has to be there and isn't.
    Missing,
    /// What hasn't its form.
    WrongType,
    /// A text that is no lawful name, or none of the words that may stand there, or a number that is no alignment's.
    BadName,
}

/// Whether a part fails the check, by its form, whether something has to be there, and what is.
fn breaks(check: Check, form: Form, needed: bool, value: Option<&Value>) -> bool
    ensures { result ≡ breaks check form needed (option_map (λ v. view v.now) value.entry) }
{
    match (check, value) {
        (Check::Missing, None) => needed,
        (Check::WrongType, Some(value)) => !has_form(form, value),
        (Check::BadName, Some(value)) => is_bad_name(form, value),
        _ => false,
    }
}

/// Whether a key of a table fails the check.
fn breaks_at(check: Check, table: &Table, field: Field) -> bool
    ensures { result ≡ breaks check field.1 (parts.is_needed field.2 (table_view table.now)) (parts.value_at field.0 (table_view table.now)) }
{
    breaks(
        check,
        field.1,
        is_needed(table, field.2),
        value_at(table, field.0),
    )
}

/// The first of what fails at some items, each with its number counted from 0.
fn broken_at_items<F: Fn(usize, &Value) -> Option<Place>>(items: &[Value], find: F) -> Option<Place>
    requires { F.IsAlwaysCallable find }
    ensures { (check : Check) (f : ℕ → Data → List Part) → ((i : ℕ) (item : _) (found : Option Place) → F.post find i item found → found ≡ first_place check (f i (view item.now))) → result ≡ first_place check (parts.each_item f 0 (items_view items.now)) }
{
    for (index, item) in items.iter().enumerate() {
        if let Some(found) = find(index, item) {
            return Some(found);
        }
    }
    None
}

/// The first of what fails among some keys or sections.
fn broken_among<T, F: Fn(&T) -> Option<Place>>(all: &[T], find: F) -> Option<Place>
    requires { F.IsAlwaysCallable find }
    ensures { (check : Check) (f : T → List Part) → ((one : _) (found : Option Place) → F.post find one found → found ≡ first_place check (f one.now)) → result ≡ first_place check (flat_map f all.now) }
{
    for one in all {
        if let Some(found) = find(one) {
            return Some(found);
        }
    }
    None
}

/// The first key at the top that fails.
#[tactic(auto, unfolding(crate::specs::Parts::top_parts))]
fn broken_top(check: Check, table: &Table) -> Option<Place>
    ensures { result ≡ first_place check (parts.top_parts (table_view table.now)) }
{
    for field in top_fields() {
        if breaks_at(check, table, *field) {
            return Some(Place::Top(field.0));
        }
    }
    None
}

/// The first item of a list of texts that fails.
fn broken_item(
    check: Check,
    section: Section,
    entry: usize,
    key: Key,
    items: &Array,
) -> Option<Place>
    ensures { result ≡ first_place check (parts.item_parts section entry key 0 (array_view items.now)) }
{
    let mut index = 0usize;
    for item in items {
        if breaks(check, Form::Text, true, Some(item)) {
            return Some(Place::Item(section, entry, key, index));
        }
        index += 1;
    }
    None
}

/// The first key of a variable that fails.
#[tactic(auto, unfolding(crate::specs::Parts::variable_keys))]
fn broken_variable_key(check: Check, partition: usize, index: usize, table: &Table) -> Option<Place>
    ensures { result ≡ first_place check (parts.variable_keys partition index (table_view table.now)) }
{
    for field in variable_fields() {
        if breaks_at(check, table, *field) {
            return Some(Place::Variable(partition, index, field.0));
        }
    }
    None
}

/// A variable, or the first of its keys, that fails.
fn broken_variable(check: Check, partition: usize, index: usize, value: &Value) -> Option<Place>
    ensures { result ≡ first_place check (parts.variable_parts partition index (view value.now)) }
{
    if breaks(check, Form::Table, true, Some(value)) {
        return Some(Place::Item(Section::PackedPartition, partition, Key::Vars, index));
    }
    match value.as_table() {
        Some(table) => broken_variable_key(check, partition, index, table),
        None => None,
    }
}

/// The first of a partition's variables that fails.
fn broken_variables(check: Check, partition: usize, items: &Array) -> Option<Place>
    ensures { result ≡ first_place check (parts.each_item (parts.variable_parts partition) 0 (array_view items.now)) }
{
    broken_at_items(
        items.as_slice(),
        |index, item| broken_variable(check, partition, index, item),
    )
}

/// A key of an entry, or the first item of its list, that fails.
fn broken_field(
    check: Check,
    section: Section,
    entry: usize,
    table: &Table,
    field: Field,
) -> Option<Place>
    ensures { result ≡ first_place check (parts.field_parts section entry (table_view table.now) field) }
{
    if breaks_at(check, table, field) {
        return Some(Place::Field(section, entry, field.0));
    }
    match field.1 {
        Form::Texts => match items_at(table, field.0) {
            Some(items) => broken_item(check, section, entry, field.0, items),
            None => None,
        },
        Form::Variables => match items_at(table, field.0) {
            Some(items) => broken_variables(check, entry, items),
            None => None,
        },
        _ => None,
    }
}

/// The first of some keys of an entry, or of the items of their lists, that fails.
fn broken_fields(
    check: Check,
    section: Section,
    entry: usize,
    table: &Table,
    fields: &[Field],
) -> Option<Place>
    ensures { result ≡ first_place check (flat_map (parts.field_parts section entry (table_view table.now)) fields.now) }
{
    broken_among(
        fields,
        |field| broken_field(check, section, entry, table, *field),
    )
}

/// The keys that an entry has beside those of each entry: an object has those of its kind.
fn further_fields(section: Section, table: &Table) -> &'static [Field]
    ensures { result.now ≡ parts.further_fields section (table_view table.now) }
{
    match section {
        Section::Object => kind_of(table).map_or(&[], kind_fields),
        _ => &[],
    }
}

/// The first key of an entry that fails.
fn broken_key(check: Check, section: Section, entry: usize, table: &Table) -> Option<Place>
    ensures { result ≡ first_place check (parts.key_parts section entry (table_view table.now)) }
{
    let found = broken_fields(check, section, entry, table, section.fields());
    if found.is_some() {
        return found;
    }
    broken_fields(check, section, entry, table, further_fields(section, table))
}

/// An entry, or the first of its keys, that fails.
fn broken_entry(check: Check, section: Section, entry: usize, value: &Value) -> Option<Place>
    ensures { result ≡ first_place check (parts.entry_parts section entry (view value.now)) }
{
    if breaks(check, Form::Table, true, Some(value)) {
        return Some(Place::Entry(section, entry));
    }
    match value.as_table() {
        Some(table) => broken_key(check, section, entry, table),
        None => None,
    }
}

/// The first of some entries that fails.
fn broken_entries(check: Check, section: Section, items: &Array) -> Option<Place>
    ensures { result ≡ first_place check (parts.entries_parts section 0 (array_view items.now)) }
{
    broken_at_items(
        items.as_slice(),
        |index, item| broken_entry(check, section, index, item),
    )
}

/// The first part of a section that fails.
fn broken_section(check: Check, table: &Table, section: Section) -> Option<Place>
    ensures { result ≡ first_place check (parts.section_parts (table_view table.now) section) }
{
    match items_at(table, section.key()) {
        Some(items) => broken_entries(check, section, items),
        None => None,
    }
}

/// The first part of some sections that fails.
fn broken_sections(check: Check, table: &Table, sections: &[Section]) -> Option<Place>
    ensures { result ≡ first_place check (flat_map (parts.section_parts (table_view table.now)) sections.now) }
{
    broken_among(sections, |section| broken_section(check, table, *section))
}

/// The first part of a document that fails the check.
pub fn broken(check: Check, table: &Table) -> Option<Place>
    ensures { result ≡ first_place check (parts.parts (table_view table.now)) }
{
    let found = broken_top(check, table);
    if found.is_some() {
        return found;
    }
    broken_sections(check, table, sections(table))
}
