//! Texts, lists of texts, and bytes.

ghost use Rattle.std.specs.Prelude.{◌≡◌, ◌≤◌, IfOk, option_map};
ghost use Rattle.toml.specs.View.{view, array_view, table_view};
ghost use Rattle.um_document.specs.Forms as forms;
ghost use Rattle.um_document.specs.Reading as reading;

use crate::forms::text_of;
use crate::sequence::{Sequence, Text};
use crate::shape::Key;
use crate::tables::{items_at, value_at};
use std::alloc::Global;
use toml::value::Array;
use toml::{Table, Value};
use um_base::{Name, OutOfMemory};

/// The bytes at a key.
pub fn text_given(table: &Table, key: Key) -> Option<&[u8]>
    ensures { option_map (λ s. s.now) result ≡ reading.text_given key (table_view table.now) }
{
    match value_at(table, key) {
        Some(value) => text_of(value),
        None => None,
    }
}

/// The bytes at a key, or none.
pub fn text_at(table: &Table, key: Key) -> &[u8]
    ensures { result.now ≡ reading.text_at key (table_view table.now) }
{
    match text_given(table, key) {
        Some(text) => text,
        None => &[],
    }
}

/// The name of an entry.
pub fn name_at(table: &Table) -> Name
    ensures { result ≡ reading.name_at (table_view table.now) }
{
    let text = text_at(table, Key::Name);
    if text.len() <= 24 {
        Name::from_bytes(text)
    } else {
        Name::new()
    }
}

/// The number at a key.
pub fn number_given(table: &Table, key: Key) -> Option<i64>
    ensures { result ≡ reading.number_given key (table_view table.now) }
{
    match value_at(table, key) {
        Some(value) => value.as_integer(),
        None => None,
    }
}

/// The number at a key, or 0.
pub fn number_at(table: &Table, key: Key) -> i64
    ensures { result ≡ reading.number_at key (table_view table.now) }
{
    number_given(table, key).unwrap_or(0)
}

/// The truth value at a key, or false.
pub fn truth_at(table: &Table, key: Key) -> bool
    ensures { result ≡ reading.truth_at key (table_view table.now) }
{
    match value_at(table, key) {
        Some(Value::Boolean(truth)) => *truth,
        _ => false,
    }
}

/// A copy of the bytes at a key, or none.
pub fn copy_at(alloc: Global, table: &Table, key: Key) -> Result<Text, OutOfMemory>
    ensures { IfOk result (λ text. text ≡ reading.text_at key (table_view table.now)) }
{
    Text::of_bytes(alloc, text_at(table, key))
}

/// A copy of the bytes at a key.
pub fn copy_given(alloc: Global, table: &Table, key: Key) -> Result<Option<Text>, OutOfMemory>
    ensures { IfOk result (λ text. text ≡ reading.text_given key (table_view table.now)) }
{
    match text_given(table, key) {
        Some(text) => Ok(Some(Text::of_bytes(alloc, text)?)),
        None => Ok(None),
    }
}

/// A copy of a text.
fn copy(alloc: Global, value: &Value) -> Result<Text, OutOfMemory>
    ensures { IfOk result (λ text. text ≡ reading.text_in (view value.now)) }
{
    match text_of(value) {
        Some(text) => Text::of_bytes(alloc, text),
        None => Ok(Text::new(alloc)),
    }
}

/// Copies of some texts.
fn copies(alloc: Global, items: &Array) -> Result<Sequence<Text>, OutOfMemory>
    ensures { IfOk result (λ texts. texts ≡ reading.texts_of (array_view items.now)) }
{
    let mut texts = Sequence::new(alloc);
    for item in items {
        texts.push(copy(alloc, item)?)?;
    }
    Ok(texts)
}

/// Copies of the texts at a key.
pub fn copies_given(
    alloc: Global,
    table: &Table,
    key: Key,
) -> Result<Option<Sequence<Text>>, OutOfMemory>
    ensures { IfOk result (λ texts. texts ≡ reading.texts_given key (table_view table.now)) }
{
    match items_at(table, key) {
        Some(items) => Ok(Some(copies(alloc, items)?)),
        None => Ok(None),
    }
}

/// Copies of the texts at a key, or none.
pub fn copies_at(alloc: Global, table: &Table, key: Key) -> Result<Sequence<Text>, OutOfMemory>
    ensures { IfOk result (λ texts. texts ≡ reading.texts_at key (table_view table.now)) }
{
    match items_at(table, key) {
        Some(items) => copies(alloc, items),
        None => Ok(Sequence::new(alloc)),
    }
}

fn digit_value(byte: u8) -> u8
    ensures value { result ≡ forms.digit_value byte }
    ensures small { result ≤ 15 }
{
    match byte {
        b'0'..=b'9' => byte - b'0',
        b'a'..=b'f' => byte - b'a' + 10,
        _ => 0,
    }
}

/// The bytes that pairs of hexadecimal digits spell.
fn decoded(alloc: Global, digits: &[u8]) -> Result<Text, OutOfMemory>
    ensures { IfOk result (λ bytes. bytes ≡ forms.decoded digits.now) }
{
    let mut bytes = Text::new(alloc);
    let mut rest = digits;
    'pairs: loop {
        match rest {
            [high, low, others @ ..] => {
                bytes.push(16 * digit_value(*high) + digit_value(*low))?;
                rest = others;
            }
            _ => return Ok(bytes),
        }
    }
}

/// The bytes that the digits at a key spell, or none.
pub fn bytes_at(alloc: Global, table: &Table, key: Key) -> Result<Text, OutOfMemory>
    ensures { IfOk result (λ bytes. bytes ≡ reading.bytes_at key (table_view table.now)) }
{
    decoded(alloc, text_at(table, key))
}

/// The bytes that the digits at a key spell, where it is there.
pub fn bytes_given(alloc: Global, table: &Table, key: Key) -> Result<Option<Text>, OutOfMemory>
    ensures { IfOk result (λ bytes. bytes ≡ reading.bytes_given key (table_view table.now)) }
{
    match text_given(table, key) {
        Some(digits) => Ok(Some(decoded(alloc, digits)?)),
        None => Ok(None),
    }
}
