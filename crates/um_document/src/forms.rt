//! What a value is, and whether it is what its key asks for.

ghost use Rattle.std.specs.{Prelude.{◌≡◌, option_map, is_none}, List.{list_all}};
ghost use Rattle.toml.specs.{Data.{as_str, as_integer}, View.{view}};
ghost use Rattle.um_document.specs.Forms as forms;
ghost use Rattle.um_document.specs.Words.{alignment_of};

use crate::shape::Form;
use crate::words::{alignment_of, is_word};
use toml::Value;
use um_vocabulary::is_name;

/// The bytes of a text.
pub fn text_of(value: &Value) -> Option<&[u8]>
    ensures { option_map (λ s. s.now) result ≡ as_str (view value.now) }
{
    match value.as_str() {
        Some(text) => Some(text.as_bytes()),
        None => None,
    }
}

fn is_hex_digit(byte: u8) -> bool
    ensures { result ≡ forms.is_hex_digit byte }
{
    matches!(byte, b'0'..=b'9') || matches!(byte, b'a'..=b'f')
}

fn are_hex_digits(bytes: &[u8]) -> bool
    ensures { result ≡ list_all forms.is_hex_digit bytes.now }
{
    bytes.iter().all(|byte| is_hex_digit(*byte))
}

/// Whether these are an even number of lower-case hexadecimal digits.
fn is_hexadecimal(bytes: &[u8]) -> bool
    ensures { result ≡ forms.is_hexadecimal bytes.now }
{
    bytes.len() % 2 == 0 && are_hex_digits(bytes)
}

fn has_digits(value: &Value) -> bool
    ensures { result ≡ forms.is_some_and forms.is_hexadecimal (as_str (view value.now)) }
{
    match text_of(value) {
        Some(text) => is_hexadecimal(text),
        None => false,
    }
}

/// Whether the value has this form.
pub fn has_form(form: Form, value: &Value) -> bool
    ensures { result ≡ forms.has_form form (view value.now) }
{
    match form {
        Form::Number | Form::Alignment => value.is_integer(),
        Form::Truth => value.is_bool(),
        Form::Name | Form::Word(_) | Form::Text => value.is_str(),
        Form::Digits => has_digits(value),
        Form::Texts | Form::Tables | Form::Variables => value.is_array(),
        Form::Table => value.is_table(),
    }
}

/// Whether the value is a number that is no alignment's.
fn is_no_alignment(value: &Value) -> bool
    ensures { result ≡ forms.is_some_and (λ z. is_none (alignment_of z)) (as_integer (view value.now)) }
{
    match value.as_integer() {
        Some(number) => alignment_of(number).is_none(),
        None => false,
    }
}

/// Whether the value is a text that is no lawful name, or none of the words that may stand there, or a number that is
/// no alignment's.
pub fn is_bad_name(form: Form, value: &Value) -> bool
    ensures { result ≡ forms.is_bad_name form (view value.now) }
{
    match (form, text_of(value)) {
        (Form::Name, Some(text)) => !is_name(text),
        (Form::Word(choice), Some(text)) => !is_word(choice, text),
        (Form::Alignment, _) => is_no_alignment(value),
        _ => false,
    }
}
