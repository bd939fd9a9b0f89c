//! What words name: objects and threads.

ghost use Rattle.std.specs.Prelude.{◌≡◌, ◌<◌, IfSome};
ghost use Rattle.um_base.specs.declared.limits.TheConstants.{ROWS, STATIC_ROWS, THREADS};
ghost use Rattle.um_question.specs.Names as names;

use itoa::Buffer;
use um_base::{Image, ROWS, STATIC_ROWS, THREADS};
use um_steps::rows::thread_of_row;

/// The row of the static object with this name.
fn static_named(image: &Image, word: &[u8]) -> Option<usize>
    ensures value { result ≡ names.static_named image.now word.now }
    ensures small { IfSome result (λ x. x < STATIC_ROWS) }
{
    image
        .objects
        .as_slice()
        .iter()
        .position(|o| word == o.name.as_slice())
}

/// Whether a word is the name of the dynamic object of a row.
fn is_dynamic_name(word: &[u8], row: usize) -> bool
    ensures { result ≡ names.is_dynamic_name word.now row }
{
    let mut buffer = Buffer::new();
    let digits = buffer.format(row.saturating_sub(STATIC_ROWS)).as_bytes();
    match word {
        [b'#', rest @ ..] => rest == digits,
        _ => false,
    }
}

/// The row of the dynamic object with this name.
fn dynamic_named(word: &[u8]) -> Option<usize>
    ensures value { result ≡ names.dynamic_named word.now }
    ensures small { IfSome result (λ x. x < ROWS) }
{
    (STATIC_ROWS..ROWS).find(|row| is_dynamic_name(word, *row))
}

/// The row of the object that a word names.
pub fn row_named(image: &Image, word: &[u8]) -> Option<u8>
    ensures value { result ≡ names.row_named image.now word.now }
    ensures small { IfSome result (λ x. x < ROWS) }
{
    match static_named(image, word) {
        Some(x) => Some(x as u8),
        None => match dynamic_named(word) {
            Some(x) => Some(x as u8),
            None => None,
        },
    }
}

/// The index of a thread, if there can be one.
fn thread_index(t: usize) -> Option<u8>
    ensures value { result ≡ names.thread_index t }
    ensures small { IfSome result (λ t. t < THREADS) }
{
    if t < THREADS { Some(t as u8) } else { None }
}

/// The thread that a word names.
pub fn thread_named(image: &Image, word: &[u8]) -> Option<u8>
    ensures value { result ≡ names.thread_named image.now word.now }
    ensures small { IfSome result (λ t. t < THREADS) }
{
    match row_named(image, word) {
        Some(x) => match thread_of_row(image, x as usize) {
            Some(t) => thread_index(t),
            None => None,
        },
        None => None,
    }
}
