//! The reader of a question's text.

ghost use Rattle.std.specs.Prelude.{◌≡◌, IfOk, IfSome};
ghost use Rattle.um_question.specs.{
  Forms.{words},
  Names.{place_named, row_named, thread_named},
  Sound.{IsSoundAsking},
};
ghost use Rattle.um_question.specs.Text as texts;

use crate::asking::Asking;
use crate::forms::first_word;
use crate::names::{row_named, thread_named};
use crate::places::place_named;
use crate::question::Question;
use crate::words::{is_act, is_star};
use std::alloc::Global;
use um_base::{Access, Image, OutOfMemory, Row, ThreadIx};

/// Asks for an access by a thread to a place.
fn asks_access(image: &Image, first: &[u8], access: Access, third: &[u8]) -> Asking
    ensures asked { result ≡
        texts.asks_access (thread_named image.now first.now) access (place_named image.now third.now) }
    ensures sound { IsSoundAsking result }
{
    match thread_named(image, first) {
        None => Asking::Unknown { word: 1 },
        Some(t) => match place_named(image, third) {
            None => Asking::Unknown { word: 3 },
            Some(range) => Asking::Is(Question::Accesses {
                thread: ThreadIx(t),
                access,
                range,
            }),
        },
    }
}

/// Asks for a permission of a thread on an object.
fn asks_holds(image: &Image, first: &[u8], third: &[u8]) -> Asking
    ensures asked { result ≡
        texts.asks_holds (thread_named image.now first.now) (row_named image.now third.now) }
    ensures sound { IsSoundAsking result }
{
    match thread_named(image, first) {
        None => Asking::Unknown { word: 1 },
        Some(t) => match row_named(image, third) {
            None => Asking::Unknown { word: 3 },
            Some(x) => Asking::Is(Question::Holds {
                thread: ThreadIx(t),
                row: Row(x),
            }),
        },
    }
}

/// Asks for a wait of a thread on an object.
fn asks_waits(image: &Image, first: &[u8], third: &[u8]) -> Asking
    ensures asked { result ≡
        texts.asks_waits (thread_named image.now first.now) (row_named image.now third.now) }
    ensures sound { IsSoundAsking result }
{
    match thread_named(image, first) {
        None => Asking::Unknown { word: 1 },
        Some(t) => match row_named(image, third) {
            None => Asking::Unknown { word: 3 },
            Some(x) => Asking::Is(Question::Waits {
                thread: ThreadIx(t),
                row: Row(x),
            }),
        },
    }
}

/// Asks for a fatal error of a thread.
fn asks_fails(image: &Image, first: &[u8]) -> Asking
    ensures asked { result ≡ texts.asks_fails (thread_named image.now first.now) }
    ensures sound { IsSoundAsking result }
{
    match thread_named(image, first) {
        None => Asking::Unknown { word: 1 },
        Some(t) => Asking::Is(Question::Fails {
            thread: ThreadIx(t),
        }),
    }
}

/// Asks whether an object is gone.
fn asks_gone(image: &Image, first: &[u8]) -> Asking
    ensures asked { result ≡ texts.asks_gone (row_named image.now first.now) }
    ensures sound { IsSoundAsking result }
{
    match row_named(image, first) {
        None => Asking::Unknown { word: 1 },
        Some(x) => Asking::Is(Question::Gone { row: Row(x) }),
    }
}

/// What two words ask, where they are a question in words.
fn of_two_words(image: &Image, first: &[u8], second: &[u8]) -> Option<Asking>
    ensures asked { result ≡ texts.of_two_words image.now first.now second.now }
    ensures sound { IfSome result IsSoundAsking }
{
    if second == "fails".as_bytes() {
        Some(asks_fails(image, first))
    } else if second == "gone".as_bytes() {
        Some(asks_gone(image, first))
    } else {
        None
    }
}

/// What three words ask, where they are a question in words.
fn of_three_words(image: &Image, first: &[u8], second: &[u8], third: &[u8]) -> Option<Asking>
    ensures asked { result ≡ texts.of_three_words image.now first.now second.now third.now }
    ensures sound { IfSome result IsSoundAsking }
{
    if second == "reads".as_bytes() {
        Some(asks_access(image, first, Access::Read, third))
    } else if second == "writes".as_bytes() {
        Some(asks_access(image, first, Access::Write, third))
    } else if second == "executes".as_bytes() {
        Some(asks_access(image, first, Access::Exec, third))
    } else if second == "holds".as_bytes() {
        Some(asks_holds(image, first, third))
    } else if second == "waits".as_bytes() {
        Some(asks_waits(image, first, third))
    } else {
        None
    }
}

/// What a text asks, where it is a question in words.
fn in_words(image: &Image, text: &[u8]) -> Option<Asking>
    ensures asked { result ≡ texts.in_words image.now (words text.now) }
    ensures sound { IfSome result IsSoundAsking }
{
    let (first, behind_first, two) = first_word(text);
    if !two {
        return None;
    }
    let (second, behind_second, three) = first_word(behind_first);
    if !three {
        return of_two_words(image, first, second);
    }
    let (third, _, four) = first_word(behind_second);
    if four {
        return None;
    }
    of_three_words(image, first, second, third)
}

/// Whether a word can stand first in a form.
fn is_acting(image: &Image, word: &[u8]) -> bool
    ensures { result ≡ texts.is_acting image.now word.now }
{
    is_star(word) || thread_named(image, word).is_some()
}

/// Which of the first two words of a form no trace line can have there.
fn form_fault(image: &Image, form: &[u8]) -> Option<u32>
    ensures { result ≡ texts.form_fault image.now (words form.now) }
{
    let (first, behind, more) = first_word(form);
    if !is_acting(image, first) {
        return Some(1);
    }
    if !more {
        return None;
    }
    let (second, _, _) = first_word(behind);
    if is_act(second) { None } else { Some(2) }
}

/// What a question's text asks, or which of its words, counted from 1, names nothing.
pub fn read_question(alloc: Global, image: &Image, text: &[u8]) -> Result<Asking, OutOfMemory>
    ensures asked { IfOk result (λ asking. texts.IsAsked image.now text.now asking) }
    ensures sound { IfOk result IsSoundAsking }
{
    match in_words(image, text) {
        Some(asking) => Ok(asking),
        None => match form_fault(image, text) {
            Some(word) => Ok(Asking::Unknown { word }),
            None => Ok(Asking::Is(Question::Form(Vec::from_slice(alloc, text)?))),
        },
    }
}
