//! The words that can stand second in a form.

ghost use Rattle.std.specs.{Prelude.{◌≡◌, bytes_eq}, List.{list_any}};
ghost use Rattle.um_question.specs.{Forms.{words}, Text.{is_act, is_star}};

use crate::forms::first_word;

/// The words that stand second in trace lines.
const EVENT_WORDS: &str =
    "begin check load store exec fault probe copyin copyout copystr erase act \
    arm tick timeout expire futex abort suspend continue cut killed join left resume reply grant own \
    inherit drop public setinit uninit name reserve born buffer unbuffer recycle domain start user \
    fatal doom exit";

/// Whether a word stands among those of a line.
fn stands_in(word: &[u8], line: &[u8]) -> bool
    ensures { result ≡ list_any (bytes_eq word.now) (words line.now) }
{
    let mut rest = line;
    loop {
        let (first, behind, more) = first_word(rest);
        if first == word {
            return true;
        }
        if !more {
            return false;
        }
        rest = behind;
    }
}

pub fn is_star(word: &[u8]) -> bool
    ensures { result ≡ is_star word.now }
{
    word == "*".as_bytes()
}

/// Whether a word can stand second in a form.
pub fn is_act(word: &[u8]) -> bool
    ensures { result ≡ is_act word.now }
{
    is_star(word) || stands_in(word, EVENT_WORDS.as_bytes())
}
