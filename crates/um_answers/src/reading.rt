//! Which command the words are.

ghost use Rattle.std.specs.Prelude.{◌≡◌, ◌≤◌, ◌-◌, ◌^◌, map, string_bytes, IfSome};
ghost use Rattle.um_answers.specs.Words as spec;

use crate::command::Command;
use crate::numbers::states_number;

/// How many states are kept at most, where no word says it.
const USUAL_STATES: u32 = 4_000_000;

/// How many states an option says, with the word behind it.
fn option(name: &str, word: &str) -> Option<u32>
    ensures states { result ≡ spec.option_of name.now word.now }
    ensures few { IfSome result (λ n. n ≤ 2 ^ 32 - 1) }
{
    match name {
        "--states" => states_number(word),
        _ => None,
    }
}

/// How many states are kept at most.
fn states(words: &[String]) -> Option<u32>
    ensures states { result ≡ spec.states_of (map string_bytes words.now) }
    ensures few { IfSome result (λ n. n ≤ 2 ^ 32 - 1) }
{
    match words {
        [] => Some(USUAL_STATES),
        [name, word] => option(name.as_str(), word.as_str()),
        _ => None,
    }
}

/// `find`, with what is asked and its option.
fn find(words: &[String]) -> Option<Command>
    ensures command { result ≡ spec.find_of (map string_bytes words.now) }
    ensures few { IfSome result spec.HasFew }
{
    match words {
        [] => None,
        [_, rest @ ..] => {
            let states = states(rest)?;
            Some(Command::Find { states })
        }
    }
}

/// `ends`, with its option.
fn ends(words: &[String]) -> Option<Command>
    ensures command { result ≡ spec.ends_of (map string_bytes words.now) }
    ensures few { IfSome result spec.HasFew }
{
    let states = states(words)?;
    Some(Command::Ends { states })
}

/// `next`, with no words behind it.
fn next(words: &[String]) -> Option<Command>
    ensures command { result ≡ spec.next_of (map string_bytes words.now) }
    ensures few { IfSome result spec.HasFew }
{
    match words {
        [] => Some(Command::Next),
        _ => None,
    }
}

/// The command that the program's words are, its own name left out.
pub fn read_command(words: &[String]) -> Option<Command>
    ensures command { result ≡ spec.command_of (map string_bytes words.now) }
    ensures few { IfSome result spec.HasFew }
{
    match words {
        [] => None,
        [name, rest @ ..] => match name.as_str() {
            "find" => find(rest),
            "ends" => ends(rest),
            "next" => next(rest),
            _ => None,
        },
    }
}

/// What is asked: the word behind `find`.
pub fn event(words: &[String]) -> &[u8]
    ensures { result.now ≡ spec.event_in (map string_bytes words.now) }
{
    match words {
        [_, event, ..] => event.as_bytes(),
        _ => &[],
    }
}
