//! Which command the words are.

ghost use Rattle.std.specs.Prelude.{◌≡◌, map, string_bytes, IfSome};
ghost use Rattle.um_command.specs.Words as spec;
ghost use Rattle.um_command.specs.Reading as reading;

use crate::command::{Command, Options};
use crate::numbers::number;

/// The options that have been read.
#[derive(Clone, Copy)]
struct Given {
    cpus: Option<u8>,
    pick: Option<u64>,
}

fn with_cpus(given: Given, word: &str) -> Option<Given>
    ensures { result ≡ reading.with_cpus given (spec.number 1 8 word.now) }
{
    if given.cpus.is_some() {
        return None;
    }
    let cpus = number(1, 8, word)?;
    Some(Given {
        cpus: Some(cpus as u8),
        pick: given.pick,
    })
}

fn with_pick(given: Given, word: &str) -> Option<Given>
    ensures { result ≡ reading.with_pick given (spec.any_number word.now) }
{
    if given.pick.is_some() {
        return None;
    }
    let pick = number(0, u64::MAX, word)?;
    Some(Given {
        cpus: given.cpus,
        pick: Some(pick),
    })
}

/// One option more, with the word behind it.
fn with_option(given: Given, name: &str, word: &str) -> Option<Given>
    ensures { result ≡ reading.with_option given name.now word.now }
{
    match name {
        "--cpus" => with_cpus(given, word),
        "--pick" => with_pick(given, word),
        _ => None,
    }
}

/// The options that have been read and those that these words are.
fn options_behind(given: Given, words: &[String]) -> Option<Options>
    ensures { result ≡ reading.options_behind given (map string_bytes words.now) }
{
    match words {
        [] => Some(Options {
            cpus: given.cpus.unwrap_or(1),
            pick: given.pick,
        }),
        [name, word, rest @ ..] => {
            options_behind(with_option(given, name.as_str(), word.as_str())?, rest)
        }
        _ => None,
    }
}

/// The options that all of these words are.
fn options(words: &[String]) -> Option<Options>
    ensures options { result ≡ spec.options_of (map string_bytes words.now) }
    ensures processors { IfSome result spec.IsFew }
{
    let none = Given {
        cpus: None,
        pick: None,
    };
    options_behind(none, words)
}

/// A command with nothing behind it.
fn alone(command: Command, words: &[String]) -> Option<Command>
    ensures { result ≡ spec.alone command (map string_bytes words.now) }
{
    match words {
        [] => Some(command),
        _ => None,
    }
}

/// `gen`, with its number.
fn generation(words: &[String]) -> Option<Command>
    ensures { result ≡ spec.generation_of (map string_bytes words.now) }
{
    match words {
        [word] => {
            let number = number(0, u64::MAX, word.as_str())?;
            Some(Command::Gen { number })
        }
        _ => None,
    }
}

/// `run`, with its processors. It has no pick.
fn threads(words: &[String]) -> Option<Command>
    ensures command { result ≡ spec.threads_of (map string_bytes words.now) }
    ensures processors { IfSome result spec.HasFew }
{
    let options = options(words)?;
    match options.pick {
        None => Some(Command::Run { cpus: options.cpus }),
        Some(_) => None,
    }
}

/// The command that the program's words are, its own name left out.
pub fn read_command(words: &[String]) -> Option<Command>
    ensures command { result ≡ spec.command_of (map string_bytes words.now) }
    ensures processors { IfSome result spec.HasFew }
{
    match words {
        [] => None,
        [name, rest @ ..] => match name.as_str() {
            "sim" => Some(Command::Sim(options(rest)?)),
            "run" => threads(rest),
            "layout" => alone(Command::Layout, rest),
            "gen" => generation(rest),
            "summary" => Some(Command::Summary(options(rest)?)),
            "upgrade" => alone(Command::Upgrade, rest),
            "audit" => alone(Command::Audit, rest),
            _ => None,
        },
    }
}
