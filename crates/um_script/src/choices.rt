//! Operands that are one of a few words.

ghost use Rattle.std.specs.Prelude.{◌≡◌};
ghost use Rattle.um_script.specs.Operands as operands;

use crate::cut::cut;
use crate::fault::LineKind;
use crate::numbers;
use um_base::{Kind, Options, Timeout};
use um_vocabulary::dynamic_kind_named;

/// A kind of object that can be allocated.
pub fn kind(word: &[u8]) -> Result<Kind, LineKind>
    ensures { result ≡ operands.kind word.now }
{
    dynamic_kind_named(word).ok_or(LineKind::Operand)
}

const NO_WAIT: &[u8] = b"K_NO_WAIT";

const FOREVER: &[u8] = b"K_FOREVER";

/// Not at all, or for good.
fn plain_timeout(word: &[u8]) -> Result<Timeout, LineKind>
    ensures { result ≡ operands.plain_timeout word.now }
{
    if word == NO_WAIT {
        Ok(Timeout::NoWait)
    } else if word == FOREVER {
        Ok(Timeout::Forever)
    } else {
        Err(LineKind::Operand)
    }
}

/// So many ticks, before the `)` that ends the word.
fn ticks_before(rest: &[u8]) -> Result<Timeout, LineKind>
    ensures { result ≡ operands.ticks_cut (operands.cut 41 rest.now) }
{
    match cut(b')', rest) {
        Some((digits, [])) => Ok(Timeout::Ticks(numbers::ticks(digits)?)),
        _ => Err(LineKind::Operand),
    }
}

const TICKS: &[u8] = b"K_TICKS";

fn ticks_behind(first: &[u8], rest: &[u8]) -> Result<Timeout, LineKind>
    ensures { result ≡ operands.ticks_behind first.now rest.now }
{
    if first == TICKS {
        ticks_before(rest)
    } else {
        Err(LineKind::Operand)
    }
}

/// How long a call waits.
pub fn timeout(word: &[u8]) -> Result<Timeout, LineKind>
    ensures { result ≡ operands.timeout word.now }
{
    match cut(b'(', word) {
        None => plain_timeout(word),
        Some((first, rest)) => ticks_behind(first, rest),
    }
}

/// Whether all are woken, or one.
pub fn how_many(word: &[u8]) -> Result<bool, LineKind>
    ensures { result ≡ operands.how_many word.now }
{
    match word {
        b"one" => Ok(false),
        b"all" => Ok(true),
        _ => Err(LineKind::Operand),
    }
}

/// How many bytes are loaded or stored.
pub fn size(word: &[u8]) -> Result<u8, LineKind>
    ensures { result ≡ operands.size word.now }
{
    match word {
        b"1" => Ok(1),
        b"2" => Ok(2),
        b"4" => Ok(4),
        _ => Err(LineKind::Operand),
    }
}

const USER: &[u8] = b"K_USER";

const INHERIT: &[u8] = b"K_INHERIT_PERMS";

const ESSENTIAL: &[u8] = b"K_ESSENTIAL";

/// One more option, which doesn't stand yet.
fn option(set: Options, word: &[u8]) -> Result<Options, LineKind>
    ensures { result ≡ operands.option set word.now }
{
    if word == USER && !set.user {
        Ok(Options { user: true, ..set })
    } else if word == INHERIT && !set.inherit {
        Ok(Options {
            inherit: true,
            ..set
        })
    } else if word == ESSENTIAL && !set.essential {
        Ok(Options {
            essential: true,
            ..set
        })
    } else {
        Err(LineKind::Operand)
    }
}

/// No option.
const NONE: Options = Options {
    user: false,
    inherit: false,
    essential: false,
};

/// How many options there are.
const MOST_OPTIONS: usize = 3;

/// One to three options, joined by `+`.
fn some_options(word: &[u8]) -> Result<Options, LineKind>
    ensures { result ≡ operands.more_options 3 operands.no_options word.now }
{
    let mut set = NONE;
    let mut rest = word;
    for _ in 0..MOST_OPTIONS {
        match cut(b'+', rest) {
            None => return option(set, rest),
            Some((first, others)) => {
                set = option(set, first)?;
                rest = others;
            }
        }
    }
    Err(LineKind::Operand)
}

/// The options of a new thread.
pub fn options(word: &[u8]) -> Result<Options, LineKind>
    ensures { result ≡ operands.options word.now }
{
    match word {
        b"0" => Ok(NONE),
        _ => some_options(word),
    }
}
