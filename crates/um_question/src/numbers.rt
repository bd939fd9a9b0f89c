//! The numbers and ranges that words spell.

ghost use Rattle.std.specs.{Prelude.{◌≡◌, drop, take}, List.{list_all}};
ghost use Rattle.um_question.specs.Numbers as numbers;

use um_base::{Addr, Range};

fn is_digit(hexadecimal: bool, byte: u8) -> bool
    ensures { result ≡ numbers.is_digit hexadecimal byte }
{
    matches!(byte, b'0'..=b'9') || hexadecimal && matches!(byte, b'a'..=b'f')
}

/// The value of a digit.
fn digit_value(byte: u8) -> u8
    ensures { result ≡ numbers.digit_value byte }
{
    if byte < b'a' {
        byte.saturating_sub(b'0')
    } else {
        byte - b'a' + 10
    }
}

fn base(hexadecimal: bool) -> u64
    ensures { result ≡ numbers.base hexadecimal }
{
    if hexadecimal { 16 } else { 10 }
}

fn all_digits(hexadecimal: bool, word: &[u8]) -> bool
    ensures { result ≡ list_all (numbers.is_digit hexadecimal) word.now }
{
    word.iter().all(|byte| is_digit(hexadecimal, *byte))
}

/// Whether these are so many digits.
fn are_digits(hexadecimal: bool, fewest: usize, most: usize, word: &[u8]) -> bool
    ensures { result ≡ numbers.are_digits hexadecimal fewest most word.now }
{
    fewest <= word.len() && word.len() <= most && all_digits(hexadecimal, word)
}

/// The number below 2 ^ 32 that digits spell.
fn value(hexadecimal: bool, word: &[u8]) -> Option<u32>
    ensures { result ≡ numbers.below_limit (numbers.value_from hexadecimal 0 word.now) }
{
    let mut number = 0u32;
    for byte in word {
        let more = base(hexadecimal) * number as u64 + digit_value(*byte) as u64;
        if more > 0xffff_ffff {
            return None;
        }
        number = more as u32;
    }
    Some(number)
}

/// The number below 2 ^ 32 that so many digits spell.
fn number(hexadecimal: bool, fewest: usize, most: usize, word: &[u8]) -> Option<u32>
    ensures { result ≡ numbers.number hexadecimal fewest most word.now }
{
    if are_digits(hexadecimal, fewest, most, word) {
        value(hexadecimal, word)
    } else {
        None
    }
}

/// So many bytes from an address on, if there is one at least and none behind the last address.
fn range_of(start: Option<u32>, size: Option<u32>) -> Option<Range>
    ensures { result ≡ numbers.range_of start size }
{
    match (start, size) {
        (Some(start), Some(size)) if size >= 1 && start as u64 + size as u64 <= 0x1_0000_0000 => {
            Some(Range {
                start: Addr(start),
                size,
            })
        }
        _ => None,
    }
}

/// The first so many bytes, or all, and those behind them.
fn cut(bytes: &[u8], count: usize) -> (&[u8], &[u8])
    ensures front { result.0.now ≡ take count bytes.now }
    ensures behind { result.1.now ≡ drop count bytes.now }
{
    bytes.split_at(count.min(bytes.len()))
}

/// The range that a word spells: `0x` and the eight hexadecimal digits of its address, `/`, and its size in at most ten decimal digits.
pub fn range_spelled(word: &[u8]) -> Option<Range>
    ensures { result ≡ numbers.range_spelled word.now }
{
    let (prefix, digits) = cut(word, 2);
    let (address, behind) = cut(digits, 8);
    let (slash, size) = cut(behind, 1);
    if prefix == "0x".as_bytes() && slash == "/".as_bytes() {
        range_of(number(true, 8, 8, address), number(false, 1, 10, size))
    } else {
        None
    }
}
