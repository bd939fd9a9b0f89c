//! Numbers as words spell them.

ghost use Rattle.std.specs.{Prelude.{◌≡◌, ◌≤◌, IfOk}, List.{list_all}};
ghost use Rattle.um_script.specs.Numbers as numbers;

use crate::fault::LineKind;

fn is_digit(hexadecimal: bool, byte: u8) -> bool
    ensures { result ≡ numbers.is_digit hexadecimal byte }
{
    matches!(byte, b'0'..=b'9') || hexadecimal && matches!(byte, b'a'..=b'f')
}

/// The value of a digit.
fn digit_value(byte: u8) -> u8
    ensures { result ≡ numbers.digit_value byte }
{
    if byte < b'a' {
        byte.saturating_sub(b'0')
    } else {
        byte - b'a' + 10
    }
}

fn all_digits(hexadecimal: bool, bytes: &[u8]) -> bool
    ensures { result ≡ list_all (numbers.is_digit hexadecimal) bytes.now }
{
    bytes.iter().all(|byte| is_digit(hexadecimal, *byte))
}

/// Whether these are 1 to `most` digits.
fn are_digits(hexadecimal: bool, most: usize, bytes: &[u8]) -> bool
    ensures { result ≡ numbers.are_digits hexadecimal most bytes.now }
{
    !bytes.is_empty() && bytes.len() <= most && all_digits(hexadecimal, bytes)
}

fn base(hexadecimal: bool) -> u64
    ensures { result ≡ numbers.base hexadecimal }
{
    if hexadecimal { 16 } else { 10 }
}

/// The number that digits spell, where it is at most `limit`.
fn value(hexadecimal: bool, limit: u32, digits: &[u8]) -> Result<u32, LineKind>
    ensures value { result ≡ numbers.in_range 0 limit (numbers.value_from hexadecimal 0 digits.now) }
    ensures small { IfOk result (λ n. n ≤ limit) }
{
    let mut number = 0u32;
    for byte in digits {
        let more = base(hexadecimal) * number as u64 + digit_value(*byte) as u64;
        if more > limit as u64 {
            return Err(LineKind::Range);
        }
        number = more as u32;
    }
    Ok(number)
}

/// A number of 1 to `most` digits, of at most `limit`.
pub fn digits(hexadecimal: bool, most: usize, limit: u32, bytes: &[u8]) -> Result<u32, LineKind>
    ensures value { result ≡ numbers.digits hexadecimal most limit bytes.now }
    ensures small { IfOk result (λ n. n ≤ limit) }
{
    if are_digits(hexadecimal, most, bytes) {
        value(hexadecimal, limit, bytes)
    } else {
        Err(LineKind::Operand)
    }
}

/// Whether a word has the form of a number, of whatever range.
pub fn is_number(word: &[u8]) -> bool
    ensures { result ≡ numbers.is_number word.now }
{
    match word {
        [b'0', b'x', rest @ ..] => are_digits(true, 8, rest),
        _ => are_digits(false, 10, word),
    }
}

/// A number of 32 bits, in decimal or hexadecimal digits.
pub fn number(word: &[u8]) -> Result<u32, LineKind>
    ensures { result ≡ numbers.number word.now }
{
    match word {
        [b'0', b'x', rest @ ..] => digits(true, 8, u32::MAX, rest),
        _ => digits(false, 10, u32::MAX, word),
    }
}

/// How often lines are repeated: 1 to 1,000.
pub fn times(word: &[u8]) -> Result<u16, LineKind>
    ensures { result ≡ numbers.times word.now }
{
    let times = number(word)?;
    if times >= 1 && times <= 1000 {
        Ok(times as u16)
    } else {
        Err(LineKind::Range)
    }
}

/// How many ticks a call waits: 1 to 7 digits, 1 to 1,000,000.
pub fn ticks(bytes: &[u8]) -> Result<u32, LineKind>
    ensures { result ≡ numbers.ticks bytes.now }
{
    let ticks = digits(false, 7, 1_000_000, bytes)?;
    if ticks == 0 {
        return Err(LineKind::Range);
    }
    Ok(ticks)
}

/// A priority: -128 to 127.
pub fn priority(word: &[u8]) -> Result<i8, LineKind>
    ensures { result ≡ numbers.priority word.now }
{
    match word {
        [b'-', rest @ ..] => {
            let size = digits(false, 3, 128, rest)?;
            Ok(-(size as i16) as i8)
        }
        _ => {
            let size = digits(false, 3, 127, word)?;
            Ok(size as i8)
        }
    }
}
