//! Names for the variables of partitions that nothing of the image has: `v` and a number.

ghost use Rattle.std.specs.Prelude.{◌≡◌, ◌∷◌, IfOk, OnOk, bytes_eq};
ghost use Rattle.um_canonical.specs.Fresh.{is_taken, with_free, free_numbers};

use itoa::Buffer;
use std::alloc::Global;
use um_base::{Name, OutOfMemory};

/// Whether a name is `v` and these digits.
fn is_variable(name: &[u8], digits: &[u8]) -> bool
    ensures { result ≡ bytes_eq (118 ∷ digits.now) name.now }
{
    match name.split_first() {
        Some((first, rest)) => b'v' == *first && digits == rest,
        None => false,
    }
}

/// Whether a name is that of a variable of this number.
fn is_taken(taken: &[Name], number: u64) -> bool
    ensures { result ≡ is_taken taken.now number }
{
    let mut buffer = Buffer::new();
    let digits = buffer.format(number).as_bytes();
    taken
        .iter()
        .any(|name| is_variable(name.as_slice(), digits))
}

/// One more number, where more are wanted and its name isn't taken.
fn push_free(
    numbers: &mut Vec<u64>,
    taken: &[Name],
    count: u32,
    number: u64,
) -> Result<(), OutOfMemory>
    ensures { OnOk result (numbers.new.items ≡ with_free taken.now count numbers.old.items number) }
{
    if numbers.len() < count as usize && !is_taken(taken, number) {
        numbers.push(number)?;
    }
    Ok(())
}

/// The least numbers of variables whose names aren't taken, so many of them.
pub fn free_numbers(alloc: Global, taken: &[Name], count: u32) -> Result<Vec<u64>, OutOfMemory>
    ensures { IfOk result (λ numbers. numbers.items ≡ free_numbers taken.now count) }
{
    let most = count as u64 + taken.len() as u64;
    let mut numbers = Vec::new(alloc);
    for number in 0..most {
        push_free(&mut numbers, taken, count, number)?;
    }
    Ok(numbers)
}
