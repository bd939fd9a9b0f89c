//! Pools and partitions.

ghost use Rattle.std.specs.{Prelude.{◌≡◌, ◌++◌, false, drop, OnOk}, List.{flat_map}};
ghost use Rattle.um_canonical.specs.{
  Entries.{packed},
  Pieces.{pool_text, variable_text, partition_text, partitions_text, first_variable},
  Sections.{data_atoms},
};
ghost use Rattle.um_canonical.specs.Printed.{members_text};

use crate::pairs::{put, put_digits, put_encoded, put_header, put_key, put_number, put_text};
use um_base::{OutOfMemory, Partition, Pool};
use um_document::Key;
use um_vocabulary::attr_word;

#[tactic(auto, unfolding(crate::specs::Pieces::pool_text))]
fn put_pool(text: &mut Vec<u8>, pool: &Pool) -> Result<(), OutOfMemory>
    ensures { OnOk result (text.new.items ≡ text.old.items ++ pool_text pool.now) }
{
    put_header(text, Key::Pool)?;
    put_text(text, Key::Name, pool.name.as_slice())?;
    put_number(text, Key::Size, pool.size)
}

/// The resource pools.
pub fn put_pools(text: &mut Vec<u8>, pools: &[Pool]) -> Result<(), OutOfMemory>
    ensures { OnOk result (text.new.items ≡ text.old.items ++ flat_map pool_text pools.now) }
{
    for pool in pools {
        put_pool(text, pool)?;
    }
    Ok(())
}

/// The name of the first variable, where there is one.
fn put_first(text: &mut Vec<u8>, numbers: &[u64]) -> Result<(), OutOfMemory>
    ensures { OnOk result (text.new.items ≡ text.old.items ++ first_variable numbers.now) }
{
    match numbers.first() {
        Some(number) => {
            put(text, b"v")?;
            put_digits(text, *number)
        }
        None => Ok(()),
    }
}

/// The bytes of a variable, where there are any, and the end of its table.
fn put_data(text: &mut Vec<u8>, bytes: &[u8]) -> Result<(), OutOfMemory>
    ensures { OnOk result (text.new.items ≡ text.old.items ++ members_text false (data_atoms bytes.now)) }
{
    if bytes.is_empty() {
        return put(text, b"}");
    }
    put(text, b", data = \"")?;
    put_encoded(text, bytes)?;
    put(text, b"\"}")
}

/// The list of one variable of so many bytes, aligned to 32.
#[tactic(auto, unfolding(crate::specs::Pieces::variable_text))]
fn put_variable(
    text: &mut Vec<u8>,
    numbers: &[u64],
    size: u32,
    bytes: &[u8],
) -> Result<(), OutOfMemory>
    ensures { OnOk result (text.new.items ≡ text.old.items ++ variable_text (first_variable numbers.now) size bytes.now) }
{
    put_key(text, Key::Vars)?;
    put(text, b"[{name = \"")?;
    put_first(text, numbers)?;
    put(text, b"\", size = ")?;
    put_digits(text, size as u64)?;
    put(text, b", align = ")?;
    put_digits(text, 32)?;
    put_data(text, bytes)?;
    put(text, b"]\n")
}

/// A partition, with one variable.
fn put_partition(
    text: &mut Vec<u8>,
    partition: &Partition,
    numbers: &[u64],
) -> Result<(), OutOfMemory>
    ensures { OnOk result (text.new.items ≡ text.old.items ++ partition_text (packed (first_variable numbers.now) partition.now)) }
{
    put_header(text, Key::Partition)?;
    put_text(text, Key::Name, partition.name.as_slice())?;
    put_text(text, Key::Attr, attr_word(partition.attr))?;
    put_variable(
        text,
        numbers,
        partition.range.size,
        partition.bytes.as_slice(),
    )
}

/// All numbers but the first.
fn others(numbers: &[u64]) -> &[u64]
    ensures { result.now ≡ drop 1 numbers.now }
{
    match numbers.split_first() {
        Some((_, rest)) => rest,
        None => numbers,
    }
}

/// The partitions, each with one variable, whose names have these numbers.
pub fn put_partitions(
    text: &mut Vec<u8>,
    partitions: &[Partition],
    numbers: &[u64],
) -> Result<(), OutOfMemory>
    ensures { OnOk result (text.new.items ≡ text.old.items ++ partitions_text numbers.now partitions.now) }
{
    let mut left = numbers;
    for partition in partitions {
        put_partition(text, partition, left)?;
        left = others(left);
    }
    Ok(())
}
