//! Lines of TOML: headers, and keys with their values.

ghost use Rattle.std.specs.Prelude.{◌≡◌, ◌++◌, ◌<◌, pos, codes, decimal, OnOk};
ghost use Rattle.um_canonical.specs.{
  Objects.{number_pair, text_pair, truth_pairs},
  Pieces.{header_text, pair_text, pairs_text},
  Sections.{hex_digit, encoded, bytes_pairs},
};
ghost use Rattle.um_document.specs.Shape.{word};
ghost use Rattle.um_canonical.specs.Printed.{before, quoted};

use itoa::Buffer;
use um_base::OutOfMemory;
use um_document::Key;

/// Text as it is.
pub fn put(text: &mut Vec<u8>, piece: &[u8]) -> Result<(), OutOfMemory>
    ensures { OnOk result (text.new.items ≡ text.old.items ++ piece.now) }
{
    text.extend_from_slice(piece)?;
    Ok(())
}

/// The header of an entry.
pub fn put_header(text: &mut Vec<u8>, section: Key) -> Result<(), OutOfMemory>
    ensures { OnOk result (text.new.items ≡ text.old.items ++ header_text section) }
{
    put(text, b"[[")?;
    put(text, section.word().as_bytes())?;
    put(text, b"]]\n")
}

/// A key, up to its value.
pub fn put_key(text: &mut Vec<u8>, key: Key) -> Result<(), OutOfMemory>
    ensures { OnOk result (text.new.items ≡ text.old.items ++ (word key ++ codes " = ")) }
{
    put(text, key.word().as_bytes())?;
    put(text, b" = ")
}

/// A string, which needs no escapes.
pub fn put_quoted(text: &mut Vec<u8>, piece: &[u8]) -> Result<(), OutOfMemory>
    ensures { OnOk result (text.new.items ≡ text.old.items ++ quoted piece.now) }
{
    put(text, b"\"")?;
    put(text, piece)?;
    put(text, b"\"")
}

/// A number.
pub fn put_digits(text: &mut Vec<u8>, number: u64) -> Result<(), OutOfMemory>
    ensures { OnOk result (text.new.items ≡ text.old.items ++ decimal number) }
{
    let mut buffer = Buffer::new();
    put(text, buffer.format(number).as_bytes())
}

/// A key with a string.
pub fn put_text(text: &mut Vec<u8>, key: Key, piece: &[u8]) -> Result<(), OutOfMemory>
    ensures { OnOk result (text.new.items ≡ text.old.items ++ pair_text (text_pair key piece.now)) }
{
    put_key(text, key)?;
    put_quoted(text, piece)?;
    put(text, b"\n")
}

/// A key with a number from 0 on.
pub fn put_number(text: &mut Vec<u8>, key: Key, number: u32) -> Result<(), OutOfMemory>
    ensures { OnOk result (text.new.items ≡ text.old.items ++ pair_text (number_pair key (pos number))) }
{
    put_key(text, key)?;
    put_digits(text, number as u64)?;
    put(text, b"\n")
}

/// A key with any small number.
pub fn put_signed(text: &mut Vec<u8>, key: Key, number: i8) -> Result<(), OutOfMemory>
    ensures { OnOk result (text.new.items ≡ text.old.items ++ pair_text (number_pair key number)) }
{
    let mut buffer = Buffer::new();
    put_key(text, key)?;
    put(text, buffer.format(number).as_bytes())?;
    put(text, b"\n")
}

/// A key with `true`, where it holds.
pub fn put_truth(text: &mut Vec<u8>, key: Key, holds: bool) -> Result<(), OutOfMemory>
    ensures { OnOk result (text.new.items ≡ text.old.items ++ pairs_text (truth_pairs key holds)) }
{
    if !holds {
        return Ok(());
    }
    put_key(text, key)?;
    put(text, b"true\n")
}

/// A digit, in lower case.
fn hex_digit(number: u8) -> u8
    requires { number < 16 }
    ensures { result ≡ hex_digit number }
{
    if number < 10 {
        48 + number
    } else {
        87 + number
    }
}

/// Bytes, two digits each.
pub fn put_encoded(text: &mut Vec<u8>, bytes: &[u8]) -> Result<(), OutOfMemory>
    ensures { OnOk result (text.new.items ≡ text.old.items ++ encoded bytes.now) }
{
    for byte in bytes {
        put(text, &[hex_digit(*byte / 16), hex_digit(*byte % 16)])?;
    }
    Ok(())
}

/// A key with bytes, where there are any.
pub fn put_bytes(text: &mut Vec<u8>, key: Key, bytes: &[u8]) -> Result<(), OutOfMemory>
    ensures { OnOk result (text.new.items ≡ text.old.items ++ pairs_text (bytes_pairs key bytes.now)) }
{
    if bytes.is_empty() {
        return Ok(());
    }
    put_key(text, key)?;
    put(text, b"\"")?;
    put_encoded(text, bytes)?;
    put(text, b"\"\n")
}

/// What stands before an item of a list.
pub fn put_before(text: &mut Vec<u8>, is_first: bool) -> Result<(), OutOfMemory>
    ensures { OnOk result (text.new.items ≡ text.old.items ++ before is_first) }
{
    if is_first {
        return Ok(());
    }
    put(text, b", ")
}

/// An item of a list of strings.
pub fn put_item(text: &mut Vec<u8>, piece: &[u8], is_first: bool) -> Result<(), OutOfMemory>
    ensures { OnOk result (text.new.items ≡ text.old.items ++ (before is_first ++ quoted piece.now)) }
{
    put_before(text, is_first)?;
    put_quoted(text, piece)
}
