//! Lawful names.

ghost use Rattle.std.specs.{Prelude.{◌≡◌, ◌≤◌, IsTrue, length, codes, bytes_eq}, List.{list_all}};
ghost use Rattle.um_base.specs.Lawful as lawful;
ghost use Rattle.um_vocabulary.specs.Words as words;

fn is_letter(byte: u8) -> bool
    ensures { result ≡ lawful.is_letter byte }
{
    matches!(byte, b'A'..=b'Z') || matches!(byte, b'a'..=b'z')
}

fn is_name_byte(byte: u8) -> bool
    ensures { result ≡ lawful.is_name_byte byte }
{
    is_letter(byte) || matches!(byte, b'0'..=b'9') || byte == b'_'
}

fn begins_with_letter(bytes: &[u8]) -> bool
    ensures { result ≡ lawful.begins_with_letter bytes.now }
{
    match bytes {
        [first, ..] => is_letter(*first),
        [] => false,
    }
}

fn are_name_bytes(bytes: &[u8]) -> bool
    ensures { result ≡ list_all lawful.is_name_byte bytes.now }
{
    bytes.iter().all(|byte| is_name_byte(*byte))
}

const RODATA: &[u8] = b"rodata";

/// Whether this is the word for the read-only data.
fn is_rodata(bytes: &[u8]) -> bool
    ensures { result ≡ bytes_eq bytes.now (codes "rodata") }
{
    bytes == RODATA
}

/// Whether these bytes are a lawful name: 1 to 24 letters, digits or `_`, the first a letter, and not `rodata`.
pub fn is_name(bytes: &[u8]) -> bool
    ensures value { result ≡ lawful.is_name bytes.now }
    ensures few { IsTrue result → length bytes.now ≤ 24 }
{
    bytes.len() <= 24 && begins_with_letter(bytes) && are_name_bytes(bytes) && !is_rodata(bytes)
}

/// Whether these bytes can name what a place stands in: a lawful name, or `rodata`.
pub fn is_place_name(bytes: &[u8]) -> bool
    ensures value { result ≡ words.is_place_name bytes.now }
    ensures few { IsTrue result → length bytes.now ≤ 24 }
{
    is_name(bytes) || is_rodata(bytes)
}
