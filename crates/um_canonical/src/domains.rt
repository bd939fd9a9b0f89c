//! Domains.

ghost use Rattle.std.specs.{Prelude.{◌≡◌, ◌++◌, true, option_map, OnOk}, List.{flat_map}};
ghost use Rattle.um_canonical.specs.{
  Entries.{names_at},
  Pieces.{domain_text, pairs_text},
  Sections.{given_pairs},
};
ghost use Rattle.um_canonical.specs.Printed.{items_text};

use crate::names::name_at;
use crate::pairs::{put, put_header, put_item, put_key, put_text};
use um_base::{BoundedVec, DomainDef, Name, OutOfMemory, PARTITIONS};
use um_document::Key;

/// The names of partitions, up to the end of their list.
fn put_names(text: &mut Vec<u8>, partitions: &[Name], numbers: &[u8]) -> Result<(), OutOfMemory>
    ensures { OnOk result (text.new.items ≡ text.old.items ++ items_text true (names_at partitions.now numbers.now)) }
{
    let mut is_first = true;
    for number in numbers {
        put_item(text, name_at(partitions, *number).as_slice(), is_first)?;
        is_first = false;
    }
    put(text, b"]")
}

/// The partitions of a domain, where it is initialised.
fn put_parts(
    text: &mut Vec<u8>,
    partitions: &[Name],
    parts: &Option<BoundedVec<u8, PARTITIONS>>,
) -> Result<(), OutOfMemory>
    ensures { OnOk result (text.new.items ≡ text.old.items ++ pairs_text (given_pairs (option_map (names_at partitions.now) parts.now))) }
{
    match parts {
        Some(numbers) => {
            put_key(text, Key::Partitions)?;
            put(text, b"[")?;
            put_names(text, partitions, numbers.as_slice())?;
            put(text, b"\n")
        }
        None => Ok(()),
    }
}

fn put_domain(
    text: &mut Vec<u8>,
    partitions: &[Name],
    domain: &DomainDef,
) -> Result<(), OutOfMemory>
    ensures { OnOk result (text.new.items ≡ text.old.items ++ domain_text partitions.now domain.now) }
{
    put_header(text, Key::Domain)?;
    put_text(text, Key::Name, domain.name.as_slice())?;
    put_parts(text, partitions, &domain.parts)
}

/// The domains. A partition has the name of its number.
pub fn put_domains(
    text: &mut Vec<u8>,
    partitions: &[Name],
    domains: &[DomainDef],
) -> Result<(), OutOfMemory>
    ensures { OnOk result (text.new.items ≡ text.old.items ++ flat_map (domain_text partitions.now) domains.now) }
{
    for domain in domains {
        put_domain(text, partitions, domain)?;
    }
    Ok(())
}
