//! Partitions, by name or by what they are.

ghost use Rattle.std.specs.Prelude.{◌≡◌};
ghost use Rattle.um_script.specs.Operands as operands;

use crate::cut::cut;
use crate::fault::LineKind;
use crate::numbers::{is_number, number};
use crate::terms::name;
use um_base::{Addr, Attr, PartRef, Range};
use um_vocabulary::attr_named;

fn rights(word: &[u8]) -> Result<Attr, LineKind>
    ensures { result ≡ operands.rights word.now }
{
    attr_named(word).ok_or(LineKind::Operand)
}

/// An address, a size and rights: the form of all three comes before the range of any.
fn given_part(start: &[u8], size: &[u8], attr: &[u8]) -> Result<PartRef, LineKind>
    ensures { result ≡ operands.given_part start.now size.now attr.now }
{
    if !is_number(start) || !is_number(size) {
        return Err(LineKind::Operand);
    }
    let attr = rights(attr)?;
    let start = Addr(number(start)?);
    let size = number(size)?;
    Ok(PartRef::Given {
        range: Range { start, size },
        attr,
    })
}

fn part_from(start: &[u8], rest: &[u8]) -> Result<PartRef, LineKind>
    ensures { result ≡ operands.part_from start.now rest.now }
{
    match cut(b'/', rest) {
        None => Err(LineKind::Operand),
        Some((size, attr)) => given_part(start, size, attr),
    }
}

/// A partition's name, or its address, size and rights with `/` between them.
pub fn part(word: &[u8]) -> Result<PartRef, LineKind>
    ensures { result ≡ operands.part word.now }
{
    match cut(b'/', word) {
        None => named_part(word),
        Some((start, rest)) => part_from(start, rest),
    }
}

fn named_part(word: &[u8]) -> Result<PartRef, LineKind>
    ensures { result ≡ operands.named_part word.now }
{
    Ok(PartRef::Named(name(word)?))
}
