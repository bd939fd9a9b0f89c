//! Registers, places and numbers.

ghost use Rattle.std.specs.Prelude.{◌≡◌};
ghost use Rattle.um_script.specs.Operands as operands;

use crate::cut::cut;
use crate::fault::LineKind;
use crate::numbers::{digits, number};
use um_base::{Name, Ref, Term};
use um_vocabulary::{is_name, is_place_name};

/// A register, `r0` to `r7`.
pub fn register(word: &[u8]) -> Result<u8, LineKind>
    ensures { result ≡ operands.register word.now }
{
    match word {
        b"r0" => Ok(0),
        b"r1" => Ok(1),
        b"r2" => Ok(2),
        b"r3" => Ok(3),
        b"r4" => Ok(4),
        b"r5" => Ok(5),
        b"r6" => Ok(6),
        b"r7" => Ok(7),
        _ => Err(LineKind::Operand),
    }
}

fn at_offset(bytes: &[u8], offset: Result<u32, LineKind>) -> Result<Term, LineKind>
    ensures { result ≡ operands.at_offset bytes.now offset }
{
    if is_place_name(bytes) {
        Ok(Term::Place {
            name: Name::from_bytes(bytes),
            offset: offset?,
        })
    } else {
        Err(LineKind::Operand)
    }
}

/// A place, behind its `@`.
fn place(bytes: &[u8]) -> Result<Term, LineKind>
    ensures { result ≡ operands.place bytes.now }
{
    match cut(b'+', bytes) {
        None => at_offset(bytes, Ok(0)),
        Some((name, offset)) => at_offset(name, digits(false, 10, 65_536, offset)),
    }
}

/// A place, a register or a number.
pub fn term(word: &[u8]) -> Result<Term, LineKind>
    ensures { result ≡ operands.term word.now }
{
    match word {
        [b'@', rest @ ..] => place(rest),
        [b'r', ..] => Ok(Term::Reg(register(word)?)),
        _ => Ok(Term::Num(number(word)?)),
    }
}

/// A lawful name.
pub fn name(word: &[u8]) -> Result<Name, LineKind>
    ensures { result ≡ operands.name word.now }
{
    if is_name(word) {
        Ok(Name::from_bytes(word))
    } else {
        Err(LineKind::Operand)
    }
}

/// The name of a domain or of a script.
pub fn named(word: &[u8]) -> Result<Ref, LineKind>
    ensures { result ≡ operands.named word.now }
{
    Ok(Ref::Named(name(word)?))
}
