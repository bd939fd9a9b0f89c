//! The values of operands.

ghost use Rattle.std.specs.Prelude.{◌≡◌};
ghost use Rattle.um_base.specs.Places.{thread_of_addr};
ghost use Rattle.um_machine.specs.{State.{value_of}, Order.{number_of}};

use crate::rows::{row_at, thread_of_row};
use um_base::{Image, Ref, Term, ThreadIx};

/// The value of an operand.
pub fn value_of(registers: &[u32], term: &Term) -> u32
    ensures { result ≡ value_of registers.now term.now }
{
    match term {
        Term::Num(n) => *n,
        Term::Reg(r) => match registers.get(*r as usize) {
            Some(n) => *n,
            None => 0,
        },
        Term::Place { .. } => 0,
    }
}

/// The thread whose object is at an address.
pub fn thread_of_addr(image: &Image, a: u32) -> ThreadIx
    ensures { result.0 ≡ thread_of_addr image.now a }
{
    match row_at(image, a) {
        Some(x) => match thread_of_row(image, x) {
            Some(t) => ThreadIx(t as u8),
            None => ThreadIx(0),
        },
        None => ThreadIx(0),
    }
}

/// The number of a domain or a script.
pub fn number_of(name: &Ref) -> u8
    ensures { result ≡ number_of name.now }
{
    match name {
        Ref::At(i) => *i,
        Ref::Named(_) => 0,
    }
}
