//! What steps write to registers.

ghost use Rattle.std.specs.Prelude.{◌≡◌, slice_index, slice_set};
ghost use Rattle.um_machine.specs.Table.{with_answer, with_begin};

use crate::order::value_of;
use um_base::{Instr, Reply};

/// What a register holds: 0 where there is no such one.
#[inline]
fn register(registers: &[u32], r: u8) -> u32
    ensures { result ≡ slice_index registers.now r }
{
    match registers.get(r as usize) {
        Some(n) => *n,
        None => 0,
    }
}

/// Writes a register, if it is one.
#[inline]
pub fn put_register(registers: &mut [u32], to: u8, value: u32)
    ensures { registers.new ≡ slice_set registers.old to value }
{
    if (to as usize) < registers.len() {
        registers[to as usize] = value;
    }
}

/// Writes what the begin of an instruction writes to a register.
#[inline]
pub fn put_begin(registers: &mut [u32], instr: &Instr)
    ensures { registers.new ≡ with_begin registers.old instr.now }
{
    match instr {
        Instr::Set { to, value } => {
            let value = value_of(registers, value);
            put_register(registers, *to, value);
        }
        Instr::Add { to, value } => {
            let value = register(registers, *to).wrapping_add(value_of(registers, value));
            put_register(registers, *to, value);
        }
        _ => {}
    }
}

/// Writes an answer to its register, where it has one and is a number, an address or NULL.
#[inline]
pub fn put_answer(registers: &mut [u32], to: Option<u8>, reply: Reply)
    ensures { registers.new ≡ with_answer registers.old to reply }
{
    let Some(to) = to else {
        return;
    };
    match reply {
        Reply::Num(n) => put_register(registers, to, n),
        Reply::At(a) => put_register(registers, to, a.0),
        Reply::Null => put_register(registers, to, 0),
        _ => {}
    }
}
