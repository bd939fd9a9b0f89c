//! Operands as text, each behind a space.

ghost use Rattle.std.specs.{Prelude.{◌≡◌, ◌∷◌, ◌++◌, decimal, OnOk}, Fmt.{signed_decimal}};
ghost use Rattle.um_base.specs.declared.names.Timeout.{Timeout};
ghost use Rattle.um_script.specs.Canonical as canonical;
ghost use Rattle.um_script.specs.Operands as operands;
ghost use Rattle.um_vocabulary.specs.Words as words;

use itoa::Buffer;
use um_base::{Attr, Options, OutOfMemory, PartRef, Range, Ref, Term, Timeout};
use um_vocabulary::attr_word;

/// A word.
pub fn put(text: &mut Vec<u8>, word: &[u8]) -> Result<(), OutOfMemory>
    ensures { OnOk result (text.new.items ≡ text.old.items ++ (32 ∷ word.now)) }
{
    text.push(b' ')?;
    text.extend_from_slice(word)?;
    Ok(())
}

/// Decimal digits, with no space.
fn put_digits(text: &mut Vec<u8>, number: u32) -> Result<(), OutOfMemory>
    ensures { OnOk result (text.new.items ≡ text.old.items ++ decimal number) }
{
    let mut buffer = Buffer::new();
    text.extend_from_slice(buffer.format(number).as_bytes())?;
    Ok(())
}

/// A number.
pub fn put_number(text: &mut Vec<u8>, number: u32) -> Result<(), OutOfMemory>
    ensures { OnOk result (text.new.items ≡ text.old.items ++ (32 ∷ decimal number)) }
{
    text.push(b' ')?;
    put_digits(text, number)
}

/// A register.
pub fn put_register(text: &mut Vec<u8>, register: u8) -> Result<(), OutOfMemory>
    ensures { OnOk result (text.new.items ≡ text.old.items ++ (32 ∷ 114 ∷ decimal register)) }
{
    text.push(b' ')?;
    text.push(b'r')?;
    put_digits(text, register as u32)
}

/// A priority.
pub fn put_priority(text: &mut Vec<u8>, priority: i8) -> Result<(), OutOfMemory>
    ensures { OnOk result (text.new.items ≡ text.old.items ++ (32 ∷ signed_decimal priority)) }
{
    let mut buffer = Buffer::new();
    put(text, buffer.format(priority).as_bytes())
}

/// How far a place stands behind its name, where it does.
fn put_offset(text: &mut Vec<u8>, offset: u32) -> Result<(), OutOfMemory>
    ensures { OnOk result (text.new.items ≡ text.old.items ++ canonical.offset_text offset) }
{
    if offset == 0 {
        return Ok(());
    }
    text.push(b'+')?;
    put_digits(text, offset)
}

fn put_place(text: &mut Vec<u8>, name: &[u8], offset: u32) -> Result<(), OutOfMemory>
    ensures { OnOk result (text.new.items ≡ text.old.items ++ (32 ∷ ((64 ∷ name.now) ++ canonical.offset_text offset))) }
{
    text.push(b' ')?;
    text.push(b'@')?;
    text.extend_from_slice(name)?;
    put_offset(text, offset)
}

/// A place, a register or a number.
pub fn put_term(text: &mut Vec<u8>, term: &Term) -> Result<(), OutOfMemory>
    ensures { OnOk result (text.new.items ≡ text.old.items ++ (32 ∷ canonical.term_text term.now)) }
{
    match term {
        Term::Num(number) => put_number(text, *number),
        Term::Reg(register) => put_register(text, *register),
        Term::Place { name, offset } => put_place(text, name.as_slice(), *offset),
    }
}

/// The name of a domain or of a script.
pub fn put_named(text: &mut Vec<u8>, named: &Ref) -> Result<(), OutOfMemory>
    ensures { OnOk result (text.new.items ≡ text.old.items ++ (32 ∷ canonical.named_text named.now)) }
{
    match named {
        Ref::Named(name) => put(text, name.as_slice()),
        Ref::At(index) => put_number(text, *index as u32),
    }
}

fn put_given(text: &mut Vec<u8>, range: Range, attr: Attr) -> Result<(), OutOfMemory>
    ensures { OnOk result (text.new.items ≡ text.old.items ++ (32 ∷ (decimal range.start.0 ++ (47 ∷ decimal range.size) ++ (47 ∷ words.attr_word attr)))) }
{
    put_number(text, range.start.0)?;
    text.push(b'/')?;
    put_digits(text, range.size)?;
    text.push(b'/')?;
    text.extend_from_slice(attr_word(attr))?;
    Ok(())
}

/// A partition.
pub fn put_part(text: &mut Vec<u8>, part: &PartRef) -> Result<(), OutOfMemory>
    ensures { OnOk result (text.new.items ≡ text.old.items ++ (32 ∷ canonical.part_text part.now)) }
{
    match part {
        PartRef::Named(name) => put(text, name.as_slice()),
        PartRef::At(index) => put_number(text, *index as u32),
        PartRef::Given { range, attr } => put_given(text, *range, *attr),
    }
}

/// Partitions, one after the other.
pub fn put_parts(text: &mut Vec<u8>, parts: &[PartRef]) -> Result<(), OutOfMemory>
    ensures { OnOk result (text.new.items ≡ canonical.with_parts text.old.items parts.now) }
{
    for part in parts {
        put_part(text, part)?;
    }
    Ok(())
}

fn put_ticks(text: &mut Vec<u8>, ticks: u32) -> Result<(), OutOfMemory>
    ensures { OnOk result (text.new.items ≡ text.old.items ++ (32 ∷ canonical.timeout_text (Timeout.Ticks ticks))) }
{
    put(text, b"K_TICKS(")?;
    put_digits(text, ticks)?;
    text.push(b')')?;
    Ok(())
}

/// How long a call waits.
pub fn put_timeout(text: &mut Vec<u8>, timeout: Timeout) -> Result<(), OutOfMemory>
    ensures { OnOk result (text.new.items ≡ text.old.items ++ (32 ∷ canonical.timeout_text timeout)) }
{
    match timeout {
        Timeout::NoWait => put(text, b"K_NO_WAIT"),
        Timeout::Forever => put(text, b"K_FOREVER"),
        Timeout::Ticks(ticks) => put_ticks(text, ticks),
    }
}

/// Whether all are woken, or one.
pub fn put_how_many(text: &mut Vec<u8>, all: bool) -> Result<(), OutOfMemory>
    ensures { OnOk result (text.new.items ≡ text.old.items ++ (32 ∷ operands.how_many_word all)) }
{
    put(text, if all { b"all" } else { b"one" })
}

/// Options in one text, in their order.
fn options_word(set: Options) -> &'static [u8]
    ensures { result.now ≡ canonical.options_word set }
{
    match (set.user, set.inherit, set.essential) {
        (false, false, false) => b"0",
        (true, false, false) => b"K_USER",
        (false, true, false) => b"K_INHERIT_PERMS",
        (false, false, true) => b"K_ESSENTIAL",
        (true, true, false) => b"K_USER+K_INHERIT_PERMS",
        (true, false, true) => b"K_USER+K_ESSENTIAL",
        (false, true, true) => b"K_INHERIT_PERMS+K_ESSENTIAL",
        (true, true, true) => b"K_USER+K_INHERIT_PERMS+K_ESSENTIAL",
    }
}

/// The options of a new thread.
pub fn put_options(text: &mut Vec<u8>, set: Options) -> Result<(), OutOfMemory>
    ensures { OnOk result (text.new.items ≡ text.old.items ++ (32 ∷ canonical.options_word set)) }
{
    put(text, options_word(set))
}
