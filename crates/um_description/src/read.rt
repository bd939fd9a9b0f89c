//! Scripts whose lines are read, each once.

ghost use Rattle.std.specs.Prelude.{◌≡◌, ◌<◌, ◌-◌, ◌^◌, length, IfOk};
ghost use Rattle.um_script.specs.Lines.{line_of};

use std::alloc::Global;
use std::marker::Model;
use um_base::{Instr, OutOfMemory};
use um_document::{ScriptEntry, Text};
use um_script::{LineFault, parse_line};

/// The longest line whose columns have 32 bits. No document of fewer than 4,294,967,295 bytes has a longer one.
const LONGEST: usize = 4_294_967_294;

/// A line, with what it says or what is wrong with it. Contracts see the line.
#[derive(Drop)]
pub struct ReadLine<'a> {
    text: &'a Text,
    outcome: Result<Instr, LineFault>,
}

impl<'a> Model for ReadLine<'a> {
    ghost use Rattle.std.specs.Prelude.{◌≡◌, ◌<◌, ◌-◌, ◌^◌, length, List, ℕ};
    ghost use Rattle.um_script.specs.Lines.{line_of};

    ghost Value = { List ℕ };

    ghost view = { λ l. l.text.now };

    ghost invariant = { λ l. (l.outcome ≡ line_of l.text.now) × (length l.text.now < 2 ^ 32 - 1) };
}

impl<'a> ReadLine<'a> {
    /// A line, once it is read. One that is longer than any memory is want of it.
    pub fn of(text: &'a Text) -> Result<ReadLine<'a>, OutOfMemory>
        ensures { IfOk result (λ line. line ≡ text.now) }
    {
        if text.len() > LONGEST {
            return Err(OutOfMemory);
        }
        let outcome = parse_line(text.as_slice());
        Ok(ReadLine { text, outcome })
    }

    /// The line.
    pub fn bytes(&self) -> &'a [u8]
        ensures value { result.now ≡ self.now }
        ensures short { length self.now < 2 ^ 32 - 1 }
    {
        self.text.as_slice()
    }

    /// What it says, or what is wrong with it.
    pub fn outcome(&self) -> &Result<Instr, LineFault>
        ensures { result.now ≡ line_of self.now }
    {
        &self.outcome
    }
}

/// A script whose lines are read. Contracts see its entry.
#[derive(Drop)]
pub struct ReadScript<'a> {
    entry: &'a ScriptEntry,
    lines: Vec<ReadLine<'a>>,
}

impl<'a> Model for ReadScript<'a> {
    ghost use Rattle.std.specs.Prelude.{◌≡◌};
    ghost use Rattle.um_document.specs.declared.description.ScriptEntry.{ScriptEntry};

    ghost Value = { ScriptEntry };

    ghost view = { λ s. s.entry.now };

    ghost invariant = { λ s. s.lines.items ≡ s.entry.now.lines };
}

impl<'a> ReadScript<'a> {
    /// The entry.
    pub fn entry(&self) -> &'a ScriptEntry
        ensures { result.now ≡ self.now }
    {
        self.entry
    }

    /// Its lines.
    pub fn lines(&self) -> &[ReadLine<'a>]
        ensures { result.now ≡ self.now.lines }
    {
        self.lines.as_slice()
    }
}

/// Lines, once they are read.
fn read_lines<'a>(alloc: Global, texts: &'a [Text]) -> Result<Vec<ReadLine<'a>>, OutOfMemory>
    ensures { IfOk result (λ all. all.items ≡ texts.now) }
{
    let mut all = Vec::with_capacity(alloc, texts.len())?;
    for text in texts {
        all.push(ReadLine::of(text)?)?;
    }
    Ok(all)
}

/// Scripts, once their lines are read.
pub fn read_scripts<'a>(
    alloc: Global,
    entries: &'a [ScriptEntry],
) -> Result<Vec<ReadScript<'a>>, OutOfMemory>
    ensures { IfOk result (λ all. all.items ≡ entries.now) }
{
    let mut all = Vec::with_capacity(alloc, entries.len())?;
    for entry in entries {
        let lines = read_lines(alloc, entry.lines.as_slice())?;
        all.push(ReadScript { entry, lines })?;
    }
    Ok(all)
}
