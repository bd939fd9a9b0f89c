//! The blocks of scripts: each `repeat` with its `end`.

ghost use Rattle.std.specs.{Prelude.{◌≡◌, false, map, IfOk}, List.{list_any}};
ghost use Rattle.um_document.specs.First.{first_of};
ghost use Rattle.um_description.specs.Lines as spec;
ghost use Rattle.um_description.specs.Names as names;

use crate::lines::line_place;
use crate::read::{ReadLine, ReadScript};
use std::alloc::Global;
use um_base::{Instr, OutOfMemory};
use um_document::Place;

/// What a line is to the blocks of a script.
#[derive(Clone, Copy, PartialEq, Eq)]
pub enum Bracket {
    Opens,
    Closes,
    Stays,
}

/// What a line is to the blocks of its script.
#[tactic(auto, unfolding(crate::specs::Lines::bracket_at))]
fn bracket_at(line: &ReadLine<'_>) -> Bracket
    ensures { result ≡ spec.bracket_at line.now }
{
    match line.outcome() {
        Ok(Instr::Repeat { .. }) => Bracket::Opens,
        Ok(Instr::End) => Bracket::Closes,
        _ => Bracket::Stays,
    }
}

/// What lines are to the blocks of their script.
fn brackets(alloc: Global, lines: &[ReadLine<'_>]) -> Result<Vec<Bracket>, OutOfMemory>
    ensures { IfOk result (λ found. found.items ≡ map spec.bracket_at lines.now) }
{
    let mut found = Vec::new(alloc);
    for line in lines {
        found.push(bracket_at(line))?;
    }
    Ok(found)
}

fn is_closing(bracket: Bracket) -> bool
    ensures { result ≡ spec.closing bracket }
{
    matches!(bracket, Bracket::Closes)
}

fn has_closing(behind: &[Bracket]) -> bool
    ensures { result ≡ list_any spec.closing behind.now }
{
    behind.iter().any(|bracket| is_closing(*bracket))
}

fn begins_closing(behind: &[Bracket]) -> bool
    ensures { result ≡ spec.begins_closing behind.now }
{
    matches!(behind, [first, ..] if is_closing(*first))
}

/// Whether an `end` stands right behind a `repeat`, or none behind it at all.
fn closes_badly(behind: &[Bracket]) -> bool
    ensures { result ≡ spec.closes_badly behind.now }
{
    begins_closing(behind) || !has_closing(behind)
}

/// The first line that breaks a block.
fn broken_block(script: usize, brackets: &[Bracket]) -> Option<Place>
    ensures { result ≡ first_of (spec.broken_blocks false script 0 brackets.now) }
{
    let mut within = false;
    let mut index = 0usize;
    let mut rest = brackets;
    'lines: loop {
        match rest {
            [] => return None,
            [Bracket::Stays, behind @ ..] => rest = behind,
            [Bracket::Closes, behind @ ..] => {
                if !within {
                    return Some(line_place(script, index));
                }
                within = false;
                rest = behind;
            }
            [Bracket::Opens, behind @ ..] => {
                if within || closes_badly(behind) {
                    return Some(line_place(script, index));
                }
                within = true;
                rest = behind;
            }
        }
        index += 1;
    }
}

/// The first line of a script that breaks a block.
#[tactic(auto, unfolding(crate::specs::Lines::blocks_in))]
fn block_of(
    alloc: Global,
    script: usize,
    lines: &[ReadLine<'_>],
) -> Result<Option<Place>, OutOfMemory>
    ensures { IfOk result (λ found. found ≡ first_of (spec.blocks_in script lines.now)) }
{
    let found = brackets(alloc, lines)?;
    Ok(broken_block(script, &found))
}

/// The first line of some scripts that breaks a block.
pub fn first_block(alloc: Global, scripts: &[ReadScript<'_>]) -> Result<Option<Place>, OutOfMemory>
    ensures { IfOk result (λ found. found ≡ first_of (names.each spec.blocks_of 0 scripts.now)) }
{
    let mut index = 0usize;
    for script in scripts {
        let found = block_of(alloc, index, script.lines())?;
        if found.is_some() {
            return Ok(found);
        }
        index += 1;
    }
    Ok(None)
}
