//! Names in script lines that name nothing of the kind wanted.

ghost use Rattle.std.specs.Prelude.{◌≡◌, ◌++◌, ◌<◌, ◌≤◌, ◌^◌, ◌-◌, length, IfOk};
ghost use Rattle.um_document.specs.First.{first_of};
ghost use Rattle.um_description.specs.declared.mentions.Wanted.{Wanted};
ghost use Rattle.um_description.specs.Lines as spec;
ghost use Rattle.um_description.specs.Mentions as mentions;
ghost use Rattle.um_description.specs.Names as names;

use crate::first::first_found;
use crate::flaw::Flaw;
use crate::indexed::Indexed;
use crate::lines::line_place;
use crate::mentions::{Wanted, in_part, in_parts, in_ref, in_term};
use crate::read::{ReadLine, ReadScript};
use std::alloc::Global;
use um_base::{Instr, OutOfMemory, PartRef, PartRefs, Ref, Term};
use um_document::Description;

/// The names of two terms.
fn in_two(d: &Indexed<'_>, first: &Term, second: &Term) -> Option<usize>
    ensures { result ≡ first_of (mentions.strangers d.now (mentions.in_term 1 first.now ++ mentions.in_term 2 second.now)) }
{
    in_term(d, 1, first).or(in_term(d, 2, second))
}

/// The names of three terms.
fn in_three(d: &Indexed<'_>, first: &Term, second: &Term, third: &Term) -> Option<usize>
    ensures { result ≡ first_of (mentions.strangers d.now (mentions.in_term 1 first.now ++ mentions.in_term 2 second.now ++ mentions.in_term 3 third.now)) }
{
    in_two(d, first, second).or(in_term(d, 3, third))
}

/// The names of an address, and of a value behind a size.
fn in_store(d: &Indexed<'_>, addr: &Term, value: &Term) -> Option<usize>
    ensures { result ≡ first_of (mentions.strangers d.now (mentions.in_term 1 addr.now ++ mentions.in_term 3 value.now)) }
{
    in_term(d, 1, addr).or(in_term(d, 3, value))
}

/// The names of a domain and some partitions.
fn in_init(d: &Indexed<'_>, domain: &Ref, parts: &PartRefs) -> Option<usize>
    ensures { result ≡ first_of (mentions.strangers d.now (mentions.in_ref Wanted.Domain 1 domain.now ++ mentions.in_parts 2 parts.now)) }
{
    in_ref(d, Wanted::Domain, 1, domain).or(in_parts(d, parts.as_slice()))
}

/// The names of a domain and a partition.
fn in_edit(d: &Indexed<'_>, domain: &Ref, part: &PartRef) -> Option<usize>
    ensures { result ≡ first_of (mentions.strangers d.now (mentions.in_ref Wanted.Domain 1 domain.now ++ mentions.in_part 2 part.now)) }
{
    in_ref(d, Wanted::Domain, 1, domain).or(in_part(d, 2, part))
}

/// The names of a domain and a thread.
fn in_move(d: &Indexed<'_>, domain: &Ref, thread: &Term) -> Option<usize>
    ensures { result ≡ first_of (mentions.strangers d.now (mentions.in_ref Wanted.Domain 1 domain.now ++ mentions.in_term 2 thread.now)) }
{
    in_ref(d, Wanted::Domain, 1, domain).or(in_term(d, 2, thread))
}

/// The names of a new thread, its stack and its size, and of its script.
fn in_create(
    d: &Indexed<'_>,
    thread: &Term,
    stack: &Term,
    size: &Term,
    script: &Ref,
) -> Option<usize>
    ensures { result ≡ first_of (mentions.strangers d.now (mentions.in_term 1 thread.now ++ mentions.in_term 2 stack.now ++ mentions.in_term 3 size.now ++ mentions.in_ref Wanted.Script 4 script.now)) }
{
    in_three(d, thread, stack, size).or(in_ref(d, Wanted::Script, 4, script))
}

/// The number of the first word of an instruction that names nothing.
#[tactic(auto, unfolding(crate::specs::Mentions::strangers))]
fn stranger_of(d: &Indexed<'_>, instr: &Instr) -> Option<usize>
    ensures { result ≡ first_of (mentions.strangers d.now (mentions.mentions instr.now)) }
{
    match instr {
        Instr::End | Instr::Oops | Instr::Panic => None,
        Instr::Repeat { .. } | Instr::ObjectAlloc { .. } => None,
        Instr::Set { value, .. } | Instr::Add { value, .. } => in_term(d, 2, value),
        Instr::Load { addr, .. } => in_term(d, 2, addr),
        Instr::Store { addr, value, .. } => in_store(d, addr, value),
        Instr::Exec { addr } => in_term(d, 1, addr),
        Instr::DomainInit { domain, parts } => in_init(d, domain, parts),
        Instr::DomainAdd { domain, part } | Instr::DomainRemove { domain, part } => {
            in_edit(d, domain, part)
        }
        Instr::DomainMove { domain, thread } => in_move(d, domain, thread),
        Instr::Grant { object, thread } | Instr::Revoke { object, thread } => {
            in_two(d, object, thread)
        }
        Instr::Release { object }
        | Instr::AllGrant { object }
        | Instr::SemGive { object }
        | Instr::SemReset { object }
        | Instr::MutexInit { object }
        | Instr::MutexUnlock { object }
        | Instr::MsgqPurge { object }
        | Instr::PipeReset { object }
        | Instr::PipeClose { object }
        | Instr::SemTake { object, .. }
        | Instr::MutexLock { object, .. }
        | Instr::SemCount { object, .. }
        | Instr::MsgqUsed { object, .. }
        | Instr::TimerStop { object }
        | Instr::TimerStatus { object, .. }
        | Instr::TimerSync { object, .. } => in_term(d, 1, object),
        Instr::Abort { thread }
        | Instr::Join { thread, .. }
        | Instr::Suspend { thread }
        | Instr::Continue { thread } => in_term(d, 1, thread),
        Instr::Create {
            thread,
            stack,
            size,
            script,
            ..
        } => in_create(d, thread, stack, size, script),
        Instr::UserMode { script } => in_ref(d, Wanted::Script, 1, script),
        Instr::NameSet { thread, addr } => in_two(d, thread, addr),
        Instr::SemInit {
            object,
            count,
            limit,
        } => in_three(d, object, count, limit),
        Instr::MsgqInit {
            object,
            msg_size,
            max_msgs,
        } => in_three(d, object, msg_size, max_msgs),
        Instr::MsgqPut { object, addr, .. }
        | Instr::MsgqGet { object, addr, .. }
        | Instr::StackPop { object, addr, .. }
        | Instr::MsgqPeek { object, addr } => in_two(d, object, addr),
        Instr::StackInit { object, entries } => in_two(d, object, entries),
        Instr::StackPush { object, value } => in_two(d, object, value),
        Instr::PipeInit { object, size } => in_two(d, object, size),
        Instr::TimerStart { object, ticks } => in_two(d, object, ticks),
        Instr::FutexWait { addr, value, .. } => in_two(d, addr, value),
        Instr::FutexWake { addr, .. } => in_term(d, 1, addr),
        Instr::PipeWrite {
            object,
            addr,
            length,
            ..
        }
        | Instr::PipeRead {
            object,
            addr,
            length,
            ..
        } => in_three(d, object, addr, length),
    }
}

/// The column of a word of a line, or that of its end.
fn column_of(line: &[u8], word: usize) -> u32
    requires { length line.now < 2 ^ 32 - 1 }
    ensures { result ≡ mentions.column_of line.now word }
{
    let mut inside = false;
    let mut words = word;
    let mut column = 1u32;
    for byte in line {
        let is_space = *byte == b' ';
        if !inside && !is_space {
            if words == 0 {
                return column;
            }
            words -= 1;
        }
        inside = !is_space;
        column += 1;
    }
    column
}

/// The first name of a line that names nothing.
#[tactic(auto, using(crate::proofs::Firsts::strangers_none), unfolding(crate::specs::Lines::unknown_at))]
fn unknown_in_line(
    d: &Indexed<'_>,
    script: usize,
    index: usize,
    line: &ReadLine<'_>,
) -> Option<Flaw>
    ensures { result ≡ first_of (spec.unknown_at d.now script index line.now) }
{
    match line.outcome() {
        Ok(instr) => match stranger_of(d, instr) {
            Some(word) => Some(Flaw::LineName {
                place: line_place(script, index),
                column: column_of(line.bytes(), word),
            }),
            None => None,
        },
        Err(_) => None,
    }
}

/// The first name of a script's lines that names nothing.
#[tactic(auto, unfolding(crate::specs::Lines::unknown_in))]
fn unknown_in_script(d: &Indexed<'_>, script: usize, lines: &[ReadLine<'_>]) -> Option<Flaw>
    ensures { result ≡ first_of (spec.unknown_in d.now script lines.now) }
{
    first_found(lines, |index, line| unknown_in_line(d, script, index, line))
}

/// The first name of some scripts' lines that names nothing.
pub fn first_stranger(
    alloc: Global,
    d: &Description,
    scripts: &[ReadScript<'_>],
) -> Result<Option<Flaw>, OutOfMemory>
    ensures { IfOk result (λ found. found ≡ first_of (names.each (spec.unknown_in_script d.now) 0 scripts.now)) }
{
    let indexed = Indexed::new(alloc, d)?;
    Ok(first_found(
        scripts,
        |index, script| unknown_in_script(&indexed, index, script.lines()),
    ))
}
