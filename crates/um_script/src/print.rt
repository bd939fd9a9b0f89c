//! Instructions to their canonical lines.

ghost use Rattle.std.specs.Prelude.{◌≡◌, ◌∷◌, ◌++◌, IfOk, IsTrue, Ok, OnOk};
ghost use Rattle.um_script.specs.Canonical as canonical;
ghost use Rattle.um_script.specs.{Lines.{line_of}, Writable.{is_line}};

use crate::mnemonic::Mnemonic;
use crate::writing::{
    put, put_how_many, put_named, put_number, put_options, put_part, put_parts, put_priority,
    put_register, put_term, put_timeout,
};
use std::alloc::Global;
use um_base::{Instr, OutOfMemory, Term};
use um_vocabulary::kind_word;

/// What a line of the instruction begins with.
fn mnemonic(line: &Instr) -> Mnemonic
    ensures { result ≡ canonical.mnemonic line.now }
{
    match line {
        Instr::End => Mnemonic::End,
        Instr::Oops => Mnemonic::Oops,
        Instr::Panic => Mnemonic::Panic,
        Instr::Repeat { .. } => Mnemonic::Repeat,
        Instr::Set { .. } => Mnemonic::Set,
        Instr::Add { .. } => Mnemonic::Add,
        Instr::Load { .. } => Mnemonic::Load,
        Instr::Store { .. } => Mnemonic::Store,
        Instr::Exec { .. } => Mnemonic::Exec,
        Instr::DomainInit { .. } => Mnemonic::DomainInit,
        Instr::DomainAdd { .. } => Mnemonic::DomainAdd,
        Instr::DomainRemove { .. } => Mnemonic::DomainRemove,
        Instr::DomainMove { .. } => Mnemonic::DomainMove,
        Instr::ObjectAlloc { .. } => Mnemonic::ObjectAlloc,
        Instr::Grant { .. } => Mnemonic::Grant,
        Instr::Revoke { .. } => Mnemonic::Revoke,
        Instr::Release { .. } => Mnemonic::Release,
        Instr::AllGrant { .. } => Mnemonic::AllGrant,
        Instr::Create { .. } => Mnemonic::Create,
        Instr::UserMode { .. } => Mnemonic::UserMode,
        Instr::NameSet { .. } => Mnemonic::NameSet,
        Instr::SemInit { .. } => Mnemonic::SemInit,
        Instr::SemTake { .. } => Mnemonic::SemTake,
        Instr::SemGive { .. } => Mnemonic::SemGive,
        Instr::SemReset { .. } => Mnemonic::SemReset,
        Instr::SemCount { .. } => Mnemonic::SemCount,
        Instr::MutexInit { .. } => Mnemonic::MutexInit,
        Instr::MutexLock { .. } => Mnemonic::MutexLock,
        Instr::MutexUnlock { .. } => Mnemonic::MutexUnlock,
        Instr::MsgqInit { .. } => Mnemonic::MsgqInit,
        Instr::MsgqPut { .. } => Mnemonic::MsgqPut,
        Instr::MsgqGet { .. } => Mnemonic::MsgqGet,
        Instr::MsgqPeek { .. } => Mnemonic::MsgqPeek,
        Instr::MsgqPurge { .. } => Mnemonic::MsgqPurge,
        Instr::MsgqUsed { .. } => Mnemonic::MsgqUsed,
        Instr::StackInit { .. } => Mnemonic::StackInit,
        Instr::StackPush { .. } => Mnemonic::StackPush,
        Instr::StackPop { .. } => Mnemonic::StackPop,
        Instr::PipeInit { .. } => Mnemonic::PipeInit,
        Instr::PipeWrite { .. } => Mnemonic::PipeWrite,
        Instr::PipeRead { .. } => Mnemonic::PipeRead,
        Instr::PipeReset { .. } => Mnemonic::PipeReset,
        Instr::PipeClose { .. } => Mnemonic::PipeClose,
        Instr::TimerStart { .. } => Mnemonic::TimerStart,
        Instr::TimerStop { .. } => Mnemonic::TimerStop,
        Instr::TimerStatus { .. } => Mnemonic::TimerStatus,
        Instr::TimerSync { .. } => Mnemonic::TimerSync,
        Instr::Abort { .. } => Mnemonic::Abort,
        Instr::Join { .. } => Mnemonic::Join,
        Instr::Suspend { .. } => Mnemonic::Suspend,
        Instr::Continue { .. } => Mnemonic::Continue,
        Instr::FutexWait { .. } => Mnemonic::FutexWait,
        Instr::FutexWake { .. } => Mnemonic::FutexWake,
    }
}

fn put_two(text: &mut Vec<u8>, first: &Term, second: &Term) -> Result<(), OutOfMemory>
    ensures { OnOk result (text.new.items ≡ text.old.items ++ (32 ∷ canonical.term_text first.now) ++ (32 ∷ canonical.term_text second.now)) }
{
    put_term(text, first)?;
    put_term(text, second)
}

fn put_three(
    text: &mut Vec<u8>,
    first: &Term,
    second: &Term,
    third: &Term,
) -> Result<(), OutOfMemory>
    ensures { OnOk result (text.new.items ≡ text.old.items ++ (32 ∷ canonical.term_text first.now) ++ (32 ∷ canonical.term_text second.now) ++ (32 ∷ canonical.term_text third.now)) }
{
    put_two(text, first, second)?;
    put_term(text, third)
}

/// The operands, each behind a space.
fn put_operands(text: &mut Vec<u8>, line: &Instr) -> Result<(), OutOfMemory>
    ensures { OnOk result (text.new.items ≡ canonical.with_operands text.old.items (canonical.operands_of line.now)) }
{
    match line {
        Instr::End | Instr::Oops | Instr::Panic => Ok(()),
        Instr::Repeat { times } => put_number(text, *times as u32),
        Instr::Set { to, value } | Instr::Add { to, value } => {
            put_register(text, *to)?;
            put_term(text, value)
        }
        Instr::Load { to, addr, size } => {
            put_register(text, *to)?;
            put_term(text, addr)?;
            put_number(text, *size as u32)
        }
        Instr::Store { addr, size, value } => {
            put_term(text, addr)?;
            put_number(text, *size as u32)?;
            put_term(text, value)
        }
        Instr::DomainInit { domain, parts } => {
            put_named(text, domain)?;
            put_parts(text, parts.as_slice())
        }
        Instr::DomainAdd { domain, part } | Instr::DomainRemove { domain, part } => {
            put_named(text, domain)?;
            put_part(text, part)
        }
        Instr::DomainMove { domain, thread } => {
            put_named(text, domain)?;
            put_term(text, thread)
        }
        Instr::ObjectAlloc { kind, to } => {
            put(text, kind_word(*kind))?;
            put_register(text, *to)
        }
        Instr::UserMode { script } => put_named(text, script),
        Instr::Create {
            thread,
            stack,
            size,
            script,
            priority,
            options,
        } => {
            put_three(text, thread, stack, size)?;
            put_named(text, script)?;
            put_priority(text, *priority)?;
            put_options(text, *options)
        }
        Instr::Exec { addr: object }
        | Instr::Release { object }
        | Instr::AllGrant { object }
        | Instr::SemGive { object }
        | Instr::SemReset { object }
        | Instr::MutexInit { object }
        | Instr::MutexUnlock { object }
        | Instr::MsgqPurge { object }
        | Instr::PipeReset { object }
        | Instr::PipeClose { object }
        | Instr::TimerStop { object }
        | Instr::Abort { thread: object }
        | Instr::Suspend { thread: object }
        | Instr::Continue { thread: object } => put_term(text, object),
        Instr::Grant { object, thread }
        | Instr::Revoke { object, thread }
        | Instr::NameSet {
            thread: object,
            addr: thread,
        }
        | Instr::MsgqPeek {
            object,
            addr: thread,
        }
        | Instr::StackInit {
            object,
            entries: thread,
        }
        | Instr::StackPush {
            object,
            value: thread,
        }
        | Instr::PipeInit {
            object,
            size: thread,
        }
        | Instr::TimerStart {
            object,
            ticks: thread,
        } => put_two(text, object, thread),
        Instr::SemInit {
            object,
            count,
            limit,
        }
        | Instr::MsgqInit {
            object,
            msg_size: count,
            max_msgs: limit,
        } => put_three(text, object, count, limit),
        Instr::SemTake { object, timeout }
        | Instr::MutexLock { object, timeout }
        | Instr::Join {
            thread: object,
            timeout,
        } => {
            put_term(text, object)?;
            put_timeout(text, *timeout)
        }
        Instr::SemCount { object, to }
        | Instr::MsgqUsed { object, to }
        | Instr::TimerStatus { object, to }
        | Instr::TimerSync { object, to } => {
            put_term(text, object)?;
            put_register(text, *to)
        }
        Instr::MsgqPut {
            object,
            addr,
            timeout,
        }
        | Instr::MsgqGet {
            object,
            addr,
            timeout,
        }
        | Instr::StackPop {
            object,
            addr,
            timeout,
        }
        | Instr::FutexWait {
            addr: object,
            value: addr,
            timeout,
        } => {
            put_two(text, object, addr)?;
            put_timeout(text, *timeout)
        }
        Instr::PipeWrite {
            object,
            addr,
            length,
            timeout,
        }
        | Instr::PipeRead {
            object,
            addr,
            length,
            timeout,
        } => {
            put_three(text, object, addr, length)?;
            put_timeout(text, *timeout)
        }
        Instr::FutexWake { addr, all } => {
            put_term(text, addr)?;
            put_how_many(text, *all)
        }
    }
}

/// The canonical line of an instruction, put behind a text.
pub fn put_line(text: &mut Vec<u8>, line: &Instr) -> Result<(), OutOfMemory>
    ensures { OnOk result (text.new.items ≡ text.old.items ++ canonical.canonical line.now) }
{
    text.extend_from_slice(mnemonic(line).word())?;
    put_operands(text, line)
}

/// The canonical line of an instruction that a line can give.
pub fn print_line(alloc: Global, line: &Instr) -> Result<Vec<u8>, OutOfMemory>
    requires { IsTrue (is_line line.now) }
    ensures text { IfOk result (λ text. text.items ≡ canonical.canonical line.now) }
    ensures again { IfOk result (λ text. line_of text.items ≡ Ok line.now) }
{
    let mut text = Vec::new(alloc);
    put_line(&mut text, line)?;
    Ok(text)
}
