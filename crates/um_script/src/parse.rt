//! Lines to instructions.

ghost use Rattle.std.specs.Prelude.{◌≡◌, ◌-◌, ◌<◌, ◌^◌, length, Ok, Err, MatchResult, IfOk, IsTrue};
ghost use Rattle.um_script.specs.{
  Cursor.{words_left},
  Faults.{Gives},
  Lines.{instruction, alone, whole, line_of},
  Subjects.{is_call, is_later_call, is_service, is_data_passing},
  Writable.{is_line},
};

use crate::fault::{LineFault, LineKind};
use crate::mnemonic::Mnemonic;
use crate::words::Words;
use um_base::Instr;

/// An instruction whose operands are read from left to right, each by the method for its form.
macro_rules! read {
    ($words:ident => $instr:ident { $($field:ident: $form:ident),* }) => {
        Ok(Instr::$instr { $($field: $words.$form()?),* })
    };
}

impl Words<'_> {
    /// The operands of an instruction.
    fn instruction(&mut self, mnemonic: Mnemonic) -> Result<Instr, LineFault>
        ensures { Gives result (instruction mnemonic (words_left self.old)) (words_left self.new) }
    {
        match mnemonic {
            Mnemonic::End => Ok(Instr::End),
            Mnemonic::Repeat => read!(self => Repeat { times: times }),
            Mnemonic::Set => read!(self => Set { to: register, value: term }),
            Mnemonic::Add => read!(self => Add { to: register, value: term }),
            Mnemonic::Load => read!(self => Load { to: register, addr: term, size: size }),
            Mnemonic::Store => read!(self => Store { addr: term, size: size, value: term }),
            Mnemonic::Exec => read!(self => Exec { addr: term }),
            call => self.call(call),
        }
    }

    /// The operands of a call.
    fn call(&mut self, mnemonic: Mnemonic) -> Result<Instr, LineFault>
        requires { IsTrue (is_call mnemonic) }
        ensures { Gives result (instruction mnemonic (words_left self.old)) (words_left self.new) }
    {
        match mnemonic {
            Mnemonic::Oops => Ok(Instr::Oops),
            Mnemonic::Panic => Ok(Instr::Panic),
            Mnemonic::DomainInit => read!(self => DomainInit { domain: named, parts: parts }),
            Mnemonic::DomainAdd => read!(self => DomainAdd { domain: named, part: part }),
            Mnemonic::DomainRemove => read!(self => DomainRemove { domain: named, part: part }),
            Mnemonic::DomainMove => read!(self => DomainMove { domain: named, thread: term }),
            Mnemonic::ObjectAlloc => read!(self => ObjectAlloc { kind: kind, to: register }),
            Mnemonic::Grant => read!(self => Grant { object: term, thread: term }),
            Mnemonic::Revoke => read!(self => Revoke { object: term, thread: term }),
            Mnemonic::Release => read!(self => Release { object: term }),
            Mnemonic::AllGrant => read!(self => AllGrant { object: term }),
            Mnemonic::Create => read!(self => Create {
                thread: term, stack: term, size: term,
                script: named, priority: priority, options: options
            }),
            Mnemonic::UserMode => read!(self => UserMode { script: named }),
            Mnemonic::NameSet => read!(self => NameSet { thread: term, addr: term }),
            call => self.stop_call(call),
        }
    }

    /// The operands of a call that stops another thread or waits for its end, of a call on a futex, or of a call of a service.
    fn stop_call(&mut self, mnemonic: Mnemonic) -> Result<Instr, LineFault>
        requires { IsTrue (is_later_call mnemonic) }
        ensures { Gives result (instruction mnemonic (words_left self.old)) (words_left self.new) }
    {
        match mnemonic {
            Mnemonic::Abort => read!(self => Abort { thread: term }),
            Mnemonic::Join => read!(self => Join { thread: term, timeout: timeout }),
            Mnemonic::Suspend => read!(self => Suspend { thread: term }),
            Mnemonic::Continue => read!(self => Continue { thread: term }),
            Mnemonic::FutexWait =>
                read!(self => FutexWait { addr: term, value: term, timeout: timeout }),
            Mnemonic::FutexWake => read!(self => FutexWake { addr: term, all: how_many }),
            call => self.service_call(call),
        }
    }

    /// The operands of a call of a service or of a timer.
    fn service_call(&mut self, mnemonic: Mnemonic) -> Result<Instr, LineFault>
        requires { IsTrue (is_service mnemonic) }
        ensures { Gives result (instruction mnemonic (words_left self.old)) (words_left self.new) }
    {
        match mnemonic {
            Mnemonic::SemInit => read!(self => SemInit { object: term, count: term, limit: term }),
            Mnemonic::SemTake => read!(self => SemTake { object: term, timeout: timeout }),
            Mnemonic::SemGive => read!(self => SemGive { object: term }),
            Mnemonic::SemReset => read!(self => SemReset { object: term }),
            Mnemonic::SemCount => read!(self => SemCount { object: term, to: register }),
            Mnemonic::MutexInit => read!(self => MutexInit { object: term }),
            Mnemonic::MutexLock => read!(self => MutexLock { object: term, timeout: timeout }),
            Mnemonic::MutexUnlock => read!(self => MutexUnlock { object: term }),
            Mnemonic::TimerStart => read!(self => TimerStart { object: term, ticks: term }),
            Mnemonic::TimerStop => read!(self => TimerStop { object: term }),
            Mnemonic::TimerStatus => read!(self => TimerStatus { object: term, to: register }),
            Mnemonic::TimerSync => read!(self => TimerSync { object: term, to: register }),
            call => self.data_passing_call(call),
        }
    }

    /// The operands of a call of a service by which threads pass data.
    fn data_passing_call(&mut self, mnemonic: Mnemonic) -> Result<Instr, LineFault>
        requires { IsTrue (is_data_passing mnemonic) }
        ensures { Gives result (instruction mnemonic (words_left self.old)) (words_left self.new) }
    {
        match mnemonic {
            Mnemonic::MsgqInit =>
                read!(self => MsgqInit { object: term, msg_size: term, max_msgs: term }),
            Mnemonic::MsgqPut =>
                read!(self => MsgqPut { object: term, addr: term, timeout: timeout }),
            Mnemonic::MsgqGet =>
                read!(self => MsgqGet { object: term, addr: term, timeout: timeout }),
            Mnemonic::MsgqPeek => read!(self => MsgqPeek { object: term, addr: term }),
            Mnemonic::MsgqPurge => read!(self => MsgqPurge { object: term }),
            Mnemonic::MsgqUsed => read!(self => MsgqUsed { object: term, to: register }),
            Mnemonic::StackInit => read!(self => StackInit { object: term, entries: term }),
            Mnemonic::StackPush => read!(self => StackPush { object: term, value: term }),
            Mnemonic::StackPop =>
                read!(self => StackPop { object: term, addr: term, timeout: timeout }),
            Mnemonic::PipeInit => read!(self => PipeInit { object: term, size: term }),
            Mnemonic::PipeWrite =>
                read!(self => PipeWrite { object: term, addr: term, length: term, timeout: timeout }),
            Mnemonic::PipeRead =>
                read!(self => PipeRead { object: term, addr: term, length: term, timeout: timeout }),
            Mnemonic::PipeReset => read!(self => PipeReset { object: term }),
            Mnemonic::PipeClose => read!(self => PipeClose { object: term }),
            _ => unreachable!(),
        }
    }

    /// The instruction, where no word is left.
    fn alone(&mut self, instr: Instr) -> Result<Instr, LineFault>
        ensures { result ≡ alone instr (words_left self.old) }
    {
        match self.next() {
            None => Ok(instr),
            Some(word) => Err(LineFault {
                kind: LineKind::Extra,
                column: word.column,
            }),
        }
    }

    /// What was read, where no word is left.
    fn ended(&mut self, read: Result<Instr, LineFault>) -> Result<Instr, LineFault>
        ensures { MatchResult read (λ i. result ≡ alone i (words_left self.old)) (λ e. result ≡ Err e) }
    {
        match read {
            Ok(instr) => self.alone(instr),
            Err(fault) => Err(fault),
        }
    }

    /// The operands of an instruction, and no more words.
    fn whole(&mut self, mnemonic: Mnemonic) -> Result<Instr, LineFault>
        ensures { result ≡ whole mnemonic (words_left self.old) }
    {
        let read = self.instruction(mnemonic);
        self.ended(read)
    }
}

/// The instruction of a line, or its first fault from the left.
#[tactic(auto, using(crate::proofs::ReadWritable::read_writable))]
pub fn parse_line(line: &[u8]) -> Result<Instr, LineFault>
    requires { length line.now < 2 ^ 32 - 1 }
    ensures value { result ≡ line_of line.now }
    // What a line gives has a canonical line.
    ensures writable { IfOk result (λ instr. IsTrue (is_line instr)) }
{
    let mut words = Words::of_line(line);
    let first = words.word()?;
    match Mnemonic::of_word(first.bytes) {
        None => Err(LineFault {
            kind: LineKind::UnknownWord,
            column: first.column,
        }),
        Some(mnemonic) => words.whole(mnemonic),
    }
}
