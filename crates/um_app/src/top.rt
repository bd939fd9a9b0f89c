//! The top call.

ghost use Rattle.std.specs.{
  Prelude.{◌≡◌, ◌≢◌, ◌↔◌, ◌<◌, ◌≤◌, ◌⊎◌, IsTrue, List, ℕ, false, true, map, Some, None, length, string_bytes},
  Io.KnownBytes.{Appends},
};
ghost use Rattle.um_base.specs.declared.image.Image.{Image};
ghost use Rattle.um_command.specs.{declared.command.Command.{Command}, Words.{HasFew, command_of}};
ghost use Rattle.um_gen.specs.Description.{description};
ghost use Rattle.um_io.specs.{Bytes.{AppendsFront}, Causes.{Rose}};
ghost use Rattle.um_app.specs.{
  Answered.{IsRefusal},
  Inputs.{IsOf, IsTooLong, ReadsAll, ReadsTooLong, ReadsWithin, is_reading, is_serial, most_read},
  Messages.{line_of, refused_line},
  Top.{Answers, HasRan, IsRead, Tells},
};

use crate::answer::{Answer, answer_to, thread_answer_to};
use crate::status::Status;
use crate::threads::ThreadText;
use std::alloc::Global;
use std::sync::Wait;
use std::thread::Threads;
use um_board::Contents;
use um_command::{Command, read_command};
use um_io::{Gate, ReadAll, Sink, Source, read_all, write_all};
use um_site::Closed;

/// How many bytes a description has at most.
const MOST_DESCRIBED: u32 = 0x10_0000;

/// How many bytes `audit` reads at most.
const MOST_AUDITED: u32 = 0x400_0000;

/// How many bytes a command reads at most.
fn limit(command: Command) -> u32
    ensures { result ≡ most_read command }
{
    match command {
        Command::Audit => MOST_AUDITED,
        _ => MOST_DESCRIBED,
    }
}

/// Writes a text that stands in memory.
fn write_text<O: Sink>(out: &mut O, text: &[u8]) -> Status
    ensures either { (result ≡ Status.Done) ⊎ (result ≡ Status.WriteFault) }
    ensures done { result ≡ Status.Done → Appends (O.taken out.old) (O.taken out.new) text.now }
    ensures write_fault { result ≡ Status.WriteFault → Rose (O.faults out.old) (O.faults out.new) }
    ensures front { result ≡ Status.WriteFault → AppendsFront (O.taken out.old) (O.taken out.new) text.now
        × (O.room out.old < length text.now) }
{
    match write_all(out, text) {
        Ok(()) => Status::Done,
        Err(_) => Status::WriteFault,
    }
}

/// Writes a line to the error sink.
fn tell<E: Sink>(err: &mut E, line: &str)
    ensures { Tells (E.taken err.old) (E.taken err.new) (E.faults err.old) (E.faults err.new) line.now }
{
    let _ = write_all(err, line.as_bytes());
}

/// Writes the line of a status to the error sink. `Done` has none.
fn tell_status<E: Sink>(err: &mut E, status: Status)
    ensures quiet { status ≡ Status.Done → err.new ≡ err.old }
    ensures told { status ≢ Status.Done
        → Tells (E.taken err.old) (E.taken err.new) (E.faults err.old) (E.faults err.new) (line_of status) }
{
    if status != Status::Done {
        tell(err, status.line());
    }
}

/// Writes the line of a status to the error sink, and returns the status.
fn told<E: Sink>(err: &mut E, status: Status) -> Status
    ensures status { result ≡ status }
    ensures quiet { result ≡ Status.Done → err.new ≡ err.old }
    ensures told { result ≢ Status.Done
        → Tells (E.taken err.old) (E.taken err.new) (E.faults err.old) (E.faults err.new) (line_of result) }
{
    tell_status(err, status);
    status
}

/// Runs a command that reads its input, on one thread.
fn described<S: Source, O: Sink, E: Sink>(
    alloc: Global,
    command: Command,
    source: &mut S,
    out: &mut O,
    err: &mut E,
) -> Status
    requires few { HasFew command }
    requires serial { is_serial command ≡ true }
    requires reading { IsTrue (is_reading command) }
    ensures done { result ≡ Status.Done → (written : List ℕ)
        × IsRead command (S.left source.old) (S.left source.new) written
        × Appends (O.taken out.old) (O.taken out.new) written }
    ensures done_quiet { result ≡ Status.Done → err.new ≡ err.old }
    ensures complete { (input : List ℕ) → S.left source.old ≡ Some input → length input ≤ most_read command
        → (image : Image) (trace : List ℕ) → IsOf command input image trace
        → ¬ Rose (S.faults source.old) (S.faults source.new) → ¬ Rose (O.faults out.old) (O.faults out.new)
        → (result ≡ Status.Done) ⊎ (result ≡ Status.NoMemory) }
    ensures no_usage { result ≢ Status.Usage }
    ensures read_fault { result ≡ Status.ReadFault → Rose (S.faults source.old) (S.faults source.new) }
    ensures too_long { result ≡ Status.TooLong
        → ReadsTooLong command (S.left source.old) (S.left source.new) }
    ensures exceeds { (input : List ℕ) → S.left source.old ≡ Some input → IsTooLong command input
        → ¬ Rose (S.faults source.old) (S.faults source.new)
        → (result ≡ Status.TooLong) ⊎ (result ≡ Status.NoMemory) }
    ensures within { result ≢ Status.TooLong → result ≢ Status.NoMemory
        → ReadsWithin command (S.left source.old) (S.left source.new) }
    ensures refused { result ≡ Status.Refused → (input line : List ℕ)
        × ReadsAll command (S.left source.old) (S.left source.new) input
        × IsRefusal command input line
        × Tells (E.taken err.old) (E.taken err.new) (E.faults err.old) (E.faults err.new) line }
    ensures refuses { (input line : List ℕ) → S.left source.old ≡ Some input
        → length input ≤ most_read command → IsRefusal command input line
        → ¬ Rose (S.faults source.old) (S.faults source.new)
        → (result ≡ Status.Refused) ⊎ (result ≡ Status.NoMemory) }
    ensures write_fault { result ≡ Status.WriteFault → Rose (O.faults out.old) (O.faults out.new) }
    ensures front { result ≡ Status.WriteFault → (written : List ℕ)
        × IsRead command (S.left source.old) (S.left source.new) written
        × AppendsFront (O.taken out.old) (O.taken out.new) written × (O.room out.old < length written) }
    ensures nothing_written { result ≢ Status.Done → result ≢ Status.WriteFault → out.new ≡ out.old }
    ensures told { result ≢ Status.Done → result ≢ Status.Refused
        → Tells (E.taken err.old) (E.taken err.new) (E.faults err.old) (E.faults err.new) (line_of result) }
    ensures source_most { S.most source.new ≡ S.most source.old }
{
    let input = match read_all(alloc, source, limit(command)) {
        Ok(input) => input,
        Err(ReadAll::Fault) => return told(err, Status::ReadFault),
        Err(ReadAll::TooLong) => return told(err, Status::TooLong),
        Err(ReadAll::Memory) => return told(err, Status::NoMemory),
    };
    match answer_to(alloc, command, &input) {
        Answer::Text(text) => {
            let status = write_text(out, &text);
            tell_status(err, status);
            status
        }
        Answer::Refused(line) => {
            tell(err, line.as_str());
            Status::Refused
        }
        Answer::TooLong => told(err, Status::TooLong),
        Answer::NoMemory => told(err, Status::NoMemory),
    }
}

/// Hands on the board of a run whose text was written whole.
fn leave(ran: &mut Option<Closed<Contents>>, closed: Closed<Contents>, status: Status)
    requires none { ran.old ≡ None }
    ensures done { status ≡ Status.Done → ran.new ≡ Some closed }
    ensures other { status ≢ Status.Done → ran.new ≡ None }
{
    if status == Status::Done {
        match ran.replace(closed) {
            Some(_) => unreachable!(),
            None => {}
        }
    } else {
        closed.free();
    }
}

/// The command `run`, whose processors are threads.
fn threaded<R: AllocGlobal + Threads + Wait + Sync, S: Source, O: Sink, E: Sink, G: Gate + Sync>(
    rt: &R,
    cpus: u8,
    source: &mut S,
    out: &mut O,
    err: &mut E,
    gate: &G,
    ran: &mut Option<Closed<Contents>>,
) -> Status
    requires none { ran.old ≡ None }
    requires some { 1 ≤ cpus }
    requires few { cpus ≤ 8 }
    ensures done { result ≡ Status.Done → (written : List ℕ)
        × IsRead (Command.Run cpus) (S.left source.old) (S.left source.new) written
        × Appends (O.taken out.old) (O.taken out.new) written }
    ensures ran { result ≡ Status.Done → (written : List ℕ)
        × HasRan cpus (S.left source.old) (S.left source.new) ran.new written
        × Appends (O.taken out.old) (O.taken out.new) written }
    ensures unplayed { result ≢ Status.Done → ran.new ≡ None }
    ensures done_quiet { result ≡ Status.Done → err.new ≡ err.old }
    ensures complete { (input : List ℕ) → S.left source.old ≡ Some input
        → length input ≤ most_read (Command.Run cpus)
        → (image : Image) (trace : List ℕ) → IsOf (Command.Run cpus) input image trace
        → ¬ Rose (S.faults source.old) (S.faults source.new) → ¬ Rose (O.faults out.old) (O.faults out.new)
        → (result ≡ Status.Done) ⊎ (result ≡ Status.NoMemory) }
    ensures no_usage { result ≢ Status.Usage }
    ensures read_fault { result ≡ Status.ReadFault → Rose (S.faults source.old) (S.faults source.new) }
    ensures too_long { result ≡ Status.TooLong
        → ReadsTooLong (Command.Run cpus) (S.left source.old) (S.left source.new) }
    ensures exceeds { (input : List ℕ) → S.left source.old ≡ Some input → IsTooLong (Command.Run cpus) input
        → ¬ Rose (S.faults source.old) (S.faults source.new)
        → (result ≡ Status.TooLong) ⊎ (result ≡ Status.NoMemory) }
    ensures within { result ≢ Status.TooLong → result ≢ Status.NoMemory
        → ReadsWithin (Command.Run cpus) (S.left source.old) (S.left source.new) }
    ensures refused { result ≡ Status.Refused → (input line : List ℕ)
        × ReadsAll (Command.Run cpus) (S.left source.old) (S.left source.new) input
        × IsRefusal (Command.Run cpus) input line
        × Tells (E.taken err.old) (E.taken err.new) (E.faults err.old) (E.faults err.new) line }
    ensures refuses { (input line : List ℕ) → S.left source.old ≡ Some input
        → length input ≤ most_read (Command.Run cpus) → IsRefusal (Command.Run cpus) input line
        → ¬ Rose (S.faults source.old) (S.faults source.new)
        → (result ≡ Status.Refused) ⊎ (result ≡ Status.NoMemory) }
    ensures write_fault { result ≡ Status.WriteFault → Rose (O.faults out.old) (O.faults out.new) }
    ensures front { result ≡ Status.WriteFault → (written : List ℕ)
        × IsRead (Command.Run cpus) (S.left source.old) (S.left source.new) written
        × AppendsFront (O.taken out.old) (O.taken out.new) written × (O.room out.old < length written) }
    ensures nothing_written { result ≢ Status.Done → result ≢ Status.WriteFault → out.new ≡ out.old }
    ensures told { result ≢ Status.Done → result ≢ Status.Refused
        → Tells (E.taken err.old) (E.taken err.new) (E.faults err.old) (E.faults err.new) (line_of result) }
    ensures source_most { S.most source.new ≡ S.most source.old }
{
    let input = match read_all(rt.alloc(), source, MOST_DESCRIBED) {
        Ok(input) => input,
        Err(ReadAll::Fault) => return told(err, Status::ReadFault),
        Err(ReadAll::TooLong) => return told(err, Status::TooLong),
        Err(ReadAll::Memory) => return told(err, Status::NoMemory),
    };
    match thread_answer_to(rt, rt.alloc(), cpus, &input, gate) {
        Ok(made) => {
            let ThreadText { text, closed } = made;
            let status = write_text(out, &text);
            tell_status(err, status);
            leave(ran, closed, status);
            status
        }
        Err(Answer::Text(_)) => unreachable!(),
        Err(Answer::Refused(line)) => {
            tell(err, line.as_str());
            Status::Refused
        }
        Err(Answer::TooLong) => told(err, Status::TooLong),
        Err(Answer::NoMemory) => told(err, Status::NoMemory),
    }
}

/// Writes the generated description of a number. Nothing is read.
fn generated<O: Sink>(alloc: Global, number: u64, out: &mut O) -> Status
    ensures some { (result ≡ Status.Done) ⊎ ((result ≡ Status.WriteFault) ⊎ (result ≡ Status.NoMemory)) }
    ensures done { result ≡ Status.Done → Appends (O.taken out.old) (O.taken out.new) (description number) }
    ensures write_fault { result ≡ Status.WriteFault → Rose (O.faults out.old) (O.faults out.new) }
    ensures front { result ≡ Status.WriteFault
        → AppendsFront (O.taken out.old) (O.taken out.new) (description number)
        × (O.room out.old < length (description number)) }
    ensures nothing_written { result ≡ Status.NoMemory → out.new ≡ out.old }
{
    match um_gen::generate(alloc, number) {
        Ok(text) => write_text(out, &text),
        Err(_) => Status::NoMemory,
    }
}

/// Runs any command but `run`. `sim`, `summary`, `layout` and `upgrade` read a description from `source`, and write to `out` the text of a
/// run, its counts, the addresses, or the canonical description. `audit` reads a description, a line `=====` and a trace, and writes its
/// verdict on the trace. `gen` writes a generated description. A status other than `Done` has its line on `err`. All memory is taken before
/// the first byte is written. It waits for nobody.
pub fn serial<R: AllocGlobal, S: Source, O: Sink, E: Sink>(
    rt: &R,
    words: &[String],
    source: &mut S,
    out: &mut O,
    err: &mut E,
) -> Status
    requires { (cpus : ℕ) → command_of (map string_bytes words.now) ≡ Some (Command.Run cpus) → ⊥ }
    // The headline: the words are a command, what was read describes an image, and all that was written is, for `sim` and `run`, the text of
    // one complete run of it; for the other commands, what they write.
    ensures done { result ≡ Status.Done → (command : Command)
        × (command_of (map string_bytes words.now) ≡ Some command)
        × (written : List ℕ) × Answers command (S.left source.old) (S.left source.new) written
        × Appends (O.taken out.old) (O.taken out.new) written }
    ensures done_quiet { result ≡ Status.Done → err.new ≡ err.old }

    // A described image and a number are answered, unless memory ran out or the source or the sink failed.
    ensures complete { (command : Command) → command_of (map string_bytes words.now) ≡ Some command
        → IsTrue (is_reading command)
        → (input : List ℕ) → S.left source.old ≡ Some input → length input ≤ most_read command
        → (image : Image) (trace : List ℕ) → IsOf command input image trace
        → ¬ Rose (S.faults source.old) (S.faults source.new) → ¬ Rose (O.faults out.old) (O.faults out.new)
        → (result ≡ Status.Done) ⊎ (result ≡ Status.NoMemory) }
    ensures generates { (number : ℕ) → command_of (map string_bytes words.now) ≡ Some (Command.Gen number)
        → ¬ Rose (O.faults out.old) (O.faults out.new) → (result ≡ Status.Done) ⊎ (result ≡ Status.NoMemory) }

    // When each other answer comes.
    ensures usage { (result ≡ Status.Usage) ↔ (command_of (map string_bytes words.now) ≡ None) }
    ensures nothing_read { result ≡ Status.Usage → source.new ≡ source.old }
    ensures reads_none { (number : ℕ) → command_of (map string_bytes words.now) ≡ Some (Command.Gen number)
        → source.new ≡ source.old }
    ensures read_fault { result ≡ Status.ReadFault → Rose (S.faults source.old) (S.faults source.new) }
    ensures too_long { result ≡ Status.TooLong → (command : Command)
        × (command_of (map string_bytes words.now) ≡ Some command)
        × ReadsTooLong command (S.left source.old) (S.left source.new) }
    ensures exceeds { (command : Command) → command_of (map string_bytes words.now) ≡ Some command
        → IsTrue (is_reading command)
        → (input : List ℕ) → S.left source.old ≡ Some input → IsTooLong command input
        → ¬ Rose (S.faults source.old) (S.faults source.new)
        → (result ≡ Status.TooLong) ⊎ (result ≡ Status.NoMemory) }
    ensures within { (command : Command) → command_of (map string_bytes words.now) ≡ Some command
        → IsTrue (is_reading command)
        → result ≢ Status.TooLong → result ≢ Status.NoMemory
        → ReadsWithin command (S.left source.old) (S.left source.new) }
    ensures refused { result ≡ Status.Refused → (command : Command)
        × (command_of (map string_bytes words.now) ≡ Some command)
        × (input line : List ℕ) × ReadsAll command (S.left source.old) (S.left source.new) input
        × IsRefusal command input line
        × Tells (E.taken err.old) (E.taken err.new) (E.faults err.old) (E.faults err.new) line }
    ensures refuses { (command : Command) → command_of (map string_bytes words.now) ≡ Some command
        → IsTrue (is_reading command)
        → (input line : List ℕ) → S.left source.old ≡ Some input → length input ≤ most_read command
        → IsRefusal command input line
        → ¬ Rose (S.faults source.old) (S.faults source.new)
        → (result ≡ Status.Refused) ⊎ (result ≡ Status.NoMemory) }
    ensures write_fault { result ≡ Status.WriteFault → Rose (O.faults out.old) (O.faults out.new) }
    ensures front { result ≡ Status.WriteFault → (command : Command)
        × (command_of (map string_bytes words.now) ≡ Some command)
        × (written : List ℕ) × Answers command (S.left source.old) (S.left source.new) written
        × AppendsFront (O.taken out.old) (O.taken out.new) written × (O.room out.old < length written) }

    // What stays as it was, and the line on standard error.
    ensures nothing_written { result ≢ Status.Done → result ≢ Status.WriteFault → out.new ≡ out.old }
    ensures told { result ≢ Status.Done → result ≢ Status.Refused
        → Tells (E.taken err.old) (E.taken err.new) (E.faults err.old) (E.faults err.new) (line_of result) }
    ensures source_most { S.most source.new ≡ S.most source.old }
{
    match read_command(words) {
        None => told(err, Status::Usage),
        Some(Command::Gen { number }) => {
            let status = generated(rt.alloc(), number, out);
            tell_status(err, status);
            status
        }
        Some(command) => described(rt.alloc(), command, source, out, err),
    }
}

/// Runs a command. `run` reads a description from `source`, makes a run of it with a thread for each processor, on a board of words that
/// they share, writes the text of that run to `out`, and then leaves the closed board in `ran`. What the other commands do, [`serial`]
/// says. The gate is asked before each turn of a processor.
pub fn zumode<R: AllocGlobal + Threads + Wait + Sync, S: Source, O: Sink, E: Sink, G: Gate + Sync>(
    rt: &R,
    words: &[String],
    source: &mut S,
    out: &mut O,
    err: &mut E,
    gate: &G,
    ran: &mut Option<Closed<Contents>>,
) -> Status
    requires none { ran.old ≡ None }
    // The headline: the words are a command, what was read describes an image, and all that was written is, for `sim` and `run`, the text of
    // one complete run of it; for the other commands, what they write.
    ensures done { result ≡ Status.Done → (command : Command)
        × (command_of (map string_bytes words.now) ≡ Some command)
        × (written : List ℕ) × Answers command (S.left source.old) (S.left source.new) written
        × Appends (O.taken out.old) (O.taken out.new) written }
    ensures done_quiet { result ≡ Status.Done → err.new ≡ err.old }

    // After a whole text of `run` the board is left on which threads made the run that the text tells. Otherwise no board is left.
    ensures ran { (cpus : ℕ) → command_of (map string_bytes words.now) ≡ Some (Command.Run cpus)
        → result ≡ Status.Done → (written : List ℕ)
        × HasRan cpus (S.left source.old) (S.left source.new) ran.new written
        × Appends (O.taken out.old) (O.taken out.new) written }
    ensures unplayed { result ≢ Status.Done → ran.new ≡ None }
    ensures alone { ((cpus : ℕ) → command_of (map string_bytes words.now) ≡ Some (Command.Run cpus) → ⊥)
        → ran.new ≡ None }

    // A described image and a number are answered, unless memory ran out or the source or the sink failed.
    ensures complete { (command : Command) → command_of (map string_bytes words.now) ≡ Some command
        → IsTrue (is_reading command)
        → (input : List ℕ) → S.left source.old ≡ Some input → length input ≤ most_read command
        → (image : Image) (trace : List ℕ) → IsOf command input image trace
        → ¬ Rose (S.faults source.old) (S.faults source.new) → ¬ Rose (O.faults out.old) (O.faults out.new)
        → (result ≡ Status.Done) ⊎ (result ≡ Status.NoMemory) }
    ensures generates { (number : ℕ) → command_of (map string_bytes words.now) ≡ Some (Command.Gen number)
        → ¬ Rose (O.faults out.old) (O.faults out.new) → (result ≡ Status.Done) ⊎ (result ≡ Status.NoMemory) }

    // When each other answer comes.
    ensures usage { (result ≡ Status.Usage) ↔ (command_of (map string_bytes words.now) ≡ None) }
    ensures nothing_read { result ≡ Status.Usage → source.new ≡ source.old }
    ensures reads_none { (number : ℕ) → command_of (map string_bytes words.now) ≡ Some (Command.Gen number)
        → source.new ≡ source.old }
    ensures read_fault { result ≡ Status.ReadFault → Rose (S.faults source.old) (S.faults source.new) }
    ensures too_long { result ≡ Status.TooLong → (command : Command)
        × (command_of (map string_bytes words.now) ≡ Some command)
        × ReadsTooLong command (S.left source.old) (S.left source.new) }
    ensures exceeds { (command : Command) → command_of (map string_bytes words.now) ≡ Some command
        → IsTrue (is_reading command)
        → (input : List ℕ) → S.left source.old ≡ Some input → IsTooLong command input
        → ¬ Rose (S.faults source.old) (S.faults source.new)
        → (result ≡ Status.TooLong) ⊎ (result ≡ Status.NoMemory) }
    ensures within { (command : Command) → command_of (map string_bytes words.now) ≡ Some command
        → IsTrue (is_reading command)
        → result ≢ Status.TooLong → result ≢ Status.NoMemory
        → ReadsWithin command (S.left source.old) (S.left source.new) }
    ensures refused { result ≡ Status.Refused → (command : Command)
        × (command_of (map string_bytes words.now) ≡ Some command)
        × (input line : List ℕ) × ReadsAll command (S.left source.old) (S.left source.new) input
        × IsRefusal command input line
        × Tells (E.taken err.old) (E.taken err.new) (E.faults err.old) (E.faults err.new) line }
    ensures refuses { (command : Command) → command_of (map string_bytes words.now) ≡ Some command
        → IsTrue (is_reading command)
        → (input line : List ℕ) → S.left source.old ≡ Some input → length input ≤ most_read command
        → IsRefusal command input line
        → ¬ Rose (S.faults source.old) (S.faults source.new)
        → (result ≡ Status.Refused) ⊎ (result ≡ Status.NoMemory) }
    ensures write_fault { result ≡ Status.WriteFault → Rose (O.faults out.old) (O.faults out.new) }
    ensures front { result ≡ Status.WriteFault → (command : Command)
        × (command_of (map string_bytes words.now) ≡ Some command)
        × (written : List ℕ) × Answers command (S.left source.old) (S.left source.new) written
        × AppendsFront (O.taken out.old) (O.taken out.new) written × (O.room out.old < length written) }

    // What stays as it was, and the line on standard error.
    ensures nothing_written { result ≢ Status.Done → result ≢ Status.WriteFault → out.new ≡ out.old }
    ensures told { result ≢ Status.Done → result ≢ Status.Refused
        → Tells (E.taken err.old) (E.taken err.new) (E.faults err.old) (E.faults err.new) (line_of result) }
    ensures source_most { S.most source.new ≡ S.most source.old }
{
    match read_command(words) {
        Some(command) => match command {
            Command::Run { cpus } => threaded(rt, cpus, source, out, err, gate, ran),
            _ => serial(rt, words, source, out, err),
        },
        None => serial(rt, words, source, out, err),
    }
}
