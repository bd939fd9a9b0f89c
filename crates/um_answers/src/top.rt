//! The top call.

ghost use Rattle.std.specs.{
  Prelude.{◌≡◌, ◌≢◌, ◌↔◌, ◌<◌, ◌≤◌, ◌⊎◌, List, ℕ, false, true, map, Some, None, length, string_bytes},
  Io.KnownBytes.{Appends},
};
ghost use Rattle.um_base.specs.declared.image.Image.{Image};
ghost use Rattle.um_io.specs.{Bytes.{AppendsFront}, Causes.{Rose}};
ghost use Rattle.um_answers.specs.{
  declared.command.Command.{Command},
  Answered.{IsRefusal},
  Inputs.{IsOf, IsTooLong, ReadsAll, ReadsTooLong, ReadsWithin, most_read},
  Messages.{is_answered, line_of},
  Top.{Answers, IsAskable, Tells},
  Words.{HasFew, command_of, event_in},
};

use crate::answer::{Answer, answer_to};
use crate::command::Command;
use crate::reading::{event, read_command};
use crate::status::Status;
use crate::told::Told;
use std::alloc::Global;
use um_io::{ReadAll, Sink, Source, read_all, write_all};

/// How many bytes a description has at most.
const MOST_DESCRIBED: u32 = 0x10_0000;

/// How many bytes `next` reads at most.
const MOST_TRACED: u32 = 0x400_0000;

/// How many bytes a command reads at most.
fn limit(command: Command) -> u32
    ensures { result ≡ most_read command }
{
    match command {
        Command::Next => MOST_TRACED,
        _ => MOST_DESCRIBED,
    }
}

/// Writes an answer, and says how that ended.
fn write_text<O: Sink>(out: &mut O, told: &Told) -> Status
    requires { is_answered told.now.status ≡ true }
    ensures either { (result ≡ told.now.status) ⊎ (result ≡ Status.WriteFault) }
    ensures answered { is_answered result ≡ true
        → Appends (O.taken out.old) (O.taken out.new) told.now.text.items }
    ensures write_fault { result ≡ Status.WriteFault → Rose (O.faults out.old) (O.faults out.new) }
    ensures front { result ≡ Status.WriteFault
        → AppendsFront (O.taken out.old) (O.taken out.new) told.now.text.items
        × (O.room out.old < length told.now.text.items) }
{
    match write_all(out, &told.text) {
        Ok(()) => told.status,
        Err(_) => Status::WriteFault,
    }
}

/// Writes a line to the error sink.
fn tell<E: Sink>(err: &mut E, line: &str)
    ensures { Tells (E.taken err.old) (E.taken err.new) (E.faults err.old) (E.faults err.new) line.now }
{
    let _ = write_all(err, line.as_bytes());
}

/// Writes the line of a status to the error sink. Where an answer was written, there is none.
fn tell_status<E: Sink>(err: &mut E, status: Status)
    ensures quiet { is_answered status ≡ true → err.new ≡ err.old }
    ensures told { is_answered status ≡ false
        → Tells (E.taken err.old) (E.taken err.new) (E.faults err.old) (E.faults err.new) (line_of status) }
{
    if !status.is_answered() {
        tell(err, status.line());
    }
}

/// Writes the line of a status to the error sink, and returns the status.
fn told<E: Sink>(err: &mut E, status: Status) -> Status
    ensures status { result ≡ status }
    ensures quiet { is_answered result ≡ true → err.new ≡ err.old }
    ensures told { is_answered result ≡ false
        → Tells (E.taken err.old) (E.taken err.new) (E.faults err.old) (E.faults err.new) (line_of result) }
{
    tell_status(err, status);
    status
}

/// Answers a command, of which the words say what is asked.
fn described<S: Source, O: Sink, E: Sink>(
    alloc: Global,
    command: Command,
    event: &[u8],
    source: &mut S,
    out: &mut O,
    err: &mut E,
) -> Status
    requires few { HasFew command }
    ensures answered { is_answered result ≡ true → (written : List ℕ)
        × Answers command event.now (S.left source.old) (S.left source.new) result written
        × Appends (O.taken out.old) (O.taken out.new) written }
    ensures quiet { is_answered result ≡ true → err.new ≡ err.old }
    ensures complete { (input : List ℕ) → S.left source.old ≡ Some input → length input ≤ most_read command
        → (image : Image) (trace : List ℕ) → IsOf command input image trace
        → IsAskable command event.now image
        → ¬ Rose (S.faults source.old) (S.faults source.new) → ¬ Rose (O.faults out.old) (O.faults out.new)
        → (is_answered result ≡ true) ⊎ (result ≡ Status.NoMemory) }
    ensures no_usage { result ≢ Status.Usage }
    ensures read_fault { result ≡ Status.ReadFault → Rose (S.faults source.old) (S.faults source.new) }
    ensures too_long { result ≡ Status.TooLong
        → ReadsTooLong command (S.left source.old) (S.left source.new) }
    ensures exceeds { (input : List ℕ) → S.left source.old ≡ Some input → IsTooLong command input
        → ¬ Rose (S.faults source.old) (S.faults source.new)
        → (result ≡ Status.TooLong) ⊎ (result ≡ Status.NoMemory) }
    ensures within { result ≢ Status.TooLong → result ≢ Status.NoMemory
        → ReadsWithin command (S.left source.old) (S.left source.new) }
    ensures refused { result ≡ Status.Refused → (input line : List ℕ)
        × ReadsAll command (S.left source.old) (S.left source.new) input
        × IsRefusal command event.now input line
        × Tells (E.taken err.old) (E.taken err.new) (E.faults err.old) (E.faults err.new) line }
    ensures refuses { (input line : List ℕ) → S.left source.old ≡ Some input
        → length input ≤ most_read command → IsRefusal command event.now input line
        → ¬ Rose (S.faults source.old) (S.faults source.new)
        → (result ≡ Status.Refused) ⊎ (result ≡ Status.NoMemory) }
    ensures write_fault { result ≡ Status.WriteFault → Rose (O.faults out.old) (O.faults out.new) }
    ensures front { result ≡ Status.WriteFault → (status : Status) × (written : List ℕ)
        × Answers command event.now (S.left source.old) (S.left source.new) status written
        × AppendsFront (O.taken out.old) (O.taken out.new) written × (O.room out.old < length written) }
    ensures nothing_written { is_answered result ≡ false → result ≢ Status.WriteFault → out.new ≡ out.old }
    ensures told { is_answered result ≡ false → result ≢ Status.Refused
        → Tells (E.taken err.old) (E.taken err.new) (E.faults err.old) (E.faults err.new) (line_of result) }
    ensures source_most { S.most source.new ≡ S.most source.old }
{
    let input = match read_all(alloc, source, limit(command)) {
        Ok(input) => input,
        Err(ReadAll::Fault) => return told(err, Status::ReadFault),
        Err(ReadAll::TooLong) => return told(err, Status::TooLong),
        Err(ReadAll::Memory) => return told(err, Status::NoMemory),
    };
    match answer_to(alloc, command, event, &input) {
        Answer::Text(text) => {
            let status = write_text(out, &text);
            tell_status(err, status);
            status
        }
        Answer::Refused(line) => {
            tell(err, line.as_str());
            Status::Refused
        }
        Answer::TooLong => told(err, Status::TooLong),
        Answer::NoMemory => told(err, Status::NoMemory),
    }
}

/// Answers a question about all runs of an image. `find` and `ends` read a description from `source`. `find` writes to `out` the text of a
/// complete run that comes to what is asked, by as few events as any, or that no run does; `ends` writes the ways in which runs end; where
/// it isn't known, they say so. `next` reads a description, a line `=====` and the first lines of a trace, and writes the lines that can
/// come next. A status that is no answer has its line on `err`. All memory is taken before the first byte is written.
pub fn explore<R: AllocGlobal, S: Source, O: Sink, E: Sink>(
    rt: &R,
    words: &[String],
    source: &mut S,
    out: &mut O,
    err: &mut E,
) -> Status
    // The headline: the words are a command, what was read describes an image, for `find` what is asked is a question of that image, and
    // all that was written is what the status says: that of a run that comes to it, that no run does, or that this isn't known.
    ensures answered { is_answered result ≡ true → (command : Command)
        × (command_of (map string_bytes words.now) ≡ Some command)
        × (written : List ℕ)
        × Answers command (event_in (map string_bytes words.now))
        (S.left source.old) (S.left source.new) result written
        × Appends (O.taken out.old) (O.taken out.new) written }
    ensures quiet { is_answered result ≡ true → err.new ≡ err.old }

    // A question of a described image is answered, unless memory ran out or the source or the sink failed.
    ensures complete { (command : Command) → command_of (map string_bytes words.now) ≡ Some command
        → (input : List ℕ) → S.left source.old ≡ Some input → length input ≤ most_read command
        → (image : Image) (trace : List ℕ) → IsOf command input image trace
        → IsAskable command (event_in (map string_bytes words.now)) image
        → ¬ Rose (S.faults source.old) (S.faults source.new) → ¬ Rose (O.faults out.old) (O.faults out.new)
        → (is_answered result ≡ true) ⊎ (result ≡ Status.NoMemory) }

    // When each other answer comes.
    ensures usage { (result ≡ Status.Usage) ↔ (command_of (map string_bytes words.now) ≡ None) }
    ensures nothing_read { result ≡ Status.Usage → source.new ≡ source.old }
    ensures read_fault { result ≡ Status.ReadFault → Rose (S.faults source.old) (S.faults source.new) }
    ensures too_long { result ≡ Status.TooLong → (command : Command)
        × (command_of (map string_bytes words.now) ≡ Some command)
        × ReadsTooLong command (S.left source.old) (S.left source.new) }
    ensures exceeds { (command : Command) → command_of (map string_bytes words.now) ≡ Some command
        → (input : List ℕ) → S.left source.old ≡ Some input → IsTooLong command input
        → ¬ Rose (S.faults source.old) (S.faults source.new)
        → (result ≡ Status.TooLong) ⊎ (result ≡ Status.NoMemory) }
    ensures within { (command : Command) → command_of (map string_bytes words.now) ≡ Some command
        → result ≢ Status.TooLong → result ≢ Status.NoMemory
        → ReadsWithin command (S.left source.old) (S.left source.new) }
    ensures refused { result ≡ Status.Refused → (command : Command)
        × (command_of (map string_bytes words.now) ≡ Some command)
        × (input line : List ℕ) × ReadsAll command (S.left source.old) (S.left source.new) input
        × IsRefusal command (event_in (map string_bytes words.now)) input line
        × Tells (E.taken err.old) (E.taken err.new) (E.faults err.old) (E.faults err.new) line }
    ensures refuses { (command : Command) → command_of (map string_bytes words.now) ≡ Some command
        → (input line : List ℕ) → S.left source.old ≡ Some input → length input ≤ most_read command
        → IsRefusal command (event_in (map string_bytes words.now)) input line
        → ¬ Rose (S.faults source.old) (S.faults source.new)
        → (result ≡ Status.Refused) ⊎ (result ≡ Status.NoMemory) }
    ensures write_fault { result ≡ Status.WriteFault → Rose (O.faults out.old) (O.faults out.new) }
    ensures front { result ≡ Status.WriteFault → (command : Command)
        × (command_of (map string_bytes words.now) ≡ Some command) × (status : Status) × (written : List ℕ)
        × Answers command (event_in (map string_bytes words.now))
        (S.left source.old) (S.left source.new) status written
        × AppendsFront (O.taken out.old) (O.taken out.new) written × (O.room out.old < length written) }

    // What stays as it was, and the line on standard error.
    ensures nothing_written { is_answered result ≡ false → result ≢ Status.WriteFault → out.new ≡ out.old }
    ensures told { is_answered result ≡ false → result ≢ Status.Refused
        → Tells (E.taken err.old) (E.taken err.new) (E.faults err.old) (E.faults err.new) (line_of result) }
    ensures source_most { S.most source.new ≡ S.most source.old }
{
    match read_command(words) {
        None => told(err, Status::Usage),
        Some(command) => described(rt.alloc(), command, event(words), source, out, err),
    }
}
