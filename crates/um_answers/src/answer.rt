//! What a command answers to an input.

ghost use Rattle.std.specs.Prelude.{◌≡◌, ◌≤◌, ◌<◌, ◌-◌, ◌^◌, IfOk, IfSome, IfNone, Some, None, List, ℕ, false, true, length, string_bytes};
ghost use Rattle.um_base.specs.Lawful.{IsLawful};
ghost use Rattle.um_document.specs.declared.fault.ImageFault.TheVariants as ImageFault;
ghost use Rattle.um_image.specs.Meaning.{Describes, Refuses};
ghost use Rattle.um_answers.specs.{
  Answered.{Answered, IsRefusal},
  Inputs.{IsOf, description_in, most_described, most_read, trace_in},
  Top.{IsOutput},
  Words.{HasFew},
  declared.command.Command.{Command},
};

use crate::command::Command;
use crate::refusal::{line_of_fault, line_of_no_trace, line_of_unknown_word};
use crate::told::{Told, ends, found, next};
use std::alloc::Global;
use um_audit::Parts;
use um_base::{Image, OutOfMemory};
use um_image::{ImageFault, read_image};
use um_question::{Asking, read_question};

/// How many bytes a description has at most.
const MOST_DESCRIBED: usize = 0x10_0000;

/// What a command answers to an input, before a byte is written.
#[derive(Drop)]
pub enum Answer {
    /// What it writes.
    Text(Told),
    /// The line that tells why the input is refused.
    Refused(String),
    /// The description is too long.
    TooLong,
    NoMemory,
}

/// The answer that a text is, or that there was no memory for it.
fn text(told: Result<Told, OutOfMemory>) -> Answer
    ensures { (command : Command) (event input : List ℕ)
        → IfOk told (λ told. IsOutput command event input told.status told.text.items)
        → Answered command event result input }
{
    match told {
        Ok(told) => Answer::Text(told),
        Err(OutOfMemory) => Answer::NoMemory,
    }
}

/// The answer that the line of a refusal is, or that there was no memory for it.
fn refusal(line: Result<String, OutOfMemory>) -> Answer
    ensures { (command : Command) (event input : List ℕ)
        → IfOk line (λ line. IsRefusal command event input (string_bytes line))
        → Answered command event result input }
{
    match line {
        Ok(line) => Answer::Refused(line),
        Err(OutOfMemory) => Answer::NoMemory,
    }
}

/// The answer to what is asked of an image.
fn answer_to_event(alloc: Global, image: &Image, event: &[u8], states: u32) -> Answer
    requires lawful { IsLawful image.now }
    requires few { states ≤ 2 ^ 32 - 1 }
    ensures { (input trace : List ℕ) → IsOf (Command.Find states) input image.now trace
        → Answered (Command.Find states) event.now result input }
{
    match read_question(alloc, image, event) {
        Ok(Asking::Is(question)) => text(found(alloc, image, &question, states)),
        Ok(Asking::Unknown { word }) => refusal(line_of_unknown_word(alloc, word)),
        Err(OutOfMemory) => Answer::NoMemory,
    }
}

/// The answer to a command about an image, and the trace after it.
fn answer_about(
    alloc: Global,
    command: Command,
    event: &[u8],
    image: &Image,
    trace: &[u8],
) -> Answer
    requires lawful { IsLawful image.now }
    requires few { HasFew command }
    requires short { length trace.now < 2 ^ 32 - 1 }
    ensures { (input : List ℕ) → IsOf command input image.now trace.now
        → Answered command event.now result input }
{
    match command {
        Command::Find { states } => answer_to_event(alloc, image, event, states),
        Command::Ends { states } => text(ends(alloc, image, states)),
        Command::Next => text(next(alloc, image, trace)),
    }
}

/// Whether a reading failed for want of memory.
fn is_memory(fault: &ImageFault) -> bool
    ensures yes { result ≡ true → fault.now ≡ ImageFault.Memory }
    ensures no { result ≡ false → ¬ (fault.now ≡ ImageFault.Memory) }
{
    match fault {
        ImageFault::Memory => true,
        _ => false,
    }
}

/// The answer to a description that is refused with this fault, or that there was no memory to read.
fn not_read(alloc: Global, fault: &ImageFault) -> Answer
    ensures { (command : Command) (event input trace : List ℕ)
        → length (description_in command input) ≤ most_described
        → trace_in command input ≡ Some trace
        → (¬ (fault.now ≡ ImageFault.Memory) → Refuses (description_in command input) fault.now)
        → Answered command event result input }
{
    if is_memory(fault) {
        Answer::NoMemory
    } else {
        refusal(line_of_fault(alloc, fault))
    }
}

/// The answer to a description and the trace after it.
fn answer_of(
    alloc: Global,
    command: Command,
    event: &[u8],
    description: &[u8],
    trace: &[u8],
) -> Answer
    requires few { HasFew command }
    requires short { length trace.now < 2 ^ 32 - 1 }
    ensures { (input : List ℕ) → description.now ≡ description_in command input
        → trace_in command input ≡ Some trace.now
        → length description.now ≤ most_described → Answered command event.now result input }
{
    match read_image(alloc, description) {
        Ok(image) => answer_about(alloc, command, event, &image, trace),
        Err(fault) => not_read(alloc, &fault),
    }
}

/// The parts of an input that a command reads: a description, and for `next` a trace.
fn parts(command: Command, input: &[u8]) -> Parts<'_>
    ensures description { result.description.now ≡ description_in command input.now }
    ensures trace { IfSome result.trace (λ trace. trace_in command input.now ≡ Some trace.now) }
    ensures short { IfSome result.trace (λ trace. length trace.now ≤ length input.now) }
    ensures none { IfNone result.trace (trace_in command input.now ≡ None) }
{
    match command {
        Command::Next => um_audit::parts_of(input),
        _ => Parts {
            description: input,
            trace: Some(&[]),
        },
    }
}

/// The answer to an input. All memory of a command is taken here.
pub fn answer_to(alloc: Global, command: Command, event: &[u8], input: &[u8]) -> Answer
    requires few { HasFew command }
    requires short { length input.now ≤ most_read command }
    ensures { Answered command event.now result input.now }
{
    let parts = parts(command, input);
    if parts.description.len() > MOST_DESCRIBED {
        return Answer::TooLong;
    }
    match parts.trace {
        Some(trace) => answer_of(alloc, command, event, parts.description, trace),
        None => refusal(line_of_no_trace(alloc)),
    }
}
