//! What a command answers to an input.

ghost use Rattle.std.specs.Prelude.{◌≡◌, ◌≤◌, ◌<◌, ◌-◌, ◌^◌, IfOk, IfErr, IfSome, IfNone, Some, None, List, ℕ, false, true, length, string_bytes};
ghost use Rattle.um_base.specs.Lawful.{IsLawful};
ghost use Rattle.um_command.specs.{declared.command.Command.{Command}, Words.{IsFew, HasFew}};
ghost use Rattle.um_document.specs.declared.fault.ImageFault.TheVariants as ImageFault;
ghost use Rattle.um_image.specs.Meaning.{Describes, Refuses};
ghost use Rattle.um_trace.specs.Layout.{layout_text};
ghost use Rattle.um_app.specs.{
  Answered.{Answered, IsSilent},
  Audited.{IsAudit},
  Inputs.{description_in, is_serial, most_described, most_read, trace_in},
  Messages.{no_trace_line, refused_line},
  Top.{IsOutput, IsRunText, IsRunSummary, IsThreadOutput, Writes},
  Upgraded.{IsUpgrade},
};

use crate::sim::ran;
use crate::threads::{ThreadText, thread_text};
use std::alloc::Global;
use std::sync::Wait;
use std::thread::Threads;
use um_audit::Parts;
use um_base::{Image, OutOfMemory};
use um_closing::Closing;
use um_command::{Command, Options};
use um_image::{ImageFault, fault_text, print_image, read_image};
use um_io::Gate;
use um_texts::one_dump;
use um_trace::SUMMARY_ROOM;

/// How many bytes a description has at most.
const MOST_DESCRIBED: usize = 0x10_0000;

/// What a command answers to an input, before a byte is written.
#[derive(Drop)]
pub enum Answer {
    /// What it writes.
    Text(Vec<u8>),
    /// The line that tells why the input is refused.
    Refused(String),
    /// The description is too long.
    TooLong,
    NoMemory,
}

/// The text of a run.
fn run_text(alloc: Global, image: &Image, options: Options) -> Result<Vec<u8>, OutOfMemory>
    requires lawful { IsLawful image.now }
    requires cpus { IsFew options }
    ensures { IfOk result (λ text. IsRunText image.now options text.items) }
{
    // the state that is read off the tables has the text of the run's last state
    one_dump();
    let sites = ran(alloc, image, options)?;
    let events = sites.events();
    let mut text = Vec::with_capacity(alloc, um_trace::text_room(events))?;
    um_trace::trace_text(image, events, &Closing::new(image, &sites), &mut text);
    Ok(text)
}

/// The counts of a run.
fn run_summary(alloc: Global, image: &Image, options: Options) -> Result<Vec<u8>, OutOfMemory>
    requires lawful { IsLawful image.now }
    requires cpus { IsFew options }
    ensures { IfOk result (λ text. IsRunSummary image.now options text.items) }
{
    // the same of the run's summary
    one_dump();
    let sites = ran(alloc, image, options)?;
    let mut text = Vec::with_capacity(alloc, SUMMARY_ROOM)?;
    um_trace::summary_text(
        image,
        sites.events(),
        &Closing::new(image, &sites),
        &mut text,
    );
    Ok(text)
}

/// The addresses of an image.
fn addresses(alloc: Global, image: &Image) -> Result<Vec<u8>, OutOfMemory>
    ensures { IfOk result (λ text. text.items ≡ layout_text image.now) }
{
    let mut text = Vec::with_capacity(alloc, um_trace::layout_room(image))?;
    um_trace::layout_text(image, &mut text);
    Ok(text)
}

/// The canonical description of an image.
fn upgraded(alloc: Global, image: &Image) -> Result<Vec<u8>, OutOfMemory>
    requires described { (source : List ℕ) × Describes source image.now }
    ensures { IfOk result (λ text. IsUpgrade image.now text.items) }
{
    print_image(alloc, image)
}

/// The verdict on a trace.
fn verdict(alloc: Global, image: &Image, trace: &[u8]) -> Result<Vec<u8>, OutOfMemory>
    requires lawful { IsLawful image.now }
    requires short { length trace.now < 2 ^ 32 - 1 }
    ensures { IfOk result (λ text. IsAudit image.now trace.now text.items) }
{
    let _objects = image.objects.len();
    let verdict = um_audit::audit(alloc, image, trace)?;
    um_audit::verdict_text(alloc, verdict)
}

/// What a command writes of an image, and of the trace after it.
fn written(
    alloc: Global,
    command: Command,
    image: &Image,
    trace: &[u8],
) -> Result<Vec<u8>, OutOfMemory>
    requires serial { is_serial command ≡ true }
    requires described { (source : List ℕ) × Describes source image.now }
    requires lawful { IsLawful image.now }
    requires cpus { HasFew command }
    requires short { length trace.now < 2 ^ 32 - 1 }
    ensures { IfOk result (λ text. Writes command image.now trace.now text.items) }
{
    match command {
        Command::Sim(options) => run_text(alloc, image, options),
        Command::Run { .. } => unreachable!(),
        Command::Summary(options) => run_summary(alloc, image, options),
        Command::Layout => addresses(alloc, image),
        Command::Gen { number } => um_gen::generate(alloc, number),
        Command::Upgrade => upgraded(alloc, image),
        Command::Audit => verdict(alloc, image, trace),
    }
}

/// The line on standard error that tells a fault.
#[tactic(auto, unfolding(crate::specs::Messages::refused_line))]
fn line_of_fault(alloc: Global, fault: &ImageFault) -> Result<String, OutOfMemory>
    ensures { IfOk result (λ line. string_bytes line ≡ refused_line fault.now) }
{
    let text = fault_text(alloc, fault)?;
    Ok(format!(in alloc; "zumode: refused: {}\n", text.as_str())?)
}

/// Whether a reading failed for want of memory.
fn is_memory(fault: &ImageFault) -> bool
    ensures yes { result ≡ true → fault.now ≡ ImageFault.Memory }
    ensures no { result ≡ false → ¬ (fault.now ≡ ImageFault.Memory) }
{
    match fault {
        ImageFault::Memory => true,
        _ => false,
    }
}

/// The answer to an input whose description is refused with this fault.
fn refused(alloc: Global, fault: &ImageFault) -> Answer
    ensures answered { (command : Command) (input trace : List ℕ)
        → length (description_in command input) ≤ most_described
        → trace_in command input ≡ Some trace → Refuses (description_in command input) fault.now
        → Answered command result input }
    ensures silent { IsSilent result }
{
    match line_of_fault(alloc, fault) {
        Ok(line) => Answer::Refused(line),
        Err(OutOfMemory) => Answer::NoMemory,
    }
}

/// The line on standard error that tells that there is no trace.
#[tactic(auto, unfolding(crate::specs::Messages::no_trace_line))]
fn line_of_no_trace(alloc: Global) -> Result<String, OutOfMemory>
    ensures { IfOk result (λ line. string_bytes line ≡ no_trace_line) }
{
    Ok(String::from_str(alloc, "zumode: refused: NoTrace\n")?)
}

/// The answer to an input that has no trace.
fn without_trace(alloc: Global) -> Answer
    ensures { (command : Command) (input : List ℕ) → length (description_in command input) ≤ most_described
        → trace_in command input ≡ None → Answered command result input }
{
    match line_of_no_trace(alloc) {
        Ok(line) => Answer::Refused(line),
        Err(OutOfMemory) => Answer::NoMemory,
    }
}

/// The answer to a description that is refused with this fault, or that there was no memory to read.
fn not_read(alloc: Global, fault: &ImageFault) -> Answer
    ensures answered { (command : Command) (input trace : List ℕ)
        → length (description_in command input) ≤ most_described
        → trace_in command input ≡ Some trace
        → (¬ (fault.now ≡ ImageFault.Memory) → Refuses (description_in command input) fault.now)
        → Answered command result input }
    ensures silent { IsSilent result }
{
    if is_memory(fault) {
        Answer::NoMemory
    } else {
        refused(alloc, fault)
    }
}

/// The answer to a description and the trace after it, for a command that needs only one thread.
fn answer_of(alloc: Global, command: Command, description: &[u8], trace: &[u8]) -> Answer
    requires serial { is_serial command ≡ true }
    requires few { HasFew command }
    requires short { length trace.now < 2 ^ 32 - 1 }
    ensures { (input : List ℕ) → description.now ≡ description_in command input
        → trace_in command input ≡ Some trace.now
        → length description.now ≤ most_described → Answered command result input }
{
    match read_image(alloc, description) {
        Ok(image) => match written(alloc, command, &image, trace) {
            Ok(text) => Answer::Text(text),
            Err(OutOfMemory) => Answer::NoMemory,
        },
        Err(fault) => not_read(alloc, &fault),
    }
}

/// The parts of an input that a command reads: a description, and for `audit` a trace.
fn parts(command: Command, input: &[u8]) -> Parts<'_>
    ensures description { result.description.now ≡ description_in command input.now }
    ensures trace { IfSome result.trace (λ trace. trace_in command input.now ≡ Some trace.now) }
    ensures short { IfSome result.trace (λ trace. length trace.now ≤ length input.now) }
    ensures none { IfNone result.trace (trace_in command input.now ≡ None) }
{
    match command {
        Command::Audit => um_audit::parts_of(input),
        _ => Parts {
            description: input,
            trace: Some(&[]),
        },
    }
}

/// The answer to an input, for a command that needs only one thread. All memory of a command is taken here.
pub fn answer_to(alloc: Global, command: Command, input: &[u8]) -> Answer
    requires serial { is_serial command ≡ true }
    requires few { HasFew command }
    requires short { length input.now ≤ most_read command }
    ensures { Answered command result input.now }
{
    let parts = parts(command, input);
    if parts.description.len() > MOST_DESCRIBED {
        return Answer::TooLong;
    }
    match parts.trace {
        Some(trace) => answer_of(alloc, command, parts.description, trace),
        None => without_trace(alloc),
    }
}

/// What `run` writes of an input, with the board that its processors leave, or the answer if it writes nothing. All memory is taken here.
pub fn thread_answer_to<R: Threads + Wait + Sync, G: Gate + Sync>(
    rt: &R,
    alloc: Global,
    cpus: u8,
    input: &[u8],
    gate: &G,
) -> Result<ThreadText, Answer>
    requires some { 1 ≤ cpus }
    requires few { cpus ≤ 8 }
    requires short { length input.now ≤ most_described }
    ensures output { IfOk result (λ made. IsOutput (Command.Run cpus) input.now made.text.items) }
    ensures played { IfOk result (λ made. IsThreadOutput cpus input.now made.closed made.text.items) }
    ensures answered { IfErr result
        (λ answer. Answered (Command.Run cpus) answer input.now × IsSilent answer) }
{
    match read_image(alloc, input) {
        Ok(image) => match thread_text(rt, alloc, &image, cpus, gate) {
            Ok(made) => Ok(made),
            Err(OutOfMemory) => Err(Answer::NoMemory),
        },
        Err(fault) => Err(not_read(alloc, &fault)),
    }
}
