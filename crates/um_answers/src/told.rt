//! What is told of an image: a text, and the status with which the command ends.

ghost use Rattle.std.specs.Prelude.{◌≡◌, ◌<◌, ◌≤◌, ◌-◌, ◌^◌, IfOk, length};
ghost use Rattle.um_base.specs.{Lawful.{IsLawful}, declared.image.Image.{Image}};
ghost use Rattle.um_explore.specs.Questions.{IsNever};
ghost use Rattle.um_question.specs.{declared.question.Question.{Question}, Asked.{is_met}, Sound.{IsSoundQuestion}};
ghost use Rattle.um_answers.specs.Told.{next_text, unknown_text};
ghost use Rattle.um_answers.specs.Top.{Finds, TellsEnds, TellsNext};

use crate::status::Status;
use std::alloc::Global;
use um_base::{Image, OutOfMemory};
use um_explore::{Endings, Finding, Next};
use um_question::Question;

/// A text that answers, and the status with which the command ends once it is written.
#[derive(Drop)]
pub struct Told {
    /// That of an answer.
    pub status: Status,
    /// What is written.
    pub text: Vec<u8>,
}

/// That no run comes to a question: so many states were met.
#[tactic(auto, unfolding(crate::specs::Told::never_text))]
fn never(alloc: Global, states: usize) -> Result<Told, OutOfMemory>
    ensures { (image : Image) (question : Question) → IsNever image (is_met image question)
        → IfOk result (λ told. Finds image question told.status told.text.items) }
{
    Ok(Told {
        status: Status::Never,
        text: format!(in alloc; "never {}\n", states)?.into_bytes(),
    })
}

/// The line of an answer that isn't known.
#[tactic(auto, unfolding(crate::specs::Told::unknown_text))]
fn unknown_text(alloc: Global, states: usize, unseen: usize) -> Result<Vec<u8>, OutOfMemory>
    ensures { IfOk result (λ text. text.items ≡ unknown_text states unseen) }
{
    Ok(format!(in alloc; "unknown {} {}\n", states, unseen)?.into_bytes())
}

/// That it isn't known: so many states were met, and so many of them were not looked at.
fn unknown(alloc: Global, states: usize, unseen: usize) -> Result<Told, OutOfMemory>
    ensures found { (image : Image) (question : Question)
        → IfOk result (λ told. Finds image question told.status told.text.items) }
    ensures ends { (image : Image) → IfOk result (λ told. TellsEnds image told.status told.text.items) }
{
    Ok(Told {
        status: Status::Unknown,
        text: unknown_text(alloc, states, unseen)?,
    })
}

/// The text of what can come next.
#[tactic(auto, unfolding(crate::specs::Told::next_text))]
fn next_text(alloc: Global, next: Next) -> Result<Vec<u8>, OutOfMemory>
    ensures { IfOk result (λ text. text.items ≡ next_text next) }
{
    match next {
        Next::Lines(lines) => Ok(lines),
        Next::NoStep { line } => Ok(format!(in alloc; "no step {}\n", line)?.into_bytes()),
    }
}

/// What is found of a question, where so many states are kept at most.
pub fn found(
    alloc: Global,
    image: &Image,
    question: &Question,
    states: u32,
) -> Result<Told, OutOfMemory>
    requires lawful { IsLawful image.now }
    requires few { states ≤ 2 ^ 32 - 1 }
    requires sound { IsSoundQuestion question.now }
    ensures { IfOk result (λ told. Finds image.now question.now told.status told.text.items) }
{
    match um_explore::find(alloc, image, question, states as usize)? {
        Finding::Found(text) => Ok(Told {
            status: Status::Done,
            text,
        }),
        Finding::Never { states } => never(alloc, states),
        Finding::Unknown { states, unseen } => unknown(alloc, states, unseen),
    }
}

/// All ends of runs, where so many states are kept at most.
pub fn ends(alloc: Global, image: &Image, states: u32) -> Result<Told, OutOfMemory>
    requires lawful { IsLawful image.now }
    requires few { states ≤ 2 ^ 32 - 1 }
    ensures { IfOk result (λ told. TellsEnds image.now told.status told.text.items) }
{
    match um_explore::ends(alloc, image, states as usize)? {
        Endings::Ends(text) => Ok(Told {
            status: Status::Done,
            text,
        }),
        Endings::Unknown { states, unseen } => unknown(alloc, states, unseen),
    }
}

/// What can come next in a trace.
pub fn next(alloc: Global, image: &Image, trace: &[u8]) -> Result<Told, OutOfMemory>
    requires lawful { IsLawful image.now }
    requires short { length trace.now < 2 ^ 32 - 1 }
    ensures { IfOk result (λ told. TellsNext image.now trace.now told.status told.text.items) }
{
    let next = um_explore::next_lines(alloc, image, trace)?;
    Ok(Told {
        status: Status::Done,
        text: next_text(alloc, next)?,
    })
}
