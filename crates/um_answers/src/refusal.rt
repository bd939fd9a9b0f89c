//! The lines on standard error that tell why an input is refused.

ghost use Rattle.std.specs.Prelude.{◌≡◌, IfOk, string_bytes};
ghost use Rattle.um_answers.specs.Messages.{no_trace_line, refused_line, unknown_word_line};

use std::alloc::Global;
use um_base::OutOfMemory;
use um_document::{ImageFault, fault_text};

/// The line that tells the fault of a description.
#[tactic(auto, unfolding(crate::specs::Messages::refused_line))]
pub fn line_of_fault(alloc: Global, fault: &ImageFault) -> Result<String, OutOfMemory>
    ensures { IfOk result (λ line. string_bytes line ≡ refused_line fault.now) }
{
    let text = fault_text(alloc, fault)?;
    Ok(format!(in alloc; "explore: refused: {}\n", text.as_str())?)
}

/// The line that tells that there is no trace.
#[tactic(auto, unfolding(crate::specs::Messages::no_trace_line))]
pub fn line_of_no_trace(alloc: Global) -> Result<String, OutOfMemory>
    ensures { IfOk result (λ line. string_bytes line ≡ no_trace_line) }
{
    Ok(String::from_str(alloc, "explore: refused: NoTrace\n")?)
}

/// The line that tells which word of what is asked names nothing.
#[tactic(auto, unfolding(crate::specs::Messages::unknown_word_line))]
pub fn line_of_unknown_word(alloc: Global, word: u32) -> Result<String, OutOfMemory>
    ensures { IfOk result (λ line. string_bytes line ≡ unknown_word_line word) }
{
    Ok(format!(in alloc; "explore: refused: Unknown {}\n", word)?)
}
