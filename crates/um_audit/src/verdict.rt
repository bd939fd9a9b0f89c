//! What is said of a text.

ghost use Rattle.std.specs.Prelude.{◌≡◌, IfOk};
ghost use Rattle.um_audit.specs.Told.{verdict_text};

use std::alloc::Global;
use um_base::OutOfMemory;

/// Whether a text is that of a complete run, and else what it lacks. Lines are numbered from 1.
#[derive(Clone, Copy, Debug, PartialEq, Eq)]
pub enum Verdict {
    /// It is the text of a complete run.
    Yes,
    /// This line is no step of the machine, or is missing.
    NoStep { line: u32 },
    /// All lines before the dump are steps, but the run isn't complete.
    NotComplete,
    /// This line isn't that of the dump of the last state, or is missing, or one too many, or lacks its newline.
    NoDump { line: u32 },
}

/// The line that tells a verdict.
#[tactic(auto, unfolding(crate::specs::Told::verdict_text))]
pub fn verdict_text(alloc: Global, verdict: Verdict) -> Result<Vec<u8>, OutOfMemory>
    ensures { IfOk result (λ text. text.items ≡ verdict_text verdict) }
{
    let text = match verdict {
        Verdict::Yes => format!(in alloc; "yes\n")?,
        Verdict::NoStep { line } => format!(in alloc; "no step {}\n", line)?,
        Verdict::NotComplete => format!(in alloc; "not complete\n")?,
        Verdict::NoDump { line } => format!(in alloc; "no dump {}\n", line)?,
    };
    Ok(text.into_bytes())
}
