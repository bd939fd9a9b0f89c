//! The parts of an input: a description and a trace.

ghost use Rattle.std.specs.Prelude.{◌≡◌, ◌≤◌, IfSome, IfNone, Some, None, List, ℕ, length};
ghost use Rattle.um_audit.specs.{Lines.{line_of}, Parts.{is_between, description_part, trace_part}};

use crate::pieces::first_line;

/// The parts of an input, which its first line `=====` divides.
#[derive(Clone, Copy)]
pub struct Parts<'t> {
    /// What stands before that line, or all of the input if there is none.
    pub description: &'t [u8],
    /// What stands after it.
    pub trace: Option<&'t [u8]>,
}

/// Whether a line is the one between a description and a trace.
fn is_between(line: &[u8]) -> bool
    ensures { (piece : List ℕ) → line.now ≡ line_of piece → result ≡ is_between piece }
{
    line == "=====".as_bytes()
}

/// The parts of an input.
pub fn parts_of(input: &[u8]) -> Parts<'_>
    ensures description { result.description.now ≡ description_part input.now }
    ensures trace { IfSome result.trace (λ trace. trace_part input.now ≡ Some trace.now) }
    ensures short { IfSome result.trace (λ trace. length trace.now ≤ length input.now) }
    ensures none { IfNone result.trace (trace_part input.now ≡ None) }
{
    let mut rest = input;
    while !rest.is_empty() {
        let (line, behind) = first_line(rest);
        if is_between(line) {
            return Parts {
                description: &input[..input.len() - rest.len()],
                trace: Some(behind),
            };
        }
        rest = behind;
    }
    Parts {
        description: input,
        trace: None,
    }
}
