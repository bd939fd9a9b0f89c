//! The dump that a text ends with.

ghost use Rattle.std.specs.Prelude.{◌≡◌, ◌≤◌, length, IfSome, IfNone};
ghost use Rattle.um_audit.specs.{Lines.{pieces}, Verdict.{DiffersAt}};

use crate::pieces::first_piece;

/// How many lines two texts have in common before they differ, or `None` if they don't differ.
pub fn first_difference(text: &[u8], other: &[u8]) -> Option<usize>
    ensures same { IfNone result (pieces text.now ≡ pieces other.now) }
    ensures differs { IfSome result (λ j. DiffersAt (pieces text.now) (pieces other.now) j) }
    ensures few { IfSome result (λ j. j ≤ length text.now) }
{
    let mut rest = text;
    let mut others = other;
    let mut lines: usize = 0;
    while !rest.is_empty() {
        if others.is_empty() {
            return Some(lines);
        }
        let (piece, behind) = first_piece(rest);
        let (other_piece, others_behind) = first_piece(others);
        if piece != other_piece {
            return Some(lines);
        }
        rest = behind;
        others = others_behind;
        lines += 1;
    }
    if others.is_empty() { None } else { Some(lines) }
}
