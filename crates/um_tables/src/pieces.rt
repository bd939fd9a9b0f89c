//! How bytes are written over what was there.

ghost use Rattle.std.specs.Prelude.{◌≡◌, [], take};
ghost use Rattle.um_base.specs.declared.limits.TheConstants.{PIECE};

use um_base::{PIECE, Piece};
use um_steps::bytes::part;

/// Leaves no byte.
#[inline]
pub fn empties(piece: &mut Piece)
    ensures { piece.new ≡ [] }
{
    if piece.len() > 0 {
        *piece = Piece::new();
    }
}

/// Writes these bytes over what was there. Nothing is written where both are empty.
#[inline(always)]
pub(crate) fn copies(to: &mut Piece, from: &Piece)
    ensures { to.new ≡ from.now }
{
    if from.len() > 0 || to.len() > 0 {
        *to = *from;
    }
}

/// Writes as many of these bytes over what was there as a copy takes at most.
pub(crate) fn copies_first(to: &mut Piece, bytes: &[u8])
    ensures { to.new ≡ take PIECE bytes.now }
{
    empties(to);
    let front = part(bytes, 0, PIECE);
    for i in 0..front.len() {
        to.push(front[i]);
    }
}
