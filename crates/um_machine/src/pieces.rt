//! Pieces of a few bytes.

ghost use Rattle.std.specs.Prelude.{◌≡◌, ◌+◌, ◌≤◌, ◌++◌, length};

use um_base::{PIECE, Piece};

/// Puts bytes behind those of a piece.
pub fn append(piece: &mut Piece, bytes: &[u8])
    requires { length piece.old + length bytes.now ≤ PIECE }
    ensures { piece.new ≡ piece.old ++ bytes.now }
{
    for byte in bytes {
        piece.push(*byte);
    }
}

/// The piece of these bytes.
pub fn piece(bytes: &[u8]) -> Piece
    requires { length bytes.now ≤ PIECE }
    ensures { result ≡ bytes.now }
{
    let mut piece = Piece::new();
    append(&mut piece, bytes);
    piece
}
