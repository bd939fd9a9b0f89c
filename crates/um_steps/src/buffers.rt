//! What calls and copies take of a buffer and of a message.

ghost use Rattle.std.specs.Prelude.{◌≡◌, take};
ghost use Rattle.um_machine.specs.Table.{bytes_given, message_size};

use crate::bytes::part;
use um_base::{Ask, PIECE, Piece};
use um_machine::Contents;

/// As many bytes as a copy takes at most.
#[inline]
pub fn first_bytes(bytes: &[u8]) -> Piece
    ensures { result ≡ take PIECE bytes.now }
{
    let front = part(bytes, 0, PIECE);
    let mut piece = Piece::new();
    for i in 0..front.len() {
        piece.push(front[i]);
    }
    piece
}

/// The bytes that a call gives of its buffer.
#[inline]
pub fn bytes_given(buffer: &Piece, ask: &Ask) -> Piece
    ensures { result ≡ bytes_given buffer.now ask.now }
{
    match ask {
        Ask::MsgqPut { .. } | Ask::PipeWrite { .. } => *buffer,
        _ => Piece::new(),
    }
}

/// The bytes of a message, where a queue keeps them.
#[inline]
pub fn message_size(contents: &Contents) -> u32
    ensures { result ≡ message_size contents.now }
{
    match contents {
        Contents::Msgq(queue) => queue.size(),
        _ => 0,
    }
}
