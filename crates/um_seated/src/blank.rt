//! A board of words alone.

ghost use Rattle.std.specs.Prelude.{◌≡◌, ◌<◌, [], true, IfOk, IfSome, length};

use std::alloc::Global;
use um_base::{Image, OutOfMemory};
use um_samples::empty_image;
use um_site::{Board, Seat, are_unstepped, have_no_turn};
use um_words::AnyStep;

/// An image with nothing in it.
pub fn empty_image(alloc: Global) -> Image {
    empty_image!(alloc)
}

/// A board of these words, where it may open with them.
pub fn board_of(
    alloc: Global,
    words: Vec<u64>,
) -> Result<Option<(Board<(), AnyStep>, Seat<()>)>, OutOfMemory>
    ensures same { IfOk result (λ r. IfSome r (λ b. b.1.token.table_id ≡ b.0.table.shared.table_id)) }
    ensures sites { IfOk result (λ r. IfSome r (λ b. b.0.table.shared.table_id.words ≡ length words.items)) }
    ensures first { IfOk result
        (λ r. IfSome r (λ b. (b.1.split ≡ 0) × (b.1.joined ≡ 0) × (b.1.first ≡ true)
        × (b.1.token.me.1 ≡ []))) }
{
    let slice = words.as_slice();
    if slice.len() > 65_536 || !are_unstepped(slice) || !have_no_turn(slice) {
        return Ok(None);
    }
    let image = empty_image(alloc);
    let (board, seat) = Board::<(), AnyStep>::make(alloc, words, 0, &image)?;
    Ok(Some((board, seat)))
}

/// This many words, all empty but this one, at its site.
pub fn words_with(
    alloc: Global,
    count: u16,
    site: u16,
    word: u64,
) -> Result<Vec<u64>, OutOfMemory> {
    let mut words = Vec::new(alloc);
    for at in 0..count {
        words.push(if at == site { word } else { 0 })?;
    }
    Ok(words)
}

/// The word of a site of a board that closes.
pub fn last_word(board: Board<(), AnyStep>, seat: Seat<()>, site: u16) -> Option<u64>
    requires here { seat.token.table_id ≡ board.table.shared.table_id }
    requires site { site < board.table.shared.table_id.words }
{
    match board.close(seat) {
        Ok(closed) => {
            let word = closed.word(site);
            closed.free();
            Some(word)
        }
        Err(_) => None,
    }
}
