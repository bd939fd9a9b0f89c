//! What became of a call. Where nothing was recorded, a look at the word says why.

ghost use Rattle.std.specs.Prelude.{◌≡◌, true};
ghost use Rattle.um_words.specs.declared.fine.FineAct.{FineAct};
ghost use Rattle.um_site.specs.Calls.{site_of, Stays, AtPlace};
ghost use Rattle.um_thread.specs.Tells.{Tells};

use um_site::{Board, Changed, Place, Seat, site_of};
use um_words::{Content, Local};

/// What became of a call on a word.
#[derive(Clone, Copy)]
pub enum Outcome<W> {
    /// It was recorded. This is what the word said before.
    Recorded { before: W },
    /// The word forbids it, and still stood there. Nothing was recorded.
    Forbidden { word: u64 },
}

/// What is told of a step that the word that was handed in forbids: nothing is recorded, whatever it says.
pub fn forbidden<W: Copy, T: Content, L: Local>(
    board: &Board<T, L>,
    seat: &mut Seat<T>,
    place: Place,
    seen: u64,
) -> Result<Outcome<W>, Changed>
    requires at { AtPlace board.now.table.shared.table_id seat.old place seen }
    ensures stays { Stays seat.old seat.new }
    ensures told { (act : FineAct) (says : W)
        → Tells L.goes seat.old (site_of place) seen true act says result seat.new }
{
    let word = board.look(seat, site_of(place));
    if word != seen {
        return Err(Changed { seen: word });
    }
    Ok(Outcome::Forbidden { word })
}
