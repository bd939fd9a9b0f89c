//! A board with one cell, which two seats use.

ghost use Rattle.std.specs.Prelude.{◌≡◌, ◌<◌, IfOk, IfSome, None};
ghost use Rattle.um_words.specs.{
  declared.fine.{FineAct.{FineAct}, Unseen.{Unseen}},
  Steps.{WordMay},
};
ghost use Rattle.um_cell.specs.Contents.{IsCell, KnowsFilled};

use std::alloc::Global;
use std::marker::Brand;
use std::mem::size_of;
use um_base::OutOfMemory;
use um_cell::{Cells, Held};
use um_seated::{empty_image, words_with};
use um_site::{Board, Seat, are_unstepped, have_no_turn};
use um_words::{AnyStep, Content};

/// The cell of the first row's object.
const CELL: u16 = 168;

/// Contents that say whether they were cleared.
#[derive(Drop)]
struct Mark {
    cleared: bool,
}

impl Content for Mark {
    ghost use Rattle.std.specs.Prelude.{◌≡◌, true, false};

    ghost opens = { λ image site mark. mark.cleared ≡ false };

    ghost follows = { λ old act moved new. new.cleared ≡ true };
}

/// A board with that cell, its first seat and the cell.
fn with_cell(
    alloc: Global,
) -> Result<Option<(Board<Mark, AnyStep>, Seat<Mark>, Cells<Mark>)>, OutOfMemory>
    ensures same { IfOk result (λ r. IfSome r (λ b. b.1.token.table_id ≡ b.0.table.shared.table_id)) }
    ensures sites { IfOk result (λ r. IfSome r (λ b. 168 < b.0.table.shared.table_id.words)) }
    ensures first { IfOk result
        (λ r. IfSome r (λ b. (b.1.split ≡ 0) × (b.1.joined ≡ 0) × (b.1.token.me.0.turn ≡ None))) }
    ensures cells { IfOk result (λ r. IfSome r (λ b. IsCell b.2 168 × KnowsFilled b.2 b.1.token.me.0)) }
{
    let words = words_with(alloc, 169, 0, 0)?;
    let slice = words.as_slice();
    if slice.len() != 169 || !are_unstepped(slice) || !have_no_turn(slice) {
        return Ok(None);
    }
    let image = empty_image(alloc);
    let contents = vec![in alloc; Mark { cleared: false }]?;
    let (board, mut seat) = Board::<Mark, AnyStep>::make(alloc, words, 1, &image)?;
    let cells = Cells::make(&board, &mut seat, CELL, contents);
    Ok(Some((board, seat, cells)))
}

/// The word of the cell after its first step, by which its contents are cleared.
fn wiped(word: u64) -> u64
    requires { word ≡ 0 }
    ensures { WordMay 168 word (FineAct.Unseen Unseen.Wipe) result }
{
    let _ = word;
    0x0000_0010_0000_0000
}

/// One seat takes the cell, and a second finds it taken. After the put, which is step 1, the second gets the contents that the act left.
#[test]
fn a_taken_cell_is_given_back_changed(rt: HostRuntime) -> Result<(), OutOfMemory> {
    let Some((board, mut first, cells)) = with_cell(rt.alloc())? else {
        assert!(rt; false, "a board");
        return Ok(());
    };
    let mut second = board.split(&mut first);
    let Ok(mut held) = cells.take(&board, &mut first, CELL) else {
        assert!(rt; false, "taken by the first");
        return Ok(());
    };
    let Err(busy) = cells.take(&board, &mut second, CELL) else {
        assert!(rt; false, "taken twice");
        return Ok(());
    };
    assert!(rt; busy.word == 1 && held.word == 0 && !held.contents.cleared);
    held.contents.cleared = true;
    let next = wiped(held.word);
    let number = cells.put::<_, Brand>(&board, &mut first, held, next);
    assert!(rt; number == 1);
    let Ok(held) = cells.take(&board, &mut second, CELL) else {
        assert!(rt; false, "taken by the second");
        return Ok(());
    };
    assert!(rt; held.contents.cleared && held.word == 0x0000_0010_0000_0000);
    cells.put_quiet(&board, &mut second, held);
    Ok(())
}

/// Seats, boards, cells and what is taken of a cell are small: ghost data takes no memory.
#[test]
fn cells_are_small(rt: HostRuntime) {
    assert!(rt; size_of::<Seat<Mark>>() == 12);
    assert!(rt; size_of::<Board<Mark, AnyStep>>() == 64);
    assert!(rt; size_of::<Cells<Mark>>() == 4);
    assert!(rt; size_of::<Held<u64>>() == 24);
}
