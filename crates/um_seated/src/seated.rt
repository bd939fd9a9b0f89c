//! A seat at its board. It makes calls on the word that stands, and nothing if that word doesn't allow them.

ghost use Rattle.std.specs.Prelude.{◌≡◌, ◌<◌, true, Some, IfSome};
ghost use Rattle.um_words.specs.Packed.{row_of};
ghost use Rattle.um_site.specs.{Calls.{AtRow}, Lives.{Cleans}};
ghost use Rattle.um_seated.specs.Seats.{OnRow, OnThread, Remains};

use um_base::{Addr, Kind, Mode, Row, ThreadIx, Want};
use um_perm::{Answer, Dropped, RowCall, call_row};
use um_site::{Asked, Board, Changed, Seat, thread_site};
use um_thread::{Outcome, ThreadCall, call_thread};
use um_verify::{Checked, check, end_call};
use um_words::{AnyStep, RowWord, ThreadWord};

/// The address of the object that the calls are about.
pub const OBJECT: Addr = Addr(0x4800_0000);

/// The greatest step number of a row.
const LAST_OF_ROW: u32 = 0xf_ffff;

/// The greatest step number of a thread, a domain or a cell.
pub const LAST: u32 = 0xfff_ffff;

/// A seat at its board.
#[derive(Drop)]
pub struct Seated<'a> {
    pub board: &'a Board<(), AnyStep>,
    pub seat: Seat<()>,
}

impl<'a> Seated<'a> {
    pub fn new(board: &'a Board<(), AnyStep>, seat: Seat<()>) -> Seated<'a>
        ensures { (result.board.now ≡ board.now) × (result.seat ≡ seat) }
    {
        Seated { board, seat }
    }

    /// The word of a row and what it says, if it has room for a step.
    pub fn row_seen(&mut self, row: Row) -> Option<(u64, RowWord)>
        requires on { OnRow self.old row.0 }
        ensures stays { Remains self.old self.new }
        ensures made { self.new.seat.token.me.0.made ≡ self.old.seat.token.me.0.made }
        ensures at { IfSome result
            (λ r. AtRow self.new.board.now.table.shared.table_id self.new.seat row.0 r.0) }
        ensures word { IfSome result (λ r. r.1 ≡ row_of r.0) }
    {
        let seen = self.board.look(&mut self.seat, u16::from(row.0));
        let word = RowWord::read(seen);
        if word.number >= LAST_OF_ROW {
            return None;
        }
        Some((seen, word))
    }

    /// A user's check of a semaphore, on the word that the seat saw.
    pub fn check_seen(
        &mut self,
        row: Row,
        who: ThreadIx,
        want: Want,
        seen: u64,
    ) -> Option<Result<Checked, Changed>>
        requires at { AtRow self.old.board.now.table.shared.table_id self.old.seat row.0 seen }
        ensures stays { Remains self.old self.new }
    {
        if RowWord::read(seen).claims >= 127 {
            return None;
        }
        let kind = Some(Kind::Sem);
        Some(check(
            self.board,
            &mut self.seat,
            row,
            who,
            Mode::User,
            kind,
            true,
            want,
            OBJECT,
            seen,
        ))
    }

    /// A user's check of a semaphore.
    pub fn check(&mut self, row: Row, who: ThreadIx, want: Want) -> Option<Result<Checked, Changed>>
        requires on { OnRow self.old row.0 }
        ensures stays { Remains self.old self.new }
    {
        let (seen, _) = self.row_seen(row)?;
        self.check_seen(row, who, want, seen)
    }

    /// The end of a claim.
    pub fn end(&mut self, row: Row) -> Option<Result<bool, Changed>>
        requires on { OnRow self.old row.0 }
        ensures stays { Remains self.old self.new }
        ensures cleans { result ≡ Some (Ok true) → Cleans row.0 self.new.seat.token.me.0 }
    {
        let (seen, word) = self.row_seen(row)?;
        if word.claims == 0 {
            return None;
        }
        Some(end_call(self.board, &mut self.seat, row, seen))
    }

    /// A call on a row's object.
    pub fn row(&mut self, row: Row, by: ThreadIx, call: RowCall) -> Option<Result<Answer, Changed>>
        requires on { OnRow self.old row.0 }
        requires cleans { call ≡ RowCall.Vacate → Cleans row.0 self.old.seat.token.me.0 }
        ensures stays { Remains self.old self.new }
        ensures cleans { result ≡ Some (Ok (Answer.Dropped (Dropped.Gone true)))
            → Cleans row.0 self.new.seat.token.me.0 }
        ensures still { IfSome result
            (λ r. (e : Changed) → r ≡ Err e → Cleans row.0 self.old.seat.token.me.0
            → Cleans row.0 self.new.seat.token.me.0) }
    {
        let (seen, word) = self.row_seen(row)?;
        if !call.fits(&word) {
            return None;
        }
        let asked = Asked { by, call, seen };
        Some(call_row(self.board, &mut self.seat, row, asked))
    }

    /// A call on a thread.
    pub fn thread(
        &mut self,
        who: ThreadIx,
        by: ThreadIx,
        call: ThreadCall,
    ) -> Option<Result<Outcome<ThreadWord>, Changed>>
        requires on { OnThread self.old who.0 }
        ensures stays { Remains self.old self.new }
    {
        let seen = self.board.look(&mut self.seat, thread_site(who));
        let word = ThreadWord::unpack(seen)?;
        if word.number >= LAST || !call.fits(&word) {
            return None;
        }
        let asked = Asked { by, call, seen };
        Some(call_thread(self.board, &mut self.seat, who, asked))
    }
}
