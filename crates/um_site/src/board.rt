//! The board.

ghost use Rattle.std.specs.{
  Prelude.{◌≡◌, ◌≢◌, ℕ, ◌+◌, ◌%◌, ◌<◌, ◌≤◌, ◌^◌, true, false, [], length, max, slice_index, IfOk, IfErr, ◌⊎◌, MatchResult, Option, Some, None},
  Mem.Slots.{slots_items, slots_len, IsFull},
};
ghost use Rattle.um_words.specs.Steps.{number, WordMay};
ghost use Rattle.um_site.specs.{
  Tells.{made, last_got, with_made, GoesOn, Looked, stepped_by},
  History.{opening_view, splitter, newborn, joiner, AmongNames, IsClosed, shadow_of},
  Cells.{IsClosedWithCells, Moment},
};
ghost use Rattle.atomic_table.specs.Table.{step};
ghost use mathlib.Core.Option.{none};

use crate::closed::Closed;
use crate::plays::{Exchange, Fork, Look, Shadow, Step};
use crate::rule::{Opening, Ruled};
use crate::seat::Seat;
use crate::view::View;
use atomic_table::Table;
use std::alloc::Global;
use std::snapshot::Snapshot;
use um_base::{Image, OutOfMemory};
use um_words::{Content, Local, step_number};

/// A word for each site, which many threads may change at once.
#[derive(Drop)]
pub struct Board<T: Content, L: Local> {
    pub table: Table<Option<T>, View, Opening, Ruled<L>, Global>,
    sealed: (),
    pub ghost sized: { table.shared.table_id.words ≡ length table.shared.key.1.value.items },
}

/// Another word stood at the site than the one handed in. Nothing was recorded.
#[derive(Clone, Copy, PartialEq, Eq)]
pub struct Changed {
    /// The word that stood there.
    pub seen: u64,
}

/// A board that can't be closed, since a seat isn't joined.
#[derive(Drop)]
pub struct StillOut<T: Content, L: Local> {
    pub board: Board<T, L>,
    pub seat: Seat<T>,
    /// How many seats the seat, and those that it joined, have split off that aren't joined; at least 1, as a seat that isn't the first
    /// isn't joined itself.
    pub seats: u32,
}

impl<T: Content, L: Local> Board<T, L> {
    /// Makes a board with these words and this many slots for the contents of cells, and its first seat. Contracts remember the words and
    /// the image.
    pub fn make(
        alloc: Global,
        words: Vec<u64>,
        slots: u32,
        image: &Image,
    ) -> Result<(Board<T, L>, Seat<T>), OutOfMemory>
        requires unstepped { (i : ℕ) → i < length words.items → number i (slice_index words.items i) ≡ 0 }
        requires turns { (i : ℕ) → 168 ≤ i → i < length words.items → slice_index words.items i % 2 ≡ 0 }
        ensures same { IfOk result (λ r. r.1.token.table_id ≡ r.0.table.shared.table_id) }
        ensures sites { IfOk result
            (λ r. (r.0.table.shared.table_id.words ≡ length words.items)
            × (r.0.table.shared.table_id.slots ≡ slots)) }
        ensures opens { IfOk result (λ r. r.1.token.me.0 ≡ opening_view image.now words.items) }
        ensures slots { IfOk result (λ r. r.1.token.me.1 ≡ []) }
        ensures first { IfOk result (λ r. (r.1.first ≡ true) × (r.1.split ≡ 0) × (r.1.joined ≡ 0)) }
    {
        let about = (Snapshot::of(image), Snapshot::of(&words));
        let (table, token) = Table::vacant(alloc, words.as_slice(), slots as usize, &about)?;
        Ok((
            Board { table, sealed: () },
            Seat {
                token,
                split: 0,
                joined: 0,
                first: true,
                sealed: (),
            },
        ))
    }

    /// The word of a site.
    pub fn look(&self, seat: &mut Seat<T>, site: u16) -> u64
        requires here { seat.old.token.table_id ≡ self.now.table.shared.table_id }
        requires site { site < self.now.table.shared.table_id.words }
        ensures same { (seat.new.token.table_id ≡ seat.old.token.table_id)
            × (seat.new.token.id ≡ seat.old.token.id) }
        ensures told { Looked L.goes seat.old.token.me.0 site result seat.new.token.me.0 }
        ensures moment { Moment T.opens T.follows L.goes seat.old.token.me.0 site result }
        ensures counts { (seat.new.split ≡ seat.old.split) × (seat.new.joined ≡ seat.old.joined)
            × (seat.new.first ≡ seat.old.first) }
        ensures slots { seat.new.token.me.1 ≡ seat.old.token.me.1 }
        ensures kin { (seat.new.token.me.0.name ≡ seat.old.token.me.0.name)
            × (seat.new.token.me.0.children ≡ seat.old.token.me.0.children)
            × (seat.new.token.me.0.turn ≡ seat.old.token.me.0.turn)
            × (seat.new.token.me.0.filled ≡ seat.old.token.me.0.filled) }
        ensures last { last_got seat.new.token.me.0.got site ≡ Some result }
    {
        self.table
            .shared
            .load::<Look<L>>(&mut seat.token, site as usize)
    }

    /// Writes `word` to the site if `seen` still stands there. Returns the word that stood there.
    #[inline(always)]
    fn exchange<D: Step>(&self, seat: &mut Seat<T>, site: u16, seen: u64, word: u64) -> u64
        requires here { seat.old.token.table_id ≡ self.now.table.shared.table_id }
        requires site { site < self.now.table.shared.table_id.words }
        requires low { site < 168 }
        requires step { D.made ≡ made site D.made.act word }
        requires lawful { WordMay site seen D.made.act word }
        requires goes { L.goes seat.old.token.me.0.image seat.old.token.me.0.name seat.old.token.me.0.made D.made }
        ensures same { (seat.new.token.table_id ≡ seat.old.token.table_id)
            × (seat.new.token.id ≡ seat.old.token.id) }
        ensures counts { (seat.new.split ≡ seat.old.split) × (seat.new.joined ≡ seat.old.joined)
            × (seat.new.first ≡ seat.old.first) }
        ensures told { stepped_by L.goes D.made
            (step 0 site seen word none) seat.old.token.me result seat.new.token.me }
    {
        self.table
            .shared
            .compare_exchange::<Exchange<L, D>>(&mut seat.token, site as usize, seen, word)
    }

    /// Records a step of a row, a thread or a domain that leaves this word. The step itself, `D::made`, is ghost data. Returns the step's
    /// number, or the word that stands there if it isn't `seen`.
    #[inline(always)]
    pub fn step_to<D: Step>(
        &self,
        seat: &mut Seat<T>,
        site: u16,
        seen: u64,
        word: u64,
    ) -> Result<u32, Changed>
        requires here { seat.old.token.table_id ≡ self.now.table.shared.table_id }
        requires site { site < self.now.table.shared.table_id.words }
        requires no_cell { site < 168 }
        requires seen { last_got seat.old.token.me.0.got site ≡ Some seen }
        requires step { D.made ≡ made site D.made.act word }
        requires lawful { WordMay site seen D.made.act word }
        requires goes { L.goes seat.old.token.me.0.image seat.old.token.me.0.name seat.old.token.me.0.made D.made }
        ensures same { (seat.new.token.table_id ≡ seat.old.token.table_id)
            × (seat.new.token.id ≡ seat.old.token.id) }
        ensures told { MatchResult result
            (λ n. (n ≡ number site word) × GoesOn L.goes seat.old.token.me.0 D.made seen
            × (seat.new.token.me.0 ≡ with_made seat.old.token.me.0 D.made))
            (λ e. (e.seen ≢ seen) × Looked L.goes seat.old.token.me.0 site e.seen seat.new.token.me.0) }
        ensures counts { (seat.new.split ≡ seat.old.split) × (seat.new.joined ≡ seat.old.joined)
            × (seat.new.first ≡ seat.old.first) }
        ensures slots { seat.new.token.me.1 ≡ seat.old.token.me.1 }
        ensures kin { (seat.new.token.me.0.name ≡ seat.old.token.me.0.name)
            × (seat.new.token.me.0.children ≡ seat.old.token.me.0.children)
            × (seat.new.token.me.0.turn ≡ seat.old.token.me.0.turn)
            × (seat.new.token.me.0.filled ≡ seat.old.token.me.0.filled) }
        ensures last { IfErr result (λ e. last_got seat.new.token.me.0.got site ≡ Some (e.seen)) }
    {
        let found = self.exchange::<D>(seat, site, seen, word);
        if found == seen {
            Ok(step_number(site, word))
        } else {
            Err(Changed { seen: found })
        }
    }

    /// Splits a new seat off.
    pub fn split(&self, seat: &mut Seat<T>) -> Seat<T>
        requires here { seat.old.token.table_id ≡ self.now.table.shared.table_id }
        requires words { 0 < self.now.table.shared.table_id.words }
        requires room { seat.old.split + 1 < 2 ^ 32 }
        ensures same { (seat.new.token.table_id ≡ seat.old.token.table_id)
            × (seat.new.token.id ≡ seat.old.token.id) }
        ensures counts { (seat.new.split ≡ seat.old.split + 1) × (seat.new.joined ≡ seat.old.joined)
            × (seat.new.first ≡ seat.old.first) }
        ensures kept { seat.new.token.me.0 ≡ splitter seat.old.token.me.0 }
        ensures slots { seat.new.token.me.1 ≡ seat.old.token.me.1 }
        ensures new { (result.token.table_id ≡ seat.old.token.table_id)
            × (result.token.me.0 ≡ newborn seat.old.token.me.0) × (result.token.me.1 ≡ []) }
        ensures nothing { (result.split ≡ 0) × (result.joined ≡ 0) × (result.first ≡ false) }
    {
        let token = self.table.shared.split_seat::<Fork>(&mut seat.token);
        seat.split += 1;
        Seat {
            token,
            split: 0,
            joined: 0,
            first: false,
            sealed: (),
        }
    }

    /// Joins a seat that this one, or one that it joined, split off.
    pub fn join(&self, seat: &mut Seat<T>, other: Seat<T>)
        requires here { (seat.old.token.table_id ≡ self.now.table.shared.table_id)
            × (other.token.table_id ≡ self.now.table.shared.table_id) }
        requires words { 0 < self.now.table.shared.table_id.words }
        requires room { (seat.old.split + other.split < 2 ^ 32)
            × (seat.old.joined + other.joined + 1 < 2 ^ 32) }
        requires out { AmongNames seat.old.token.me.0.children other.token.me.0.name }
        requires empty { (other.token.me.1 ≡ []) × (other.token.me.0.turn ≡ None) }
        ensures same { (seat.new.token.table_id ≡ seat.old.token.table_id)
            × (seat.new.token.id ≡ seat.old.token.id) × (seat.new.first ≡ seat.old.first) }
        ensures counts { (seat.new.split ≡ seat.old.split + other.split)
            × (seat.new.joined ≡ seat.old.joined + other.joined + 1) }
        ensures both { seat.new.token.me.0 ≡ joiner seat.old.token.me.0 other.token.me.0 }
        ensures slots { seat.new.token.me.1 ≡ seat.old.token.me.1 }
    {
        let Seat {
            token,
            split,
            joined,
            first: _,
            sealed: _,
        } = other;
        self.table.shared.join_seat::<Fork>(&mut seat.token, token);
        seat.split += split;
        seat.joined += joined + 1;
    }

    /// Closes the board, if all other seats are joined.
    pub fn close(self, seat: Seat<T>) -> Result<Closed<T>, StillOut<T, L>>
        requires here { seat.token.table_id ≡ self.table.shared.table_id }
        requires words { 0 < self.table.shared.table_id.words }
        ensures closed { IfOk result
            (λ c. (c.token.me.0 ≡ shadow_of seat.token.me.0) × IsFull c.table.words
            × IsClosed L.goes seat.token.me.0 (slots_items c.table.words)) }
        ensures cells { IfOk result
            (λ c. seat.token.me.0.turn ≡ None
            → IsClosedWithCells T.opens T.follows L.goes seat.token.me.0 (slots_items c.table.words)
            (slots_items c.table.slots)) }
        ensures sites { IfOk result
            (λ c. (slots_len c.table.words ≡ self.table.shared.table_id.words)
            × (slots_len c.table.slots ≡ self.table.shared.table_id.slots)) }
        ensures back { IfErr result (λ e. (e.board ≡ self) × (e.seat ≡ seat)) }
        ensures out { IfErr result
            (λ e. (0 < e.seats) × ((seat.first ≡ false) ⊎ (seat.split ≢ seat.joined))) }
        ensures seats { IfErr result (λ e. e.seats ≡ max 1 (length seat.token.me.0.children)) }
        ensures all_in { IfOk result (λ c. (seat.first ≡ true) × (seat.split ≡ seat.joined)) }
    {
        if !seat.first || seat.split != seat.joined {
            let out = seat.split - seat.joined;
            let seats = if out == 0 { 1 } else { out };
            return Err(StillOut {
                board: self,
                seat,
                seats,
            });
        }
        let Board { table, sealed: _ } = self;
        let Seat {
            mut token,
            split: _,
            joined: _,
            first: _,
            sealed: _,
        } = seat;
        let shadow = table.shared.split_seat::<Shadow>(&mut token);
        let table = table.close_with(token);
        Ok(Closed {
            table,
            token: shadow,
            sealed: (),
        })
    }
}
