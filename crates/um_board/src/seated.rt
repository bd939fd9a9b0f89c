//! A processor's place at a board, and how it makes a step there.

ghost use Rattle.std.specs.Prelude.{◌≡◌, ◌≢◌, ◌+◌, ◌<◌, ◌≤◌, ◌++◌, ◌∷◌, ℕ, [], Option, Some, None, false, true, length, MatchOption, IsTrue};
ghost use Rattle.atomic_table.specs.Seated.{TableId};
ghost use Rattle.um_machine.specs.Memory.{rodata_of};
ghost use Rattle.um_words.specs.{Packed.{cell_of}, Steps.{WordMay, cell_kind_at, number}};
ghost use Rattle.um_fine.specs.{
  Cells.{quiet_word},
  Sites.{SiteState, is_site, site_number},
  Steps.{Exchange},
};
ghost use Rattle.um_site.specs.Tells.{NoOlder, last_got};
ghost use Rattle.um_tables.specs.Asked.{Takes, event_of};
ghost use Rattle.um_board.specs.{
  Kept.{HasRoom},
  NextSteps.{IsNext},
  Noted.{made_of, number_of},
  Placed.{AsksTurn, HasMadeNone, HasMadeThere, HasSeen, HasTurnAt, IsAt},
  ReadBack.{IsReadBack},
  Saw.{Hinders, SawAt},
};

use crate::contents::{Contents, Counts};
use crate::fine::{AsMade, Fine};
use crate::kind::Kind;
use crate::next_step::NextStep;
use crate::places::SCHEDULER;
use std::snapshot::Snapshot;
use um_base::{Event, Image};
use um_cell::{Cells, Held};
use um_merge::Log;
use um_site::{Board, Seat};
use um_tables::Here;
use um_words::{CellWord, step_number};

/// The greatest step number: there a cell takes no step.
const LAST: u32 = 0xfff_ffff;

/// A processor's place at a board: its seat, and the log of the steps that it made, in reserved room.
#[derive(Drop)]
pub struct Seated<'a> {
    pub board: &'a Board<Contents, NextStep>,
    pub cells: &'a Cells<Contents>,
    /// The bytes of the image's read-only data, which no step changes.
    pub rodata: &'a [u8],
    pub seat: Seat<Contents>,
    pub log: Log,
}

/// The turn of a cell.
#[derive(Drop)]
pub struct Turn<K> {
    /// The word at which it was taken.
    pub word: u64,
    /// How many steps the cell has taken.
    pub number: u32,
    /// What the cell kept when it was taken, as ghost data.
    pub before: Snapshot<K>,
}

/// How many steps a cell has taken, if its word counts these and the cell can take one more step.
fn steps_of(word: u64, counts: &Counts) -> Option<u32>
    ensures { let c = counts.now in
        MatchOption result ((n : ℕ) → n < 268435455 → cell_of word ≢ quiet_word c.ready c.running c.owed n)
        (λ n. (cell_of word ≡ quiet_word c.ready c.running c.owed n) × (n < 268435455)) }
{
    let word = CellWord::read(word);
    if word.turn
        || word.ready != counts.ready
        || word.running != counts.running
        || word.owed != counts.owed
        || word.number >= LAST
    {
        return None;
    }
    Some(word.number)
}

impl<'a> Seated<'a> {
    /// Makes a place at this board.
    pub fn new(
        board: &'a Board<Contents, NextStep>,
        cells: &'a Cells<Contents>,
        rodata: &'a [u8],
        seat: Seat<Contents>,
        log: Log,
    ) -> Seated<'a>
        ensures seat { result.seat ≡ seat }
        ensures log { result.log ≡ log }
        ensures board { (result.board.now ≡ board.now) × (result.cells.now ≡ cells.now)
            × (result.rodata.now ≡ rodata.now) }
    {
        Seated {
            board,
            cells,
            rodata,
            seat,
            log,
        }
    }

    /// Whether the log has no room for one more step.
    pub(crate) fn is_full(&self) -> bool
        ensures room { result ≡ false → length self.now.log.items < self.now.log.room }
        ensures full { result ≡ true → self.now.log.room ≤ length self.now.log.items }
    {
        self.log.capacity() <= self.log.len()
    }

    /// Reads the word of a site.
    pub(crate) fn look(&mut self, image: &Image, site: u16) -> u64
        requires image { IsAt image.now self.old }
        requires site { site < 309 }
        ensures image { IsAt image.now self.new }
        ensures unnoted { HasMadeNone self.old self.new }
        ensures got { self.new.seat.token.me.0.got ≡ (site, result) ∷ self.old.seat.token.me.0.got }
        ensures last { last_got self.new.seat.token.me.0.got site ≡ Some result }
        ensures newest { NoOlder self.old.seat.token.me.0.got site result }
        ensures saw { SawAt self.old.seat site result }
        ensures log { self.new.log ≡ self.old.log }
    {
        self.board.look(&mut self.seat, site)
    }

    /// Reads the word of the scheduler's cell. It is no older than any that the seat read or wrote there.
    pub fn look_scheduler(&mut self, image: &Image) -> u64
        requires image { IsAt image.now self.old }
        ensures image { IsAt image.now self.new }
        ensures unnoted { HasMadeNone self.old self.new }
        ensures got { self.new.seat.token.me.0.got ≡ (306, result) ∷ self.old.seat.token.me.0.got }
        ensures newest { NoOlder self.old.seat.token.me.0.got 306 result }
        ensures saw { SawAt self.old.seat 306 result }
        ensures log { self.new.log ≡ self.old.log }
    {
        self.look(image, SCHEDULER)
    }

    /// Reads the word of a site, and returns it if the log has room for one more step.
    pub(crate) fn look_to_step(&mut self, image: &Image, site: u16) -> Option<u64>
        requires image { IsAt image.now self.old }
        requires site { site < 309 }
        ensures image { IsAt image.now self.new }
        ensures unnoted { HasMadeNone self.old self.new }
        ensures seen { MatchOption result
            (Hinders self.old.log.room self.old.log.items self.old.seat self.new.seat site)
            (HasSeen self.old site self.new) }
    {
        let word = self.look(image, site);
        if self.is_full() {
            return None;
        }
        Some(word)
    }

    /// Makes a step of a row, a thread or a domain: writes `next` if `seen` still stands at the site, and then notes the step. Returns
    /// whether it was made; if not, another word stands there. Only the proof uses `which` and `about`, to pick the step that is made.
    #[inline(always)]
    pub(crate) fn step<D: Fine, A>(
        &mut self,
        here: &Here,
        which: u8,
        site: u16,
        seen: u64,
        next: u64,
        event: &Option<Event>,
        about: &A,
    ) -> bool
        requires image { IsAt here.now.image.now self.old }
        requires site { site < 168 }
        requires free { length self.old.log.items < self.old.log.room }
        requires seen { last_got self.old.seat.token.me.0.got site ≡ Some seen }
        requires step { made_of D.step
            ≡ record { site = site; act = D.step.act; word = next; moved = Exchange.nothing } }
        requires numbered { number site next ≡ number_of D.step.word }
        requires back { IsReadBack D.step }
        requires cpu { D.step.cpu ≡ here.now.cpu }
        requires event { event.now ≡ event_of D.step.act }
        requires lawful { WordMay site seen D.step.act next }
        requires goes { IsNext here.now.image.now self.old.seat.token.me.0.name self.old.seat.token.me.0.made D.step }
        ensures image { IsAt here.now.image.now self.new }
        ensures made { result ≡ true → HasMadeThere self.old D.step self.new }
        ensures changed { result ≡ false → HasMadeNone self.old self.new }
        ensures moved { result ≡ false → (z : ℕ) × (z ≢ seen)
            × (self.new.seat.token.me.0.got ≡ (site, z) ∷ self.old.seat.token.me.0.got) }
    {
        let _ = which;
        let _ = about;
        match self
            .board
            .step_to::<AsMade<D>>(&mut self.seat, site, seen, next)
        {
            Err(_) => false,
            Ok(number) => {
                self.log.note(here.cpu, site, number, event);
                true
            }
        }
    }

    /// Takes the turn of a cell with its contents, if no other seat has it, the cell can take one more step, and the log has room for it.
    /// It looks first, so that seats that wait for a turn only read the word and don't disturb the seat that is to write it.
    pub(crate) fn turn<K: Kind>(&mut self, image: &Image, site: u16) -> Option<(Turn<K>, K)>
        requires image { IsAt image.now self.old }
        requires site { (168 ≤ site) × (site < 309) × (cell_kind_at site ≡ K.kind) }
        ensures unnoted { HasMadeNone self.old self.new }
        ensures turn { AsksTurn K.cell K.room image.now self.old site result self.new }
    {
        if self.look(image, site) % 2 == 1 {
            return None;
        }
        self.turn_at_once(image, site)
    }

    /// The same, without looking first.
    pub(crate) fn turn_at_once<K: Kind>(&mut self, image: &Image, site: u16) -> Option<(Turn<K>, K)>
        requires image { IsAt image.now self.old }
        requires site { (168 ≤ site) × (site < 309) × (cell_kind_at site ≡ K.kind) }
        ensures unnoted { HasMadeNone self.old self.new }
        ensures turn { AsksTurn K.cell K.room image.now self.old site result self.new }
    {
        let held = match self.cells.take(self.board, &mut self.seat, site) {
            Err(_) => return None,
            Ok(held) => held,
        };
        if self.is_full() {
            self.cells.put_quiet(self.board, &mut self.seat, held);
            return None;
        }
        let counts = held.contents.counts();
        match steps_of(held.word, &counts) {
            None => {
                self.cells.put_quiet(self.board, &mut self.seat, held);
                None
            }
            Some(number) => {
                let Held { word, contents, .. } = held;
                let cell = K::out_of(contents.into_kept());
                let before = Snapshot::of(&cell);
                Some((
                    Turn {
                        word,
                        number,
                        before,
                    },
                    cell,
                ))
            }
        }
    }

    /// Gives the turn back with the cell as it was.
    pub(crate) fn put_back<K: Kind>(&mut self, image: &Image, site: u16, turn: Turn<K>, cell: K)
        requires turn { HasTurnAt image.now self.old site turn.word turn.number (K.cell turn.before.value) }
        requires same { K.cell cell ≡ K.cell turn.before.value }
        requires room { HasRoom image.now (K.room cell) }
        ensures image { IsAt image.now self.new }
        ensures unnoted { HasMadeNone self.old self.new }
    {
        let contents = Contents::new(image, cell.into_kept());
        let held = Held {
            cell: site,
            word: turn.word,
            contents,
        };
        self.cells.put_quiet(self.board, &mut self.seat, held);
    }

    /// Makes a step of a cell whose turn it has: leaves these contents, gives the turn back, and notes the step. Only the proof uses
    /// `which` and `about`, to pick the step that is made.
    #[inline(always)]
    pub(crate) fn leave_cell<D: Fine, K: Kind, A>(
        &mut self,
        here: &Here,
        site: u16,
        which: u8,
        turn: Turn<K>,
        cell: K,
        event: &Option<Event>,
        about: &A,
    )
        requires turn { HasTurnAt here.now.image.now self.old site turn.word turn.number
            (K.cell turn.before.value) }
        requires free { length self.old.log.items < self.old.log.room }
        requires takes { Takes here.now.image.now
            (SiteState.cell turn.number (K.cell turn.before.value)) D.step
            (SiteState.cell (turn.number + 1) (K.cell cell)) }
        requires room { HasRoom here.now.image.now (K.room cell) }
        requires site { site_number D.step.site ≡ site }
        requires there { IsTrue (is_site D.step.site) }
        requires cpu { D.step.cpu ≡ here.now.cpu }
        requires event { event.now ≡ event_of D.step.act }
        requires goes { IsNext here.now.image.now self.old.seat.token.me.0.name self.old.seat.token.me.0.made D.step }
        ensures image { IsAt here.now.image.now self.new }
        ensures made { HasMadeThere self.old D.step self.new }
    {
        let _ = which;
        let _ = about;
        let contents = Contents::new(here.image, cell.into_kept());
        let Counts {
            ready,
            running,
            owed,
        } = contents.counts();
        let next = CellWord {
            turn: false,
            ready,
            running,
            owed,
            number: turn.number + 1,
        }
        .pack();
        let held = Held {
            cell: site,
            word: turn.word,
            contents,
        };
        let number = self
            .cells
            .put::<_, AsMade<D>>(self.board, &mut self.seat, held, next);
        self.log.note(here.cpu, site, number, event);
    }

    /// The seat with the log of its steps.
    pub fn into_parts(self) -> (Seat<Contents>, Log)
        ensures { (result.0 ≡ self.entry.seat) × (result.1 ≡ self.entry.log) }
    {
        (self.seat, self.log)
    }
}
