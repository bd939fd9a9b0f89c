//! Looks for threads that wait, on a board.

ghost use Rattle.std.specs.Prelude.{◌≡◌, ◌<◌, not};
ghost use Rattle.um_base.specs.declared.limits.TheConstants.{ROWS};
ghost use Rattle.um_fine.specs.{Answers.{is_void}, Sites.{site_number}, Steps.{Site}};
ghost use Rattle.um_tables.specs.declared.look.Waiting.TheVariants as Waiting;
ghost use Rattle.um_tables.specs.{Answers.{CanAskCell, CellAnswers}, Looks.{looked_in}};
ghost use Rattle.um_board.specs.{
  NextSteps.{IsNext},
  Placed.{HasMadeNone, HasMadeThere, IsAt},
  Saw.{Hinders, SawShut},
};

use crate::object_room::ObjectRoom;
use crate::places::{JOINS, MEMORY, OBJECTS_FROM};
use crate::seated::Seated;
use std::marker::Brand;
use um_base::Row;
use um_tables::{Bytes, Here, Joins, Look, Said};

impl Seated<'_> {
    /// Looks for a thread that waits at the object of a row.
    pub(crate) fn look_at_object(&mut self, here: &Here, row: Row, look: &Look) -> Said<bool>
        requires image { IsAt here.now.image.now self.old }
        requires row { row.0 < ROWS }
        requires goes { CanAskCell
            (λ e. IsNext here.now.image.now self.old.seat.token.me.0.name self.old.seat.token.me.0.made e)
            (λ n o. looked_in here.now.image.now here.now.cpu (Waiting.Object row) n o look.now) }
        ensures image { IsAt here.now.image.now self.new }
        ensures said { CellAnswers result
            (λ n o. looked_in here.now.image.now here.now.cpu (Waiting.Object row) n o look.now)
            (λ e. HasMadeThere self.old e self.new)
            (λ e. SawShut here.now.image.now self.old.seat self.new.seat e)
            (HasMadeNone self.old self.new)
            (Hinders self.old.log.room self.old.log.items self.old.seat self.new.seat (site_number (Site.object row.0)))
            (λ o e found. found ≡ not (is_void e.act)) }
    {
        let site = OBJECTS_FROM + row.0 as u16;
        let Some((turn, mut cell)) = self.turn::<ObjectRoom>(here.image, site) else {
            return Said::Changed;
        };
        let found = cell.look(look);
        let event = look.event(found);
        self.leave_cell::<Brand, _, _>(here, site, row.0, turn, cell, &event, look);
        Said::Made(found)
    }

    /// Looks for a thread that waits on a futex.
    pub(crate) fn look_at_memory(&mut self, here: &Here, look: &Look) -> Said<bool>
        requires image { IsAt here.now.image.now self.old }
        requires goes { CanAskCell
            (λ e. IsNext here.now.image.now self.old.seat.token.me.0.name self.old.seat.token.me.0.made e)
            (λ n m. looked_in here.now.image.now here.now.cpu Waiting.Memory n m look.now) }
        ensures image { IsAt here.now.image.now self.new }
        ensures said { CellAnswers result
            (λ n m. looked_in here.now.image.now here.now.cpu Waiting.Memory n m look.now)
            (λ e. HasMadeThere self.old e self.new)
            (λ e. SawShut here.now.image.now self.old.seat self.new.seat e)
            (HasMadeNone self.old self.new)
            (Hinders self.old.log.room self.old.log.items self.old.seat self.new.seat (site_number Site.memory))
            (λ m e found. found ≡ not (is_void e.act)) }
    {
        let Some((turn, mut cell)) = self.turn::<Box<Bytes>>(here.image, MEMORY) else {
            return Said::Changed;
        };
        let found = cell.look(look);
        let event = look.event(found);
        self.leave_cell::<Brand, _, _>(here, MEMORY, 0, turn, cell, &event, look);
        Said::Made(found)
    }

    /// Looks for a thread that waits for the end of another one.
    pub(crate) fn look_at_joins(&mut self, here: &Here, look: &Look) -> Said<bool>
        requires image { IsAt here.now.image.now self.old }
        requires goes { CanAskCell
            (λ e. IsNext here.now.image.now self.old.seat.token.me.0.name self.old.seat.token.me.0.made e)
            (λ n j. looked_in here.now.image.now here.now.cpu Waiting.Joins n j look.now) }
        ensures image { IsAt here.now.image.now self.new }
        ensures said { CellAnswers result
            (λ n j. looked_in here.now.image.now here.now.cpu Waiting.Joins n j look.now)
            (λ e. HasMadeThere self.old e self.new)
            (λ e. SawShut here.now.image.now self.old.seat self.new.seat e)
            (HasMadeNone self.old self.new)
            (Hinders self.old.log.room self.old.log.items self.old.seat self.new.seat (site_number Site.joins))
            (λ j e found. found ≡ not (is_void e.act)) }
    {
        let Some((turn, mut cell)) = self.turn::<Box<Joins>>(here.image, JOINS) else {
            return Said::Changed;
        };
        let found = cell.look(look);
        let event = look.event(found);
        self.leave_cell::<Brand, _, _>(here, JOINS, 0, turn, cell, &event, look);
        Said::Made(found)
    }
}
