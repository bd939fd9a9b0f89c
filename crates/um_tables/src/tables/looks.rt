//! Looks for threads that wait, in tables.

ghost use Rattle.std.specs.Prelude.{◌≡◌, ◌<◌, not};
ghost use Rattle.um_base.specs.declared.limits.TheConstants.{ROWS};
ghost use Rattle.um_machine.specs.Memory.{rodata_of};
ghost use Rattle.um_fine.specs.Answers.{is_void};
ghost use Rattle.um_tables.specs.declared.look.Waiting.TheVariants as Waiting;
ghost use Rattle.um_tables.specs.{Answers.{CellAnswers}, Looks.{looked_in}, Sited.{IsFull, IsShut, WasMade, state_at}};

use crate::here::Here;
use crate::log::{is_full, note};
use crate::look::Look;
use crate::said::Said;
use crate::tables::{LAST, Tables};
use um_base::Row;

impl Tables {
    /// Looks for a thread that waits at the object of a row.
    pub fn look_at_object(&mut self, here: &Here, row: Row, look: &Look) -> Said<bool>
        requires image { self.old.rodata ≡ rodata_of here.now.image.now }
        requires row { row.0 < ROWS }
        ensures image { self.new.rodata ≡ rodata_of here.now.image.now }
        ensures said { CellAnswers result
            (λ n o. looked_in here.now.image.now here.now.cpu (Waiting.Object row) n o look.now)
            (λ e. WasMade here.now.image.now self.old e self.new)
            (λ e. IsShut here.now.image.now (state_at self.old e.site) e)
            (self.new ≡ self.old) (IsFull self.old)
            (λ o e found. found ≡ not (is_void e.act)) }
    {
        if is_full(&self.log) {
            return Said::Changed;
        }
        let cell = self.objects.row_mut(row.0 as usize);
        if cell.steps >= LAST {
            return Said::Busy;
        }
        let found = cell.look(look);
        cell.steps += 1;
        note(&mut self.log, look.event(found));
        Said::Made(found)
    }

    /// Looks for a thread that waits on a futex.
    pub fn look_at_memory(&mut self, here: &Here, look: &Look) -> Said<bool>
        requires image { self.old.rodata ≡ rodata_of here.now.image.now }
        ensures image { self.new.rodata ≡ rodata_of here.now.image.now }
        ensures said { CellAnswers result
            (λ n m. looked_in here.now.image.now here.now.cpu Waiting.Memory n m look.now)
            (λ e. WasMade here.now.image.now self.old e self.new)
            (λ e. IsShut here.now.image.now (state_at self.old e.site) e)
            (self.new ≡ self.old) (IsFull self.old)
            (λ m e found. found ≡ not (is_void e.act)) }
    {
        if is_full(&self.log) {
            return Said::Changed;
        }
        if self.memory_steps >= LAST {
            return Said::Busy;
        }
        let found = self.memory.look(look);
        self.memory_steps += 1;
        note(&mut self.log, look.event(found));
        Said::Made(found)
    }

    /// Looks for a thread that waits for the end of another one.
    pub fn look_at_joins(&mut self, here: &Here, look: &Look) -> Said<bool>
        requires image { self.old.rodata ≡ rodata_of here.now.image.now }
        ensures image { self.new.rodata ≡ rodata_of here.now.image.now }
        ensures said { CellAnswers result
            (λ n j. looked_in here.now.image.now here.now.cpu Waiting.Joins n j look.now)
            (λ e. WasMade here.now.image.now self.old e self.new)
            (λ e. IsShut here.now.image.now (state_at self.old e.site) e)
            (self.new ≡ self.old) (IsFull self.old)
            (λ j e found. found ≡ not (is_void e.act)) }
    {
        if is_full(&self.log) {
            return Said::Changed;
        }
        if self.joins_steps >= LAST {
            return Said::Busy;
        }
        let found = self.joins.look(look);
        self.joins_steps += 1;
        note(&mut self.log, look.event(found));
        Said::Made(found)
    }
}
