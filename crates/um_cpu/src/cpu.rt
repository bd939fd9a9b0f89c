//! A processor at its place at a board.

ghost use Rattle.std.specs.Prelude.{◌≡◌, [], true, false};
ghost use Rattle.um_words.specs.Packed.{cell_of};
ghost use Rattle.um_processor.specs.Standing.{whole};
ghost use Rattle.um_board.specs.{Placed.{IsAt}, Saw.{SawAt}, Seated.{KeepsPlace}};
ghost use Rattle.um_cpu.specs.{Cpus.{Tells}, Playing.{AskedOnce, CanPlay, GoesOnTo, IsPlaying, Rested, Tended, Waited, Worked}};

use crate::turn::Turn;
use um_base::Image;
use um_board::Seated;
use um_fine_measure::longest_fine_run;
use um_measure::every_deadline;
use um_processor::{Processor, Turn as Asked};
use um_refinement::every_fine_run;
use um_words::CellWord;

/// A processor by its number, at its place at a board.
#[derive(Drop)]
pub struct Cpu<'a> {
    pub number: u8,
    pub processor: Processor,
    pub place: Seated<'a>,
}

impl<'a> Cpu<'a> {
    /// Asks once for its next step, and makes it if it can. There is always a step to ask for: if there were none, a look at the board
    /// would give a fine run that leaves the processor stuck, and there is no such run.
    fn ask(&mut self, image: &Image)
        requires { CanPlay image.now self.old }
        ensures number { self.new.number ≡ self.old.number }
        ensures place { IsAt image.now self.new.place }
        ensures keeps { KeepsPlace self.old.place.seat self.new.place.seat }
        ensures goes { GoesOnTo image.now self.old self.new }
        ensures asked { AskedOnce image.now self.old self.new }
        ensures stands { IsPlaying image.now self.new }
    {
        every_fine_run();
        longest_fine_run();
        every_deadline();
        match self.processor.step(image, self.number, &mut self.place) {
            Asked::Made | Asked::Busy | Asked::Changed => {}
            Asked::Stuck => {
                self.place.look_scheduler(image);
                unreachable!()
            }
        }
    }

    /// Tends to time, where it has no thread, and by this word of the scheduler, at which its seat has just looked, none is ready: takes a mark that
    /// is due. Where none is, and by the word no thread runs, it lets time go on. Returns whether it waits: then no mark was due, and a thread ran
    /// or no deadline was to come.
    fn tend(&mut self, image: &Image, word: u64) -> bool
        requires can { CanPlay image.now self.old }
        requires empty { (whole self.old.processor).todo ≡ [] }
        requires saw { SawAt self.old.place.seat 306 word }
        requires none { (cell_of word).ready ≡ 0 }
        ensures number { self.new.number ≡ self.old.number }
        ensures place { IsAt image.now self.new.place }
        ensures keeps { KeepsPlace self.old.place.seat self.new.place.seat }
        ensures goes { GoesOnTo image.now self.old self.new }
        ensures tended { result ≡ false → Tended image.now self.old self.new }
        ensures waited { result ≡ true → Waited image.now self.old self.new word }
        ensures stands { IsPlaying image.now self.new }
    {
        every_fine_run();
        longest_fine_run();
        every_deadline();
        match self.processor.give(image, self.number, &mut self.place) {
            Asked::Busy => {}
            Asked::Made | Asked::Changed | Asked::Stuck => return false,
        }
        if CellWord::read(word).running > 0 {
            return true;
        }
        match self.processor.tick(image, self.number, &mut self.place) {
            Asked::Busy => true,
            Asked::Made | Asked::Changed | Asked::Stuck => false,
        }
    }

    /// Makes at most one step, the next one, for which it asks once. If the step wasn't made, another seat had the turn of its site, or
    /// another word had come to stand there, or the site refused the step and the processor waits; the seat has read the word that shows
    /// this. A processor without a thread looks first whether one is ready. If none is, and marks are owed, it tends to time; else it asks for
    /// nothing.
    pub fn step(&mut self, image: &Image) -> Turn
        requires { CanPlay image.now self.old }
        ensures number { self.new.number ≡ self.old.number }
        ensures place { IsAt image.now self.new.place }
        ensures keeps { KeepsPlace self.old.place.seat self.new.place.seat }
        ensures goes { GoesOnTo image.now self.old self.new }
        ensures stands { IsPlaying image.now self.new }
        ensures told { Tells result (Worked image.now self.old self.new)
            (Rested image.now self.old self.new) }
    {
        every_fine_run();
        longest_fine_run();
        every_deadline();
        if !self.processor.is_idle() {
            self.ask(image);
            return Turn::Did;
        }
        let word = self.place.look_scheduler(image);
        let says = CellWord::read(word);
        if says.ready > 0 {
            self.ask(image);
            return Turn::Did;
        }
        if says.owed > 0 {
            if self.tend(image, word) {
                return Turn::Idle { word };
            }
            return Turn::Did;
        }
        if says.running > 0 {
            return Turn::Idle { word };
        }
        Turn::Quiet { word }
    }
}
