//! Processors over the sites that they share.

ghost use Rattle.std.specs.Prelude.{◌≡◌, ◌≢◌, ◌<◌, ◌≤◌, ℕ, IfOk, List, [], false, length, map, replicate, true};
ghost use Rattle.um_base.specs.Lawful.{IsLawful};
ghost use Rattle.um_machine.specs.Memory.{rodata_of};
ghost use Rattle.um_fine.specs.{Answers.{is_due_act, is_tick}, Processor.{idle}, Steps.{FineStep}};
ghost use Rattle.um_steps.specs.Given.{IsGiven};
ghost use Rattle.um_processor.specs.{Idles.{is_turn}, Standing.{whole}};
ghost use Rattle.um_core.specs.{
  Cores.{IsOpened},
  CoreSteps.{AllHalt, FirstSteps, GoesOn, Halts, HasMoved, HasPassed, HasTended, HasTurned, IsCoreOf, IsTurnRefused, Steps, is_made, processor_at},
  PickedRun.{NoneIsNext},
};

use std::alloc::Global;
use std::marker::Model;
use um_base::{Image, OutOfMemory};
use um_fine_measure::longest_fine_run;
use um_opening::opening;
use um_processor::{Processor, Turn};
use um_tables::Tables;

/// Processors of the fine machine, and the sites that they share, in tables.
#[derive(Drop)]
pub struct Core {
    sites: Tables,
    processors: Vec<Processor>,
}

impl Model for Core {
    ghost use Rattle.std.specs.Prelude.{map};
    ghost use Rattle.um_core.specs.Cores.{Core as Parts};
    ghost use Rattle.um_processor.specs.Standing.{whole};

    ghost Value = { Parts };

    ghost view = { λ c. record { sites = c.sites; processors = map whole c.processors.items } };
}

/// Makes this many processors, none with a thread.
fn idle_processors(alloc: Global, cpus: u8) -> Result<Vec<Processor>, OutOfMemory>
    ensures { IfOk result (λ all. map whole all.items ≡ replicate cpus idle) }
{
    let mut all = Vec::with_capacity(alloc, cpus as usize)?;
    for _ in 0..cpus {
        all.push(Processor::new(alloc)?)?;
    }
    Ok(all)
}

/// Whether a processor made a step in its turn.
fn is_made(turn: Turn) -> bool
    ensures { result ≡ is_made turn }
{
    match turn {
        Turn::Made => true,
        Turn::Busy | Turn::Changed | Turn::Stuck => false,
    }
}

impl Core {
    /// Makes this many processors at the opening of an image, with room for at least `most` events. All memory is taken here.
    pub fn boot(alloc: Global, image: &Image, cpus: u8, most: usize) -> Result<Core, OutOfMemory>
        requires lawful { IsLawful image.now }
        ensures { IfOk result (λ core. IsOpened image.now cpus most core) }
    {
        Ok(Core {
            sites: opening(alloc, image, most)?,
            processors: idle_processors(alloc, cpus)?,
        })
    }

    /// Whether a processor has no thread.
    fn is_idle(&self, cpu: u8) -> bool
        requires cpu { cpu < length self.now.processors }
        ensures idle { result ≡ true → (processor_at self.now cpu).todo ≡ [] }
        ensures busy { result ≡ false → (processor_at self.now cpu).todo ≢ [] }
    {
        self.processors[cpu as usize].is_idle()
    }

    /// Has a processor take its turn: one without a thread takes one that is ready.
    #[inline(always)]
    fn turn(&mut self, image: &Image, cpu: u8) -> Turn
        requires given { IsGiven image.now }
        requires rodata { self.old.sites.rodata ≡ rodata_of image.now }
        requires cpu { cpu < length self.old.processors }
        ensures rodata { self.new.sites.rodata ≡ rodata_of image.now }
        ensures turn { HasTurned is_turn result image.now cpu self.old self.new }
    {
        let processor = &mut self.processors[cpu as usize];
        processor.step(image, cpu, &mut self.sites)
    }

    /// Has a processor without a thread take the first mark that is due.
    fn give(&mut self, image: &Image, cpu: u8) -> Turn
        requires idle { (processor_at self.old cpu).todo ≡ [] }
        requires rodata { self.old.sites.rodata ≡ rodata_of image.now }
        requires cpu { cpu < length self.old.processors }
        ensures rodata { self.new.sites.rodata ≡ rodata_of image.now }
        ensures turn { HasTurned is_due_act result image.now cpu self.old self.new }
    {
        let processor = &mut self.processors[cpu as usize];
        processor.give(image, cpu, &mut self.sites)
    }

    /// Has a processor without a thread let time go on.
    fn tick(&mut self, image: &Image, cpu: u8) -> Turn
        requires idle { (processor_at self.old cpu).todo ≡ [] }
        requires rodata { self.old.sites.rodata ≡ rodata_of image.now }
        requires cpu { cpu < length self.old.processors }
        ensures rodata { self.new.sites.rodata ≡ rodata_of image.now }
        ensures turn { HasTurned is_tick result image.now cpu self.old self.new }
    {
        let processor = &mut self.processors[cpu as usize];
        processor.tick(image, cpu, &mut self.sites)
    }

    /// Has a processor without a thread let time go on, if no thread runs.
    fn pass(&mut self, image: &Image, cpu: u8) -> bool
        requires idle { (processor_at self.old cpu).todo ≡ [] }
        requires rodata { self.old.sites.rodata ≡ rodata_of image.now }
        requires cpu { cpu < length self.old.processors }
        ensures rodata { self.new.sites.rodata ≡ rodata_of image.now }
        ensures passes { HasPassed result image.now cpu self.old self.new }
    {
        if self.sites.scheduler_cell().running() > 0 {
            return false;
        }
        is_made(self.tick(image, cpu))
    }

    /// Has a processor without a thread, where none is ready, tend to time: it takes the first mark that is due. Where none is due and no
    /// thread runs, it lets time go on.
    fn tend(&mut self, image: &Image, cpu: u8) -> bool
        requires idle { (processor_at self.old cpu).todo ≡ [] }
        requires rodata { self.old.sites.rodata ≡ rodata_of image.now }
        requires cpu { cpu < length self.old.processors }
        ensures rodata { self.new.sites.rodata ≡ rodata_of image.now }
        ensures tends { HasTended result image.now cpu self.old self.new }
    {
        match self.give(image, cpu) {
            Turn::Made => true,
            Turn::Busy => self.pass(image, cpu),
            Turn::Changed | Turn::Stuck => false,
        }
    }

    /// Has a processor that its turn left without a step tend to time, if it has no thread.
    #[inline(never)]
    fn tend_if_idle(&mut self, image: &Image, cpu: u8) -> bool
        requires refused { (e : FineStep) × IsTurnRefused image.now self.old cpu e }
        requires rodata { self.old.sites.rodata ≡ rodata_of image.now }
        requires cpu { cpu < length self.old.processors }
        ensures rodata { self.new.sites.rodata ≡ rodata_of image.now }
        ensures moves { HasMoved result image.now cpu self.old self.new }
    {
        self.is_idle(cpu) && self.tend(image, cpu)
    }

    /// Has a processor make its next step that is chosen, if it has one.
    #[inline(always)]
    fn advance(&mut self, image: &Image, cpu: u8) -> bool
        requires given { IsGiven image.now }
        requires rodata { self.old.sites.rodata ≡ rodata_of image.now }
        requires cpu { cpu < length self.old.processors }
        ensures rodata { self.new.sites.rodata ≡ rodata_of image.now }
        ensures moves { HasMoved result image.now cpu self.old self.new }
    {
        match self.turn(image, cpu) {
            Turn::Made => true,
            Turn::Busy => self.tend_if_idle(image, cpu),
            Turn::Changed | Turn::Stuck => false,
        }
    }

    /// Has a processor make its next step, if it can make one now that is chosen. Returns whether it did. If so, that step continues the fine
    /// run so far; if not, no step of that processor is next. It takes no memory.
    #[inline(always)]
    pub fn step(&mut self, image: &Image, cpu: u8) -> bool
        requires given { IsGiven image.now }
        requires rodata { self.old.sites.rodata ≡ rodata_of image.now }
        requires cpu { cpu < length self.old.processors }
        ensures rodata { self.new.sites.rodata ≡ rodata_of image.now }
        ensures steps { result ≡ true → Steps image.now cpu self.old self.new }
        ensures same { result ≡ false → self.new ≡ self.old }
        ensures halts { result ≡ false → Halts image.now self.old cpu }
        ensures goes { (cpus : ℕ) (done : List FineStep) → IsCoreOf image.now cpus done self.old
            → cpu < cpus → result ≡ true → GoesOn image.now cpus done cpu self.new }
        ensures none { (cpus : ℕ) (done : List FineStep) → IsCoreOf image.now cpus done self.old
            → cpu < cpus → result ≡ false → NoneIsNext image.now cpus done cpu }
    {
        longest_fine_run();
        self.advance(image, cpu)
    }

    /// Has the first processor that can make a step now make it, from this one on, going round. Returns whether one did.
    pub fn next(&mut self, image: &Image, first: u8) -> bool
        requires given { IsGiven image.now }
        requires rodata { self.old.sites.rodata ≡ rodata_of image.now }
        requires few { length self.old.processors ≤ 8 }
        ensures rodata { self.new.sites.rodata ≡ rodata_of image.now }
        ensures steps { result ≡ true → FirstSteps image.now first self.old self.new }
        ensures same { result ≡ false → self.new ≡ self.old }
        ensures halts { result ≡ false → AllHalt image.now first self.old }
    {
        let cpus = self.processors.as_slice().len();
        for n in 0..cpus {
            let cpu = (first as usize + n) % cpus;
            if self.step(image, cpu as u8) {
                return true;
            }
        }
        false
    }

    /// What its steps have left at the sites, with the events that they have shown, in their order.
    pub fn into_sites(self) -> Tables
        ensures { result ≡ self.sites }
    {
        self.sites
    }
}
