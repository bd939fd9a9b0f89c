//! How a processor reaches the sites that it shares.

ghost use Rattle.std.specs.Prelude.{◌≡◌, ◌<◌, ℕ, IsTrue, Option, not, true};
ghost use Rattle.um_base.specs.{declared.limits.TheConstants.{DOMAINS, ROWS, THREADS}, Regions.{Partitions}};
ghost use Rattle.um_machine.specs.{Domains.{reply_to}, Limits.{is_sound_ask}};
ghost use Rattle.um_words.specs.declared.{
  row_word.RowWord.{RowWord},
  thread_word.ThreadWord.{ThreadWord},
  dom_word.DomWord.{DomWord},
};
ghost use Rattle.um_fine.specs.{
  Answers.{act_in, answer_in, deadline_in, domain_in, is_shut_act, is_void, thread_in, woken_in},
  Clock.{Clock},
  Follows.{told_all},
  Heap.{Heap},
  Joins.{Joins},
  Memory.{Bytes},
  Objects.{ObjectCell},
  Processor.{edit_of},
  Scheduler.{Scheduler},
  Sites.{is_site},
  Steps.{Exchange, Site},
};
ghost use Rattle.um_tables.specs.{
  ClockActs.{armed_made, given_made, settled_made, ticked_made},
  DomainActs.{domain_made},
  DomainCells.{edited_made, loaded_made},
  FutexActs.{futex_made, waited_made},
  HeapActs.{heap_made, heap_said},
  JoinActs.{RousedIs, joined_made, left_made, roused_made, slept_made, unshut_made},
  Looks.{looked_in, site_in},
  MemoryActs.{Tells, has_room, memory_made},
  ObjectCells.{cleared_made, expired_made, looked_made, named_made, outcome_by, worked_made},
  RowActs.{row_made, row_said},
  Parked.{some_if},
  SchedulerActs.{added_made, cut_made, done_made, owed_made, paid_made, parked_made, taken_made, woken_made},
  Answers.{Answers, CanAsk, CanAskCell, CellAnswers, CellKeeps, CellTakes, CellWrites},
  Sited.{IfMade},
  ThreadActs.{thread_made},
};

use crate::context::Context;
use crate::futex_act::{FutexWait, FutexWake};
use crate::heap_act::{HeapAct, HeapSaid};
use crate::here::Here;
use crate::look::{Look, Waiting};
use crate::memory_act::{MemoryAct, MemorySaid};
use crate::said::Said;
use crate::seeker::Seeker;
use um_base::{Addr, Answer, Image, Parts, Piece, Reply, Row, ThreadIx, Timeout, Told, Waiter};
use um_machine::{Cost, Pending};
use um_service::{Outcome, Woken};
use um_words::{DomWord, DomainAct, Mark, RowAct, RowSaid, ThreadAct, ThreadWord};

/// The sites that a processor shares with others, wherever they are kept. Each call asks for one step by the processor with this number.
/// The caller doesn't learn the site's state; its contract says that in some state of the site's sort the step was made or is refused.
pub trait Sites {
    ghost use Rattle.um_base.specs.declared.image.Image.{Image};
    ghost use Rattle.um_fine.specs.Steps.{FineStep, Site};

    /// The sites are those of this image.
    ghost IsOf: { Image → Self → Type 0 };

    /// This step was made, and no other.
    ghost Took: { Image → Self → FineStep → Self → Type 0 };

    /// No step was made.
    ghost Kept: { Self → Self → Type 0 };

    /// The processor may make this step next, as far as the sites keep track of that.
    ghost May: { Image → Self → FineStep → Type 0 };

    /// This step can't be made now: its site was seen in a state that refuses it.
    ghost Shut: { Image → Self → FineStep → Self → Type 0 };

    /// No step was made at this site, since others are at it or nothing more can be noted.
    ghost Contended: { Image → Self → Site → Self → Type 0 };

    /// Makes a step at the word of a row. Returns what the word says.
    fn row(&mut self, here: &Here, row: Row, act: &RowAct) -> Said<RowSaid>
        requires image { IsOf here.now.image.now self.old }
        requires row { row.0 < ROWS }
        requires goes { CanAsk (May here.now.image.now self.old)
            (λ w. row_made here.now.image.now here.now.cpu row.0 w act.now) }
        ensures image { IsOf here.now.image.now self.new }
        ensures said { Answers result (λ w. row_made here.now.image.now here.now.cpu row.0 w act.now)
            (λ e. Took here.now.image.now self.old e self.new)
            (λ e. Shut here.now.image.now self.old e self.new)
            (Kept self.old self.new) (Contended here.now.image.now self.old (Site.row row.0) self.new)
            (λ e said. said ≡ row_said e) };

    /// Makes a step at the word of a thread index. Returns the word that it leaves.
    fn thread(&mut self, here: &Here, thread: ThreadIx, act: &ThreadAct) -> Said<ThreadWord>
        requires image { IsOf here.now.image.now self.old }
        requires thread { thread.0 < THREADS }
        requires goes { CanAsk (May here.now.image.now self.old)
            (λ w. thread_made here.now.image.now here.now.cpu thread.0 w act.now) }
        ensures image { IsOf here.now.image.now self.new }
        ensures domain { IfMade result (λ word. word.domain < DOMAINS) }
        ensures said { Answers result (λ w. thread_made here.now.image.now here.now.cpu thread.0 w act.now)
            (λ e. Took here.now.image.now self.old e self.new)
            (λ e. Shut here.now.image.now self.old e self.new)
            (Kept self.old self.new) (Contended here.now.image.now self.old (Site.thread thread.0) self.new)
            (λ e word. word ≡ thread_in e.word) };

    /// Makes a step at the word of a domain. Returns the word that it leaves.
    fn domain(&mut self, here: &Here, domain: u8, act: &DomainAct) -> Said<DomWord>
        requires image { IsOf here.now.image.now self.old }
        requires domain { domain < DOMAINS }
        requires goes { CanAsk (May here.now.image.now self.old)
            (λ w. domain_made here.now.image.now here.now.cpu domain w act.now) }
        ensures image { IsOf here.now.image.now self.new }
        ensures said { Answers result (λ w. domain_made here.now.image.now here.now.cpu domain w act.now)
            (λ e. Took here.now.image.now self.old e self.new)
            (λ e. Shut here.now.image.now self.old e self.new)
            (Kept self.old self.new) (Contended here.now.image.now self.old (Site.domain domain) self.new)
            (λ e word. word ≡ domain_in e.word) };

    /// Reads the partitions of a domain for a region table: none if the domain isn't initialised.
    fn load_parts(&mut self, here: &Here, domain: u8, parts: &mut Parts) -> Said<()>
        requires image { IsOf here.now.image.now self.old }
        requires domain { domain < DOMAINS }
        requires goes { CanAskCell (May here.now.image.now self.old)
            (λ n before. loaded_made here.now.image.now here.now.cpu domain n before) }
        ensures image { IsOf here.now.image.now self.new }
        ensures said { CellWrites result
            (λ n before. loaded_made here.now.image.now here.now.cpu domain n before)
            (λ e. Took here.now.image.now self.old e self.new)
            (λ e. Shut here.now.image.now self.old e self.new)
            (Kept self.old self.new) (Contended here.now.image.now self.old (Site.parts domain) self.new)
            (λ e said. e.moved ≡ Exchange.parts parts.new)
            (parts.new ≡ parts.old) };

    /// Changes the partitions of a domain as a call of this thread asks. Returns the call's reply.
    fn edit(&mut self, here: &Here, domain: u8, call: &Pending) -> Said<Reply>
        requires image { IsOf here.now.image.now self.old }
        requires domain { domain < DOMAINS }
        requires goes { CanAskCell (May here.now.image.now self.old)
            (λ n before. edited_made here.now.image.now here.now.cpu domain n before call.now) }
        ensures image { IsOf here.now.image.now self.new }
        ensures said { CellAnswers result
            (λ n before. edited_made here.now.image.now here.now.cpu domain n before call.now)
            (λ e. Took here.now.image.now self.old e self.new)
            (λ e. Shut here.now.image.now self.old e self.new)
            (Kept self.old self.new) (Contended here.now.image.now self.old (Site.parts domain) self.new)
            (λ before e reply. reply ≡ reply_to (edit_of here.now.image.now call.now before)) };

    /// Does a call's work on the object of a row, at this address, for a thread with a note of this number. Writes the outcome.
    fn work(
        &mut self,
        here: &Here,
        row: Row,
        addr: Addr,
        who: &Waiter,
        noted: u32,
        outcome: &mut Outcome,
    ) -> Said<()>
        requires image { IsOf here.now.image.now self.old }
        requires row { row.0 < ROWS }
        requires thread { who.now.thread.0 < THREADS }
        requires sound { IsTrue (is_sound_ask who.now.ask) }
        requires goes { CanAskCell (May here.now.image.now self.old)
            (λ n o. worked_made here.now.image.now here.now.cpu row.0 n o addr who.now noted) }
        ensures image { IsOf here.now.image.now self.new }
        ensures said { CellWrites result
            (λ n o. worked_made here.now.image.now here.now.cpu row.0 n o addr who.now noted)
            (λ e. Took here.now.image.now self.old e self.new)
            (λ e. Shut here.now.image.now self.old e self.new)
            (Kept self.old self.new) (Contended here.now.image.now self.old (Site.object row.0) self.new)
            (λ e said. e.moved ≡ Exchange.asked who.now noted (outcome_by outcome.new))
            (outcome.new ≡ outcome.old) };

    /// Gives the thread object of a row this name, on behalf of a thread.
    fn name(
        &mut self,
        here: &Here,
        row: Row,
        thread: ThreadIx,
        who: ThreadIx,
        bytes: &Piece,
    ) -> Said<()>
        requires image { IsOf here.now.image.now self.old }
        requires row { row.0 < ROWS }
        requires goes { CanAskCell (May here.now.image.now self.old)
            (λ n o. named_made here.now.image.now here.now.cpu row.0 n o thread who bytes.now) }
        ensures image { IsOf here.now.image.now self.new }
        ensures said { CellTakes result
            (λ n o. named_made here.now.image.now here.now.cpu row.0 n o thread who bytes.now)
            (λ e. Took here.now.image.now self.old e self.new)
            (λ e. Shut here.now.image.now self.old e self.new)
            (Kept self.old self.new) (Contended here.now.image.now self.old (Site.object row.0) self.new) };

    /// Looks at the message size of the object of a row: 0 if it is no queue.
    fn message_size(&mut self, here: &Here, row: Row) -> Said<u32>
        requires image { IsOf here.now.image.now self.old }
        requires row { row.0 < ROWS }
        requires goes { CanAskCell (May here.now.image.now self.old)
            (λ n o. looked_made here.now.image.now here.now.cpu row.0 n o) }
        ensures image { IsOf here.now.image.now self.new }
        ensures said { CellAnswers result (λ n o. looked_made here.now.image.now here.now.cpu row.0 n o)
            (λ e. Took here.now.image.now self.old e self.new)
            (λ e. Shut here.now.image.now self.old e self.new)
            (Kept self.old self.new) (Contended here.now.image.now self.old (Site.object row.0) self.new)
            (λ o e size. e.moved ≡ Exchange.size size) };

    /// Clears what the object of a row keeps. Returns what its buffer cost.
    fn clear(&mut self, here: &Here, row: Row) -> Said<Option<Cost>>
        requires image { IsOf here.now.image.now self.old }
        requires row { row.0 < ROWS }
        requires goes { CanAskCell (May here.now.image.now self.old)
            (λ n o. cleared_made here.now.image.now here.now.cpu row.0 n o) }
        ensures image { IsOf here.now.image.now self.new }
        ensures said { CellAnswers result (λ n o. cleared_made here.now.image.now here.now.cpu row.0 n o)
            (λ e. Took here.now.image.now self.old e self.new)
            (λ e. Shut here.now.image.now self.old e self.new)
            (Kept self.old self.new) (Contended here.now.image.now self.old (Site.object row.0) self.new)
            (λ o e cost. e.moved ≡ Exchange.charge cost) };

    /// Makes a step at the memory's cell. Returns what the cell says. A copy reads or writes the buffer.
    fn memory(&mut self, here: &Here, act: &MemoryAct, buffer: &mut Piece) -> Said<MemorySaid>
        requires image { IsOf here.now.image.now self.old }
        requires few { IsTrue (has_room act.now) }
        requires goes { CanAskCell (May here.now.image.now self.old)
            (λ n m. memory_made here.now.image.now here.now.cpu n m act.now buffer.old) }
        ensures image { IsOf here.now.image.now self.new }
        ensures said { CellWrites result
            (λ n m. memory_made here.now.image.now here.now.cpu n m act.now buffer.old)
            (λ e. Took here.now.image.now self.old e self.new)
            (λ e. Shut here.now.image.now self.old e self.new)
            (Kept self.old self.new) (Contended here.now.image.now self.old Site.memory self.new)
            (λ e said. Tells e said buffer.old buffer.new)
            (buffer.new ≡ buffer.old) };

    /// Makes a step at the heap's cell, in which a pool pays this or gets it back. Returns what the cell says.
    fn heap(&mut self, here: &Here, act: &HeapAct, charge: Option<Cost>) -> Said<HeapSaid>
        requires image { IsOf here.now.image.now self.old }
        requires goes { CanAskCell (May here.now.image.now self.old)
            (λ n h. heap_made here.now.image.now here.now.cpu n h act.now charge) }
        ensures image { IsOf here.now.image.now self.new }
        ensures said { CellAnswers result
            (λ n h. heap_made here.now.image.now here.now.cpu n h act.now charge)
            (λ e. Took here.now.image.now self.old e self.new)
            (λ e. Shut here.now.image.now self.old e self.new)
            (Kept self.old self.new) (Contended here.now.image.now self.old Site.heap self.new)
            (λ h e said. said ≡ heap_said e.act) };

    /// Takes the first ready thread, and leaves the given room in its stead. Returns whether it was woken, and writes what it was told.
    fn take(&mut self, here: &Here, context: &mut Box<Context>, told: &mut Told) -> Said<bool>
        requires image { IsOf here.now.image.now self.old }
        requires goes { CanAskCell (May here.now.image.now self.old)
            (λ n s. taken_made here.now.image.now here.now.cpu n s) }
        ensures image { IsOf here.now.image.now self.new }
        ensures said { CellWrites result (λ n s. taken_made here.now.image.now here.now.cpu n s)
            (λ e. Took here.now.image.now self.old e self.new)
            (λ e. Shut here.now.image.now self.old e self.new)
            (Kept self.old self.new) (Contended here.now.image.now self.old Site.scheduler self.new)
            (λ e woken. e.moved ≡ Exchange.thread context.new.value (some_if woken told.new))
            ((context.new ≡ context.old) × (told.new ≡ told.old)) };

    /// Tells a thread what woke it.
    fn wake(&mut self, here: &Here, who: ThreadIx, told: &Told) -> Said<()>
        requires image { IsOf here.now.image.now self.old }
        requires thread { who.0 < THREADS }
        requires goes { CanAskCell (May here.now.image.now self.old)
            (λ n s. woken_made here.now.image.now here.now.cpu n s who told.now) }
        ensures image { IsOf here.now.image.now self.new }
        ensures said { CellTakes result (λ n s. woken_made here.now.image.now here.now.cpu n s who told.now)
            (λ e. Took here.now.image.now self.old e self.new)
            (λ e. Shut here.now.image.now self.old e self.new)
            (Kept self.old self.new) (Contended here.now.image.now self.old Site.scheduler self.new) };

    /// Makes a new thread ready, and gives back the room that was there. No contract says what is in that room.
    fn add(&mut self, here: &Here, context: &mut Box<Context>) -> Said<()>
        requires image { IsOf here.now.image.now self.old }
        requires goes { CanAskCell (May here.now.image.now self.old)
            (λ n s. added_made here.now.image.now here.now.cpu n s context.old.value) }
        ensures image { IsOf here.now.image.now self.new }
        ensures said { CellKeeps result
            (λ n s. added_made here.now.image.now here.now.cpu n s context.old.value)
            (λ e. Took here.now.image.now self.old e self.new)
            (λ e. Shut here.now.image.now self.old e self.new)
            (Kept self.old self.new) (Contended here.now.image.now self.old Site.scheduler self.new)
            (context.new ≡ context.old) };

    /// Puts a thread back, and gives back the room that was there. No contract says what is in that room.
    fn park(&mut self, here: &Here, context: &mut Box<Context>) -> Said<()>
        requires image { IsOf here.now.image.now self.old }
        requires goes { CanAskCell (May here.now.image.now self.old)
            (λ n s. parked_made here.now.image.now here.now.cpu n s context.old.value) }
        ensures image { IsOf here.now.image.now self.new }
        ensures said { CellKeeps result
            (λ n s. parked_made here.now.image.now here.now.cpu n s context.old.value)
            (λ e. Took here.now.image.now self.old e self.new)
            (λ e. Shut here.now.image.now self.old e self.new)
            (Kept self.old self.new) (Contended here.now.image.now self.old Site.scheduler self.new)
            (context.new ≡ context.old) };

    /// Has a thread stop running that isn't put back.
    fn done(&mut self, here: &Here) -> Said<()>
        requires image { IsOf here.now.image.now self.old }
        requires goes { CanAskCell (May here.now.image.now self.old)
            (λ n s. done_made here.now.image.now here.now.cpu n s) }
        ensures image { IsOf here.now.image.now self.new }
        ensures said { CellTakes result (λ n s. done_made here.now.image.now here.now.cpu n s)
            (λ e. Took here.now.image.now self.old e self.new)
            (λ e. Shut here.now.image.now self.old e self.new)
            (Kept self.old self.new) (Contended here.now.image.now self.old Site.scheduler self.new) };

    /// Keeps that a thread was cut: it is to be killed when it is taken.
    fn cut(&mut self, here: &Here, who: ThreadIx) -> Said<()>
        requires image { IsOf here.now.image.now self.old }
        requires thread { who.0 < THREADS }
        requires goes { CanAskCell (May here.now.image.now self.old)
            (λ n s. cut_made here.now.image.now here.now.cpu n s who) }
        ensures image { IsOf here.now.image.now self.new }
        ensures said { CellTakes result
            (λ n s. cut_made here.now.image.now here.now.cpu n s who)
            (λ e. Took here.now.image.now self.old e self.new)
            (λ e. Shut here.now.image.now self.old e self.new)
            (Kept self.old self.new) (Contended here.now.image.now self.old (Site.scheduler) self.new) };

    /// One mark more is owed.
    fn owe(&mut self, here: &Here) -> Said<()>
        requires image { IsOf here.now.image.now self.old }
        requires goes { CanAskCell (May here.now.image.now self.old)
            (λ n s. owed_made here.now.image.now here.now.cpu n s) }
        ensures image { IsOf here.now.image.now self.new }
        ensures said { CellTakes result
            (λ n s. owed_made here.now.image.now here.now.cpu n s)
            (λ e. Took here.now.image.now self.old e self.new)
            (λ e. Shut here.now.image.now self.old e self.new)
            (Kept self.old self.new) (Contended here.now.image.now self.old (Site.scheduler) self.new) };

    /// One mark less is owed.
    fn pay(&mut self, here: &Here) -> Said<()>
        requires image { IsOf here.now.image.now self.old }
        requires goes { CanAskCell (May here.now.image.now self.old)
            (λ n s. paid_made here.now.image.now here.now.cpu n s) }
        ensures image { IsOf here.now.image.now self.new }
        ensures said { CellTakes result
            (λ n s. paid_made here.now.image.now here.now.cpu n s)
            (λ e. Took here.now.image.now self.old e self.new)
            (λ e. Shut here.now.image.now self.old e self.new)
            (Kept self.old self.new) (Contended here.now.image.now self.old (Site.scheduler) self.new) };

    /// Looks for a thread that waits in a cell, and takes it out. Returns whether it waits there.
    fn look(&mut self, here: &Here, cell: Waiting, look: &Look) -> Said<bool>
        requires image { IsOf here.now.image.now self.old }
        requires site { is_site (site_in cell) ≡ true }
        requires goes { CanAskCell (May here.now.image.now self.old)
            (λ n kept. looked_in here.now.image.now here.now.cpu cell n kept look.now) }
        ensures image { IsOf here.now.image.now self.new }
        ensures said { CellAnswers result
            (λ n kept. looked_in here.now.image.now here.now.cpu cell n kept look.now)
            (λ e. Took here.now.image.now self.old e self.new)
            (λ e. Shut here.now.image.now self.old e self.new)
            (Kept self.old self.new) (Contended here.now.image.now self.old (site_in cell) self.new)
            (λ kept e found. found ≡ not (is_void e.act)) };

    /// Lets the timer of a row, at this address, run out by a mark with this deadline, on behalf of a thread. Returns whether it does, and writes
    /// who is woken.
    fn expire(
        &mut self,
        here: &Here,
        row: Row,
        thread: ThreadIx,
        addr: Addr,
        deadline: u64,
        woken: &mut Woken,
    ) -> Said<bool>
        requires image { IsOf here.now.image.now self.old }
        requires row { row.0 < ROWS }
        requires goes { CanAskCell (May here.now.image.now self.old)
            (λ n o. expired_made here.now.image.now here.now.cpu row.0 n o thread addr deadline) }
        ensures image { IsOf here.now.image.now self.new }
        ensures said { CellWrites result
            (λ n o. expired_made here.now.image.now here.now.cpu row.0 n o thread addr deadline)
            (λ e. Took here.now.image.now self.old e self.new)
            (λ e. Shut here.now.image.now self.old e self.new)
            (Kept self.old self.new) (Contended here.now.image.now self.old (Site.object row.0) self.new)
            (λ e found. (found ≡ not (is_void e.act)) × (woken.new ≡ told_all (woken_in (act_in e.act))))
            (woken.new ≡ woken.old) };

    /// Waits on a futex. Returns the answer.
    fn futex_wait(&mut self, here: &Here, act: &FutexWait) -> Said<Answer>
        requires image { IsOf here.now.image.now self.old }
        requires thread { act.now.seeker.thread.0 < THREADS }
        requires goes { CanAskCell (May here.now.image.now self.old)
            (λ n m. waited_made here.now.image.now here.now.cpu n m act.now) }
        ensures image { IsOf here.now.image.now self.new }
        ensures said { CellAnswers result
            (λ n m. waited_made here.now.image.now here.now.cpu n m act.now)
            (λ e. Took here.now.image.now self.old e self.new)
            (λ e. Shut here.now.image.now self.old e self.new)
            (Kept self.old self.new) (Contended here.now.image.now self.old (Site.memory) self.new)
            (λ m e answer. answer ≡ answer_in (act_in e.act)) };

    /// Wakes those who wait on a futex. Returns the answer, and writes who is woken.
    fn futex_wake(&mut self, here: &Here, act: &FutexWake, woken: &mut Woken) -> Said<Answer>
        requires image { IsOf here.now.image.now self.old }
        requires goes { CanAskCell (May here.now.image.now self.old)
            (λ n m. futex_made here.now.image.now here.now.cpu n m act.now) }
        ensures image { IsOf here.now.image.now self.new }
        ensures said { CellWrites result
            (λ n m. futex_made here.now.image.now here.now.cpu n m act.now)
            (λ e. Took here.now.image.now self.old e self.new)
            (λ e. Shut here.now.image.now self.old e self.new)
            (Kept self.old self.new) (Contended here.now.image.now self.old (Site.memory) self.new)
            (λ e answer. (answer ≡ answer_in (act_in e.act)) × (woken.new ≡ told_all (woken_in (act_in e.act))))
            (woken.new ≡ woken.old) };

    /// Arms a deadline so many ticks from now, for a mark. Returns the deadline.
    fn arm(&mut self, here: &Here, thread: ThreadIx, ticks: u32, mark: Mark) -> Said<u64>
        requires image { IsOf here.now.image.now self.old }
        requires goes { CanAskCell (May here.now.image.now self.old)
            (λ n c. armed_made here.now.image.now here.now.cpu n c thread ticks mark) }
        ensures image { IsOf here.now.image.now self.new }
        ensures said { CellAnswers result
            (λ n c. armed_made here.now.image.now here.now.cpu n c thread ticks mark)
            (λ e. Took here.now.image.now self.old e self.new)
            (λ e. Shut here.now.image.now self.old e self.new)
            (Kept self.old self.new) (Contended here.now.image.now self.old (Site.clock) self.new)
            (λ c e deadline. deadline ≡ deadline_in (act_in e.act)) };

    /// Settles the mark with this deadline.
    fn settle(&mut self, here: &Here, deadline: u64, mark: Mark) -> Said<()>
        requires image { IsOf here.now.image.now self.old }
        requires goes { CanAskCell (May here.now.image.now self.old)
            (λ n c. settled_made here.now.image.now here.now.cpu n c deadline mark) }
        ensures image { IsOf here.now.image.now self.new }
        ensures said { CellTakes result
            (λ n c. settled_made here.now.image.now here.now.cpu n c deadline mark)
            (λ e. Took here.now.image.now self.old e self.new)
            (λ e. Shut here.now.image.now self.old e self.new)
            (Kept self.old self.new) (Contended here.now.image.now self.old (Site.clock) self.new) };

    /// Gives the first mark that is due. Returns its deadline and what it is for.
    fn give(&mut self, here: &Here) -> Said<(u64, Mark)>
        requires image { IsOf here.now.image.now self.old }
        requires goes { CanAskCell (May here.now.image.now self.old)
            (λ n c. given_made here.now.image.now here.now.cpu n c) }
        ensures image { IsOf here.now.image.now self.new }
        ensures said { CellAnswers result
            (λ n c. given_made here.now.image.now here.now.cpu n c)
            (λ e. Took here.now.image.now self.old e self.new)
            (λ e. Shut here.now.image.now self.old e self.new)
            (Kept self.old self.new) (Contended here.now.image.now self.old (Site.clock) self.new)
            (λ c e given. e.moved ≡ Exchange.mark given.0 given.1) };

    /// Lets time go on to the next deadline, on behalf of a thread.
    fn tick(&mut self, here: &Here, thread: ThreadIx) -> Said<()>
        requires image { IsOf here.now.image.now self.old }
        requires goes { CanAskCell (May here.now.image.now self.old)
            (λ n c. ticked_made here.now.image.now here.now.cpu n c thread) }
        ensures image { IsOf here.now.image.now self.new }
        ensures said { CellTakes result
            (λ n c. ticked_made here.now.image.now here.now.cpu n c thread)
            (λ e. Took here.now.image.now self.old e self.new)
            (λ e. Shut here.now.image.now self.old e self.new)
            (Kept self.old self.new) (Contended here.now.image.now self.old (Site.clock) self.new) };

    /// Asks for the end of a thread. Returns the answer.
    fn join(
        &mut self,
        here: &Here,
        seeker: &Seeker,
        who: ThreadIx,
        timeout: Timeout,
    ) -> Said<Answer>
        requires image { IsOf here.now.image.now self.old }
        requires thread { seeker.now.thread.0 < THREADS }
        requires goes { CanAskCell (May here.now.image.now self.old)
            (λ n j. joined_made here.now.image.now here.now.cpu n j seeker.now who timeout) }
        ensures image { IsOf here.now.image.now self.new }
        ensures said { CellAnswers result
            (λ n j. joined_made here.now.image.now here.now.cpu n j seeker.now who timeout)
            (λ e. Took here.now.image.now self.old e self.new)
            (λ e. Shut here.now.image.now self.old e self.new)
            (Kept self.old self.new) (Contended here.now.image.now self.old (Site.joins) self.new)
            (λ j e answer. answer ≡ answer_in (act_in e.act)) };

    /// The end of a thread comes, and nobody joins it any more. Returns whether somebody waited for it, and writes who is woken.
    fn leave(&mut self, here: &Here, who: ThreadIx, woken: &mut Woken) -> Said<bool>
        requires image { IsOf here.now.image.now self.old }
        requires goes { CanAskCell (May here.now.image.now self.old)
            (λ n j. left_made here.now.image.now here.now.cpu n j who) }
        ensures image { IsOf here.now.image.now self.new }
        ensures said { CellWrites result
            (λ n j. left_made here.now.image.now here.now.cpu n j who)
            (λ e. Took here.now.image.now self.old e self.new)
            (λ e. Shut here.now.image.now self.old e self.new)
            (Kept self.old self.new) (Contended here.now.image.now self.old (Site.joins) self.new)
            (λ e joined. (joined ≡ not (is_shut_act e.act)) × (woken.new ≡ told_all (woken_in (act_in e.act))))
            (woken.new ≡ woken.old) };

    /// A thread that is started next may be joined.
    fn unshut(&mut self, here: &Here, who: ThreadIx) -> Said<()>
        requires image { IsOf here.now.image.now self.old }
        requires goes { CanAskCell (May here.now.image.now self.old)
            (λ n j. unshut_made here.now.image.now here.now.cpu n j who) }
        ensures image { IsOf here.now.image.now self.new }
        ensures said { CellTakes result
            (λ n j. unshut_made here.now.image.now here.now.cpu n j who)
            (λ e. Took here.now.image.now self.old e self.new)
            (λ e. Shut here.now.image.now self.old e self.new)
            (Kept self.old self.new) (Contended here.now.image.now self.old (Site.joins) self.new) };

    /// A suspended thread goes to sleep. Gives back the room that was there. No contract says what is in that room.
    fn sleep(&mut self, here: &Here, context: &mut Box<Context>) -> Said<()>
        requires image { IsOf here.now.image.now self.old }
        requires goes { CanAskCell (May here.now.image.now self.old)
            (λ n j. slept_made here.now.image.now here.now.cpu n j context.old.value) }
        ensures image { IsOf here.now.image.now self.new }
        ensures said { CellKeeps result
            (λ n j. slept_made here.now.image.now here.now.cpu n j context.old.value)
            (λ e. Took here.now.image.now self.old e self.new)
            (λ e. Shut here.now.image.now self.old e self.new)
            (Kept self.old self.new) (Contended here.now.image.now self.old (Site.joins) self.new)
            (context.new ≡ context.old) };

    /// Takes a thread that sleeps, and leaves the given room in its stead. Returns whether it sleeps.
    fn rouse(&mut self, here: &Here, who: ThreadIx, context: &mut Box<Context>) -> Said<bool>
        requires image { IsOf here.now.image.now self.old }
        requires thread { who.0 < THREADS }
        requires goes { CanAskCell (May here.now.image.now self.old)
            (λ n j. roused_made here.now.image.now here.now.cpu n j who) }
        ensures image { IsOf here.now.image.now self.new }
        ensures said { CellWrites result
            (λ n j. roused_made here.now.image.now here.now.cpu n j who)
            (λ e. Took here.now.image.now self.old e self.new)
            (λ e. Shut here.now.image.now self.old e self.new)
            (Kept self.old self.new) (Contended here.now.image.now self.old (Site.joins) self.new)
            (λ e found. (found ≡ not (is_void e.act)) × RousedIs found context.new.value e.moved)
            (context.new ≡ context.old) };
}
