//! The steps that tables make.

ghost use Rattle.std.specs.Prelude.{◌≡◌};

use crate::context::Context;
use crate::domain_cell::{edited, load};
use crate::futex_act::{FutexWait, FutexWake};
use crate::heap_act::{HeapAct, HeapSaid};
use crate::here::Here;
use crate::log::{
    armed, expired, is_full, joined, left, named, note, resumed, ticked, waited, woke, worked,
};
use crate::look::{Look, Waiting};
use crate::memory_act::{MemoryAct, MemorySaid};
use crate::said::Said;
use crate::seeker::Seeker;
use crate::sites::Sites;
use crate::tables::{LAST, Tables};
use um_base::{Addr, Answer, Image, Parts, Piece, Reply, Row, ThreadIx, Timeout, Told, Waiter};
use um_machine::{Cost, Pending};
use um_service::{Outcome, Woken};
use um_words::{DomWord, DomainAct, Mark, RowAct, RowSaid, ThreadAct, ThreadWord};

impl Sites for Tables {
    ghost use Rattle.std.specs.Prelude.{◌≡◌};
    ghost use Rattle.um_base.specs.declared.image.Image.{Image};
    ghost use Rattle.um_machine.specs.Memory.{rodata_of};
    ghost use Rattle.um_tables.specs.Sited.{IsFull, IsShut, WasMade, state_at};

    ghost IsOf = { λ image s. s.rodata ≡ rodata_of image };

    ghost Took = { WasMade };

    ghost Kept = { λ old new. new ≡ old };

    ghost May = { λ image s e. Unit {0} };

    ghost Shut = { λ image old e new. IsShut image (state_at old e.site) e };

    ghost Contended = { λ image old site new. IsFull old };

    #[inline(always)]
    fn row(&mut self, here: &Here, row: Row, act: &RowAct) -> Said<RowSaid> {
        if is_full(&self.log) {
            return Said::Changed;
        }
        let (next, said) = match act.make(&self.rows[row.0 as usize]) {
            None => return Said::Busy,
            Some(made) => made,
        };
        self.rows[row.0 as usize] = next;
        note(&mut self.log, act.event(&said));
        Said::Made(said)
    }

    #[inline(always)]
    fn thread(&mut self, here: &Here, thread: ThreadIx, act: &ThreadAct) -> Said<ThreadWord> {
        if is_full(&self.log) {
            return Said::Changed;
        }
        let next = match act.make(&self.threads[thread.0 as usize]) {
            None => return Said::Busy,
            Some(next) => next,
        };
        self.threads[thread.0 as usize] = next;
        note(&mut self.log, act.event(&next));
        Said::Made(next)
    }

    #[inline(always)]
    fn domain(&mut self, here: &Here, domain: u8, act: &DomainAct) -> Said<DomWord> {
        if is_full(&self.log) {
            return Said::Changed;
        }
        let next = match act.make(&self.domains[domain as usize]) {
            None => return Said::Busy,
            Some(next) => next,
        };
        self.domains[domain as usize] = next;
        note(&mut self.log, act.event());
        Said::Made(next)
    }

    fn load_parts(&mut self, here: &Here, domain: u8, parts: &mut Parts) -> Said<()> {
        let cell = &mut self.domain_cells[domain as usize];
        if cell.steps >= LAST {
            return Said::Busy;
        }
        load(parts, &cell.parts);
        cell.steps += 1;
        Said::Made(())
    }

    fn edit(&mut self, here: &Here, domain: u8, call: &Pending) -> Said<Reply> {
        let cell = &mut self.domain_cells[domain as usize];
        if cell.steps >= LAST {
            return Said::Busy;
        }
        let (parts, reply) = edited(here.image, call, &cell.parts);
        cell.parts = parts;
        cell.steps += 1;
        Said::Made(reply)
    }

    fn work(
        &mut self,
        here: &Here,
        row: Row,
        addr: Addr,
        who: &Waiter,
        noted: u32,
        outcome: &mut Outcome,
    ) -> Said<()> {
        if is_full(&self.log) {
            return Said::Changed;
        }
        let cell = self.objects.row_mut(row.0 as usize);
        if cell.steps >= LAST {
            return Said::Busy;
        }
        cell.work(who, noted, outcome);
        cell.steps += 1;
        note(&mut self.log, Some(worked(addr, who, outcome)));
        Said::Made(())
    }

    fn name(
        &mut self,
        here: &Here,
        row: Row,
        thread: ThreadIx,
        who: ThreadIx,
        bytes: &Piece,
    ) -> Said<()> {
        if is_full(&self.log) {
            return Said::Changed;
        }
        let cell = self.objects.row_mut(row.0 as usize);
        if cell.steps >= LAST {
            return Said::Busy;
        }
        cell.name(bytes);
        cell.steps += 1;
        note(&mut self.log, Some(named(thread, who)));
        Said::Made(())
    }

    fn message_size(&mut self, here: &Here, row: Row) -> Said<u32> {
        let cell = self.objects.row_mut(row.0 as usize);
        if cell.steps >= LAST {
            return Said::Busy;
        }
        let size = cell.message_size();
        cell.steps += 1;
        Said::Made(size)
    }

    fn clear(&mut self, here: &Here, row: Row) -> Said<Option<Cost>> {
        let cell = self.objects.row_mut(row.0 as usize);
        if cell.steps >= LAST {
            return Said::Busy;
        }
        let buffer = cell.clear();
        cell.steps += 1;
        Said::Made(buffer)
    }

    fn memory(&mut self, here: &Here, act: &MemoryAct, buffer: &mut Piece) -> Said<MemorySaid> {
        if is_full(&self.log) {
            return Said::Changed;
        }
        if self.memory_steps >= LAST {
            return Said::Busy;
        }
        let said = self
            .memory
            .make(here.image, self.rodata.as_slice(), act, buffer);
        self.memory_steps += 1;
        note(&mut self.log, act.event(&said));
        Said::Made(said)
    }

    fn heap(&mut self, here: &Here, act: &HeapAct, charge: Option<Cost>) -> Said<HeapSaid> {
        if is_full(&self.log) {
            return Said::Changed;
        }
        if self.heap_steps >= LAST {
            return Said::Busy;
        }
        let said = self.heap.make(here.image, act, charge);
        self.heap_steps += 1;
        note(&mut self.log, act.event(&said));
        Said::Made(said)
    }

    fn take(&mut self, here: &Here, context: &mut Box<Context>, told: &mut Told) -> Said<bool> {
        if is_full(&self.log) {
            return Said::Changed;
        }
        if self.scheduler_steps >= LAST {
            return Said::Busy;
        }
        let woken = match self.scheduler.take(context, told) {
            None => return Said::Busy,
            Some(woken) => woken,
        };
        self.scheduler_steps += 1;
        note(&mut self.log, resumed(context.thread(), woken));
        Said::Made(woken)
    }

    fn wake(&mut self, here: &Here, who: ThreadIx, told: &Told) -> Said<()> {
        if self.scheduler_steps >= LAST {
            return Said::Busy;
        }
        let _ready = match self.scheduler.wake(who, told) {
            None => return Said::Busy,
            Some(ready) => ready,
        };
        self.scheduler_steps += 1;
        Said::Made(())
    }

    fn add(&mut self, here: &Here, context: &mut Box<Context>) -> Said<()> {
        if self.scheduler_steps >= LAST {
            return Said::Busy;
        }
        if !self.scheduler.add(context) {
            return Said::Busy;
        }
        self.scheduler_steps += 1;
        Said::Made(())
    }

    fn park(&mut self, here: &Here, context: &mut Box<Context>) -> Said<()> {
        if self.scheduler_steps >= LAST {
            return Said::Busy;
        }
        let _ready = match self.scheduler.park(context) {
            None => return Said::Busy,
            Some(ready) => ready,
        };
        self.scheduler_steps += 1;
        Said::Made(())
    }

    fn done(&mut self, here: &Here) -> Said<()> {
        if self.scheduler_steps >= LAST {
            return Said::Busy;
        }
        if !self.scheduler.done() {
            return Said::Busy;
        }
        self.scheduler_steps += 1;
        Said::Made(())
    }

    fn cut(&mut self, here: &Here, who: ThreadIx) -> Said<()> {
        if self.scheduler_steps >= LAST {
            return Said::Busy;
        }
        let _ready = match self.scheduler.cut(who) {
            None => return Said::Busy,
            Some(ready) => ready,
        };
        self.scheduler_steps += 1;
        Said::Made(())
    }

    fn owe(&mut self, here: &Here) -> Said<()> {
        if self.scheduler_steps >= LAST {
            return Said::Busy;
        }
        if !self.scheduler.owe() {
            return Said::Busy;
        }
        self.scheduler_steps += 1;
        Said::Made(())
    }

    fn pay(&mut self, here: &Here) -> Said<()> {
        if self.scheduler_steps >= LAST {
            return Said::Busy;
        }
        if !self.scheduler.pay() {
            return Said::Busy;
        }
        self.scheduler_steps += 1;
        Said::Made(())
    }

    fn look(&mut self, here: &Here, cell: Waiting, look: &Look) -> Said<bool> {
        match cell {
            Waiting::Object(row) => self.look_at_object(here, row, look),
            Waiting::Memory => self.look_at_memory(here, look),
            Waiting::Joins => self.look_at_joins(here, look),
        }
    }

    fn expire(
        &mut self,
        here: &Here,
        row: Row,
        thread: ThreadIx,
        addr: Addr,
        deadline: u64,
        woken: &mut Woken,
    ) -> Said<bool> {
        if is_full(&self.log) {
            return Said::Changed;
        }
        let cell = self.objects.row_mut(row.0 as usize);
        if cell.steps >= LAST {
            return Said::Busy;
        }
        let found = cell.expire(deadline, woken);
        cell.steps += 1;
        note(&mut self.log, expired(thread, addr, woken, found));
        Said::Made(found)
    }

    fn futex_wait(&mut self, here: &Here, act: &FutexWait) -> Said<Answer> {
        if is_full(&self.log) {
            return Said::Changed;
        }
        if self.memory_steps >= LAST {
            return Said::Busy;
        }
        let answer = self.memory.wait(here.image, self.rodata.as_slice(), act);
        self.memory_steps += 1;
        note(&mut self.log, Some(waited(act, answer)));
        Said::Made(answer)
    }

    fn futex_wake(&mut self, here: &Here, act: &FutexWake, woken: &mut Woken) -> Said<Answer> {
        if is_full(&self.log) {
            return Said::Changed;
        }
        if self.memory_steps >= LAST {
            return Said::Busy;
        }
        let answer = self.memory.wake(here.image, act, woken);
        self.memory_steps += 1;
        note(&mut self.log, Some(woke(act, answer, woken)));
        Said::Made(answer)
    }

    fn arm(&mut self, here: &Here, thread: ThreadIx, ticks: u32, mark: Mark) -> Said<u64> {
        if is_full(&self.log) {
            return Said::Changed;
        }
        if self.clock_steps >= LAST {
            return Said::Busy;
        }
        let deadline = self.clock.arm(ticks, mark);
        self.clock_steps += 1;
        note(&mut self.log, Some(armed(thread, deadline)));
        Said::Made(deadline)
    }

    fn settle(&mut self, here: &Here, deadline: u64, mark: Mark) -> Said<()> {
        if self.clock_steps >= LAST {
            return Said::Busy;
        }
        self.clock.settle(deadline, mark);
        self.clock_steps += 1;
        Said::Made(())
    }

    fn give(&mut self, here: &Here) -> Said<(u64, Mark)> {
        if self.clock_steps >= LAST {
            return Said::Busy;
        }
        let given = match self.clock.give() {
            None => return Said::Busy,
            Some(given) => given,
        };
        self.clock_steps += 1;
        Said::Made(given)
    }

    fn tick(&mut self, here: &Here, thread: ThreadIx) -> Said<()> {
        if is_full(&self.log) {
            return Said::Changed;
        }
        if self.clock_steps >= LAST {
            return Said::Busy;
        }
        let now = match self.clock.tick() {
            None => return Said::Busy,
            Some(now) => now,
        };
        self.clock_steps += 1;
        note(&mut self.log, Some(ticked(thread, now)));
        Said::Made(())
    }

    fn join(
        &mut self,
        here: &Here,
        seeker: &Seeker,
        who: ThreadIx,
        timeout: Timeout,
    ) -> Said<Answer> {
        if is_full(&self.log) {
            return Said::Changed;
        }
        if self.joins_steps >= LAST {
            return Said::Busy;
        }
        let answer = self.joins.join(seeker, who, timeout);
        self.joins_steps += 1;
        note(&mut self.log, Some(joined(seeker.thread, who, answer)));
        Said::Made(answer)
    }

    fn leave(&mut self, here: &Here, who: ThreadIx, woken: &mut Woken) -> Said<bool> {
        if is_full(&self.log) {
            return Said::Changed;
        }
        if self.joins_steps >= LAST {
            return Said::Busy;
        }
        let joined = self.joins.leave(who, woken);
        self.joins_steps += 1;
        note(&mut self.log, left(who, woken, joined));
        Said::Made(joined)
    }

    fn unshut(&mut self, here: &Here, who: ThreadIx) -> Said<()> {
        if self.joins_steps >= LAST {
            return Said::Busy;
        }
        self.joins.unshut(who);
        self.joins_steps += 1;
        Said::Made(())
    }

    fn sleep(&mut self, here: &Here, context: &mut Box<Context>) -> Said<()> {
        if self.joins_steps >= LAST {
            return Said::Busy;
        }
        self.joins.sleep(context);
        self.joins_steps += 1;
        Said::Made(())
    }

    fn rouse(&mut self, here: &Here, who: ThreadIx, context: &mut Box<Context>) -> Said<bool> {
        if self.joins_steps >= LAST {
            return Said::Busy;
        }
        let found = self.joins.rouse(who, context);
        self.joins_steps += 1;
        Said::Made(found)
    }
}
