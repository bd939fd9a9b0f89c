//! The sites of a board, as a processor shares them with others.

use crate::object_room::ObjectRoom;
use crate::places::{
    CLOCK, DOMAINS_FROM, HEAP, JOINS, MEMORY, OBJECTS_FROM, PARTS_FROM, SCHEDULER, THREADS_FROM,
};
use crate::seated::Seated;
use std::marker::Brand;
use std::snapshot::Snapshot;
use um_base::{Addr, Answer, Image, Parts, Piece, Reply, Row, ThreadIx, Timeout, Told, Waiter};
use um_machine::{Cost, Pending};
use um_service::{Outcome, Woken};
use um_tables::{
    Bytes, Clock, Context, DomainCell, FutexWait, FutexWake, Heap, HeapAct, HeapSaid, Here, Joins,
    Look, MemoryAct, MemorySaid, Said, Scheduler, Seeker, Sites, Waiting, armed, edited, expired,
    joined, left, load, named, resumed, ticked, waited, woke, worked,
};
use um_words::{
    CellWord, DomWord, DomainAct, Mark, RowAct, RowSaid, RowWord, ThreadAct, ThreadWord,
};

impl Sites for Seated<'_> {
    ghost use Rattle.std.specs.Prelude.{◌≡◌};
    ghost use Rattle.um_base.specs.declared.image.Image.{Image};
    ghost use Rattle.um_fine.specs.Sites.{site_number};
    ghost use Rattle.um_board.specs.{
      NextSteps.{IsNext},
      Placed.{HasMadeNone, HasMadeThere, IsAt},
      Saw.{Hinders, SawShut},
    };

    ghost IsOf = { λ image s. IsAt image s };

    ghost Took = { λ image old e new. HasMadeThere old e new };

    ghost Kept = { λ old new. HasMadeNone old new };

    ghost May = { λ image s e. IsNext image s.seat.token.me.0.name s.seat.token.me.0.made e };

    ghost Shut = { λ image old e new. SawShut image old.seat new.seat e };

    ghost Contended = { λ image old site new. Hinders old.log.room old.log.items old.seat new.seat
        (site_number site) };

    fn row(&mut self, here: &Here, row: Row, act: &RowAct) -> Said<RowSaid> {
        let site = row.0 as u16;
        let Some(seen) = self.look_to_step(here.image, site) else {
            return Said::Changed;
        };
        let word = RowWord::read(seen);
        let (next, said) = match act.make(&word) {
            None => return Said::Busy,
            Some(made) => made,
        };
        let event = act.event(&said);
        if !self.step::<Brand, _>(here, row.0, site, seen, next.pack(), &event, act) {
            return Said::Changed;
        }
        Said::Made(said)
    }

    fn thread(&mut self, here: &Here, thread: ThreadIx, act: &ThreadAct) -> Said<ThreadWord> {
        let site = THREADS_FROM + thread.0 as u16;
        let Some(seen) = self.look_to_step(here.image, site) else {
            return Said::Changed;
        };
        let word = match ThreadWord::unpack(seen) {
            None => return Said::Changed,
            Some(word) => word,
        };
        let next = match act.make(&word) {
            None => return Said::Busy,
            Some(next) => next,
        };
        let event = act.event(&next);
        if !self.step::<Brand, _>(
            here,
            thread.0,
            site,
            seen,
            next.pack(),
            &event,
            &(word, act),
        ) {
            return Said::Changed;
        }
        Said::Made(next)
    }

    fn domain(&mut self, here: &Here, domain: u8, act: &DomainAct) -> Said<DomWord> {
        let site = DOMAINS_FROM + domain as u16;
        let Some(seen) = self.look_to_step(here.image, site) else {
            return Said::Changed;
        };
        let word = match DomWord::unpack(seen) {
            None => return Said::Changed,
            Some(word) => word,
        };
        let next = match act.make(&word) {
            None => return Said::Busy,
            Some(next) => next,
        };
        let event = act.event();
        if !self.step::<Brand, _>(here, domain, site, seen, next.pack(), &event, &(word, act)) {
            return Said::Changed;
        }
        Said::Made(next)
    }

    fn load_parts(&mut self, here: &Here, domain: u8, parts: &mut Parts) -> Said<()> {
        let site = PARTS_FROM + domain as u16;
        let Some((turn, cell)) = self.turn::<Box<DomainCell>>(here.image, site) else {
            return Said::Changed;
        };
        load(parts, &cell.parts);
        self.leave_cell::<Brand, _, _>(here, site, domain, turn, cell, &None, &());
        Said::Made(())
    }

    fn edit(&mut self, here: &Here, domain: u8, call: &Pending) -> Said<Reply> {
        let site = PARTS_FROM + domain as u16;
        let Some((turn, mut cell)) = self.turn::<Box<DomainCell>>(here.image, site) else {
            return Said::Changed;
        };
        let (parts, reply) = edited(here.image, call, &cell.parts);
        cell.parts = parts;
        self.leave_cell::<Brand, _, _>(here, site, domain, turn, cell, &None, call);
        Said::Made(reply)
    }

    fn work(
        &mut self,
        here: &Here,
        row: Row,
        addr: Addr,
        who: &Waiter,
        noted: u32,
        outcome: &mut Outcome,
    ) -> Said<()> {
        let site = OBJECTS_FROM + row.0 as u16;
        let Some((turn, mut cell)) = self.turn::<ObjectRoom>(here.image, site) else {
            return Said::Changed;
        };
        cell.work(who, noted, outcome);
        let event = Some(worked(addr, who, outcome));
        self.leave_cell::<Brand, _, _>(here, site, row.0, turn, cell, &event, &(addr, who, noted));
        Said::Made(())
    }

    fn name(
        &mut self,
        here: &Here,
        row: Row,
        thread: ThreadIx,
        who: ThreadIx,
        bytes: &Piece,
    ) -> Said<()> {
        let site = OBJECTS_FROM + row.0 as u16;
        let Some((turn, mut cell)) = self.turn::<ObjectRoom>(here.image, site) else {
            return Said::Changed;
        };
        cell.name(bytes);
        let event = Some(named(thread, who));
        self.leave_cell::<Brand, _, _>(
            here,
            site,
            row.0,
            turn,
            cell,
            &event,
            &(thread, who, bytes),
        );
        Said::Made(())
    }

    fn message_size(&mut self, here: &Here, row: Row) -> Said<u32> {
        let site = OBJECTS_FROM + row.0 as u16;
        let Some((turn, cell)) = self.turn::<ObjectRoom>(here.image, site) else {
            return Said::Changed;
        };
        let size = cell.message_size();
        self.leave_cell::<Brand, _, _>(here, site, row.0, turn, cell, &None, &());
        Said::Made(size)
    }

    fn clear(&mut self, here: &Here, row: Row) -> Said<Option<Cost>> {
        let site = OBJECTS_FROM + row.0 as u16;
        let Some((turn, mut cell)) = self.turn::<ObjectRoom>(here.image, site) else {
            return Said::Changed;
        };
        let buffer = cell.clear();
        self.leave_cell::<Brand, _, _>(here, site, row.0, turn, cell, &None, &());
        Said::Made(buffer)
    }

    fn memory(&mut self, here: &Here, act: &MemoryAct, buffer: &mut Piece) -> Said<MemorySaid> {
        let Some((turn, mut cell)) = self.turn::<Box<Bytes>>(here.image, MEMORY) else {
            return Said::Changed;
        };
        let sent = Snapshot::of(buffer);
        let said = cell.make(here.image, self.rodata, act, buffer);
        let event = act.event(&said);
        self.leave_cell::<Brand, _, _>(here, MEMORY, 0, turn, cell, &event, &(act, sent));
        Said::Made(said)
    }

    fn heap(&mut self, here: &Here, act: &HeapAct, charge: Option<Cost>) -> Said<HeapSaid> {
        let Some((turn, mut cell)) = self.turn::<Box<Heap>>(here.image, HEAP) else {
            return Said::Changed;
        };
        let said = cell.make(here.image, act, charge);
        let event = act.event(&said);
        self.leave_cell::<Brand, _, _>(here, HEAP, 0, turn, cell, &event, &(act, charge));
        Said::Made(said)
    }

    fn take(&mut self, here: &Here, context: &mut Box<Context>, told: &mut Told) -> Said<bool> {
        let seen = self.look(here.image, SCHEDULER);
        if CellWord::read(seen).ready == 0 {
            return Said::Busy;
        }
        let Some((turn, mut cell)) = self.turn_at_once::<Box<Scheduler>>(here.image, SCHEDULER)
        else {
            return Said::Changed;
        };
        let woken = match cell.take(context, told) {
            None => {
                self.put_back(here.image, SCHEDULER, turn, cell);
                return Said::Busy;
            }
            Some(woken) => woken,
        };
        let event = resumed(context.thread(), woken);
        self.leave_cell::<Brand, _, _>(here, SCHEDULER, 0, turn, cell, &event, &());
        Said::Made(woken)
    }

    fn wake(&mut self, here: &Here, who: ThreadIx, told: &Told) -> Said<()> {
        let Some((turn, mut cell)) = self.turn::<Box<Scheduler>>(here.image, SCHEDULER) else {
            return Said::Changed;
        };
        let _ready = match cell.wake(who, told) {
            None => {
                self.put_back(here.image, SCHEDULER, turn, cell);
                return Said::Busy;
            }
            Some(ready) => ready,
        };
        self.leave_cell::<Brand, _, _>(here, SCHEDULER, 0, turn, cell, &None, &(who, told));
        Said::Made(())
    }

    fn add(&mut self, here: &Here, context: &mut Box<Context>) -> Said<()> {
        let Some((turn, mut cell)) = self.turn::<Box<Scheduler>>(here.image, SCHEDULER) else {
            return Said::Changed;
        };
        let given = Snapshot::of(context);
        if !cell.add(context) {
            self.put_back(here.image, SCHEDULER, turn, cell);
            return Said::Busy;
        }
        self.leave_cell::<Brand, _, _>(here, SCHEDULER, 0, turn, cell, &None, &given);
        Said::Made(())
    }

    fn park(&mut self, here: &Here, context: &mut Box<Context>) -> Said<()> {
        let Some((turn, mut cell)) = self.turn::<Box<Scheduler>>(here.image, SCHEDULER) else {
            return Said::Changed;
        };
        let given = Snapshot::of(context);
        let _ready = match cell.park(context) {
            None => {
                self.put_back(here.image, SCHEDULER, turn, cell);
                return Said::Busy;
            }
            Some(ready) => ready,
        };
        self.leave_cell::<Brand, _, _>(here, SCHEDULER, 0, turn, cell, &None, &given);
        Said::Made(())
    }

    fn done(&mut self, here: &Here) -> Said<()> {
        let Some((turn, mut cell)) = self.turn::<Box<Scheduler>>(here.image, SCHEDULER) else {
            return Said::Changed;
        };
        if !cell.done() {
            self.put_back(here.image, SCHEDULER, turn, cell);
            return Said::Busy;
        }
        self.leave_cell::<Brand, _, _>(here, SCHEDULER, 0, turn, cell, &None, &());
        Said::Made(())
    }

    fn cut(&mut self, here: &Here, who: ThreadIx) -> Said<()> {
        let Some((turn, mut cell)) = self.turn::<Box<Scheduler>>(here.image, SCHEDULER) else {
            return Said::Changed;
        };
        let _ready = match cell.cut(who) {
            None => {
                self.put_back(here.image, SCHEDULER, turn, cell);
                return Said::Busy;
            }
            Some(ready) => ready,
        };
        self.leave_cell::<Brand, _, _>(here, SCHEDULER, 0, turn, cell, &None, &who);
        Said::Made(())
    }

    fn owe(&mut self, here: &Here) -> Said<()> {
        let Some((turn, mut cell)) = self.turn::<Box<Scheduler>>(here.image, SCHEDULER) else {
            return Said::Changed;
        };
        if !cell.owe() {
            self.put_back(here.image, SCHEDULER, turn, cell);
            return Said::Busy;
        }
        self.leave_cell::<Brand, _, _>(here, SCHEDULER, 0, turn, cell, &None, &());
        Said::Made(())
    }

    fn pay(&mut self, here: &Here) -> Said<()> {
        let Some((turn, mut cell)) = self.turn::<Box<Scheduler>>(here.image, SCHEDULER) else {
            return Said::Changed;
        };
        if !cell.pay() {
            self.put_back(here.image, SCHEDULER, turn, cell);
            return Said::Busy;
        }
        self.leave_cell::<Brand, _, _>(here, SCHEDULER, 0, turn, cell, &None, &());
        Said::Made(())
    }

    fn look(&mut self, here: &Here, cell: Waiting, look: &Look) -> Said<bool> {
        match cell {
            Waiting::Object(row) => self.look_at_object(here, row, look),
            Waiting::Memory => self.look_at_memory(here, look),
            Waiting::Joins => self.look_at_joins(here, look),
        }
    }

    fn expire(
        &mut self,
        here: &Here,
        row: Row,
        thread: ThreadIx,
        addr: Addr,
        deadline: u64,
        woken: &mut Woken,
    ) -> Said<bool> {
        let site = OBJECTS_FROM + row.0 as u16;
        let Some((turn, mut cell)) = self.turn::<ObjectRoom>(here.image, site) else {
            return Said::Changed;
        };
        let found = cell.expire(deadline, woken);
        let event = expired(thread, addr, woken, found);
        self.leave_cell::<Brand, _, _>(
            here,
            site,
            row.0,
            turn,
            cell,
            &event,
            &(thread, addr, deadline),
        );
        Said::Made(found)
    }

    fn futex_wait(&mut self, here: &Here, act: &FutexWait) -> Said<Answer> {
        let Some((turn, mut cell)) = self.turn::<Box<Bytes>>(here.image, MEMORY) else {
            return Said::Changed;
        };
        let answer = cell.wait(here.image, self.rodata, act);
        let event = Some(waited(act, answer));
        self.leave_cell::<Brand, _, _>(here, MEMORY, 0, turn, cell, &event, act);
        Said::Made(answer)
    }

    fn futex_wake(&mut self, here: &Here, act: &FutexWake, woken: &mut Woken) -> Said<Answer> {
        let Some((turn, mut cell)) = self.turn::<Box<Bytes>>(here.image, MEMORY) else {
            return Said::Changed;
        };
        let answer = cell.wake(here.image, act, woken);
        let event = Some(woke(act, answer, woken));
        self.leave_cell::<Brand, _, _>(here, MEMORY, 0, turn, cell, &event, act);
        Said::Made(answer)
    }

    fn arm(&mut self, here: &Here, thread: ThreadIx, ticks: u32, mark: Mark) -> Said<u64> {
        let Some((turn, mut cell)) = self.turn::<Box<Clock>>(here.image, CLOCK) else {
            return Said::Changed;
        };
        if cell.is_full() {
            self.put_back(here.image, CLOCK, turn, cell);
            return Said::Changed;
        }
        let deadline = cell.arm(ticks, mark);
        let event = Some(armed(thread, deadline));
        self.leave_cell::<Brand, _, _>(here, CLOCK, 0, turn, cell, &event, &(thread, ticks, mark));
        Said::Made(deadline)
    }

    fn settle(&mut self, here: &Here, deadline: u64, mark: Mark) -> Said<()> {
        let Some((turn, mut cell)) = self.turn::<Box<Clock>>(here.image, CLOCK) else {
            return Said::Changed;
        };
        cell.settle(deadline, mark);
        self.leave_cell::<Brand, _, _>(here, CLOCK, 0, turn, cell, &None, &(deadline, mark));
        Said::Made(())
    }

    fn give(&mut self, here: &Here) -> Said<(u64, Mark)> {
        let Some((turn, mut cell)) = self.turn::<Box<Clock>>(here.image, CLOCK) else {
            return Said::Changed;
        };
        let given = match cell.give() {
            None => {
                self.put_back(here.image, CLOCK, turn, cell);
                return Said::Busy;
            }
            Some(given) => given,
        };
        self.leave_cell::<Brand, _, _>(here, CLOCK, 0, turn, cell, &None, &());
        Said::Made(given)
    }

    fn tick(&mut self, here: &Here, thread: ThreadIx) -> Said<()> {
        let Some((turn, mut cell)) = self.turn::<Box<Clock>>(here.image, CLOCK) else {
            return Said::Changed;
        };
        let now = match cell.tick() {
            None => {
                self.put_back(here.image, CLOCK, turn, cell);
                return Said::Busy;
            }
            Some(now) => now,
        };
        let event = Some(ticked(thread, now));
        self.leave_cell::<Brand, _, _>(here, CLOCK, 0, turn, cell, &event, &thread);
        Said::Made(())
    }

    fn join(
        &mut self,
        here: &Here,
        seeker: &Seeker,
        who: ThreadIx,
        timeout: Timeout,
    ) -> Said<Answer> {
        let Some((turn, mut cell)) = self.turn::<Box<Joins>>(here.image, JOINS) else {
            return Said::Changed;
        };
        let answer = cell.join(seeker, who, timeout);
        let event = Some(joined(seeker.thread, who, answer));
        self.leave_cell::<Brand, _, _>(here, JOINS, 0, turn, cell, &event, &(seeker, who, timeout));
        Said::Made(answer)
    }

    fn leave(&mut self, here: &Here, who: ThreadIx, woken: &mut Woken) -> Said<bool> {
        let Some((turn, mut cell)) = self.turn::<Box<Joins>>(here.image, JOINS) else {
            return Said::Changed;
        };
        let joined = cell.leave(who, woken);
        let event = left(who, woken, joined);
        self.leave_cell::<Brand, _, _>(here, JOINS, 0, turn, cell, &event, &who);
        Said::Made(joined)
    }

    fn unshut(&mut self, here: &Here, who: ThreadIx) -> Said<()> {
        let Some((turn, mut cell)) = self.turn::<Box<Joins>>(here.image, JOINS) else {
            return Said::Changed;
        };
        cell.unshut(who);
        self.leave_cell::<Brand, _, _>(here, JOINS, 0, turn, cell, &None, &who);
        Said::Made(())
    }

    fn sleep(&mut self, here: &Here, context: &mut Box<Context>) -> Said<()> {
        let Some((turn, mut cell)) = self.turn::<Box<Joins>>(here.image, JOINS) else {
            return Said::Changed;
        };
        let given = Snapshot::of(context);
        cell.sleep(context);
        self.leave_cell::<Brand, _, _>(here, JOINS, 0, turn, cell, &None, &given);
        Said::Made(())
    }

    fn rouse(&mut self, here: &Here, who: ThreadIx, context: &mut Box<Context>) -> Said<bool> {
        let Some((turn, mut cell)) = self.turn::<Box<Joins>>(here.image, JOINS) else {
            return Said::Changed;
        };
        let found = cell.rouse(who, context);
        self.leave_cell::<Brand, _, _>(here, JOINS, 0, turn, cell, &None, &who);
        Said::Made(found)
    }
}
