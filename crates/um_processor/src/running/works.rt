//! The event of a call's work on an object.

ghost use Rattle.std.specs.Prelude.{◌≡◌, ◌<◌, ◌+◌, [], false, IsTrue};
ghost use Rattle.um_base.specs.declared.limits.TheConstants.{THREADS};
ghost use Rattle.um_machine.specs.{
  Goes.{Next, work_change, work_way},
  Limits.{is_sound_ask},
  Order.{to_thread},
  Table.{bytes_given},
};
ghost use Rattle.um_fine.specs.Places.{may_wait};
ghost use Rattle.um_machine.specs.declared.pending.Pending.TheVariants as Pending;
ghost use Rattle.um_processor.specs.{Events.{rereads_behind, shows, waited_by, with_woken}, Phases.{is_idle}, Processors.{OnMade, UnlessMade, processor_of}, Turns.{CanTurn, TurnsAt}};

use crate::phase::Turn;
use crate::running::Running;
use crate::running::next::row_named;
use crate::running::timed::may_wait;
use crate::turns::made;
use um_base::{Addr, Answer, Ask, Image, Piece, Row, ThreadIx};
use um_service::Outcome;
use um_tables::{Here, Sites, empties};

impl Running {
    /// Writes down the bytes that a call gives of the thread's buffer.
    fn gives(&mut self, ask: &Ask)
        ensures { self.new
            ≡ record self.old {
              caller = record self.old.caller { bytes = bytes_given self.old.context.value.buffer ask.now };
            } }
    {
        match ask {
            Ask::MsgqPut { .. } | Ask::PipeWrite { .. } => self.caller.bytes = *self
                .context
                .buffer(),
            _ => empties(&mut self.caller.bytes),
        }
    }

    /// Writes the thread down as the caller of a call.
    fn calls(&mut self, ask: &Ask)
        ensures thread { self.new.caller.thread.0 < THREADS }
        ensures value { let c = self.old.context.value in self.new
            ≡ record self.old {
              caller = record {
                thread = to_thread c.thread;
                priority = c.priority;
                ask = ask.now;
                bytes = bytes_given c.buffer ask.now;
                until = c.until;
              };
            } }
    {
        self.gives(ask);
        self.caller.thread = ThreadIx(self.context.thread());
        self.caller.priority = self.context.priority();
        self.caller.ask = *ask;
        self.caller.until = self.context.until();
    }

    /// Goes on after the work of the thread's call on the object of a row.
    fn works(&mut self, image: &Image, row: u8, ask: &Ask, answer: Answer, bytes: &Piece)
        requires { IsTrue (is_sound_ask ask.now) }
        ensures { processor_of self.new ≡ waited_by image.now [] (rereads_behind (may_wait ask.now) answer) (168 + row)
            (Next.on (work_change answer bytes.now)
            (work_way self.old.context.value.mode ask.now answer)) self.old }
    {
        let thread = self.context.thread();
        let taken = self.taken();
        self.context.works(image, ask, answer, bytes, taken);
        match answer {
            Answer::Wait => {
                if may_wait(ask) {
                    self.leaves_waiting(image, thread, 168 + row as u16);
                } else {
                    self.leaves(image, thread);
                }
            }
            Answer::Now(_) => self.leaves(image, thread),
        }
    }

    /// Does a call's work on the object at an address, and writes the outcome, whose woken threads are to be told.
    pub fn work<S: Sites>(
        &mut self,
        here: &Here,
        addr: Addr,
        ask: &Ask,
        outcome: &mut Outcome,
        sites: &mut S,
    ) -> Turn
        requires sound { IsTrue (is_sound_ask ask.now) }
        requires goes { CanTurn S.Sites here.now sites.old (shows (Pending.Work addr ask.now) self.old) }
        ensures image { S.IsOf here.now.image.now sites.new }
        ensures outcome { UnlessMade result (outcome.new ≡ outcome.old) }
        ensures same { UnlessMade result (processor_of self.new ≡ processor_of self.old) }
        ensures runs { OnMade result (is_idle self.new.phase ≡ false) }
        ensures turn { TurnsAt S.Sites result here.now.cpu here.now.image.now sites.old sites.new
            (shows (Pending.Work addr ask.now) self.old)
            (with_woken outcome.new.woken (processor_of self.new)) }
    {
        let row = Row(row_named(here.image, addr));
        self.calls(ask);
        let noted = self.context.note_number();
        made!(sites.work(here, row, addr, &self.caller, noted, outcome));
        self.works(here.image, row.0, ask, outcome.answer, &outcome.taken);
        Turn::Made
    }
}
