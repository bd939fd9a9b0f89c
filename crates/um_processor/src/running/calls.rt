//! A call's checks and its answer.

ghost use Rattle.std.specs.Prelude.{◌≡◌, ◌<◌, [], length, Some, None};
ghost use Rattle.um_base.specs.{declared.limits.TheConstants.{ROWS}, Places.{row_at}};
ghost use Rattle.um_machine.specs.declared.pending.Pending.TheVariants as Pending;
ghost use Rattle.um_processor.specs.{Events.{check_for, shows}, Turns.{CanTurn, HasEnded, HasRun}};

use crate::phase::Turn;
use crate::running::Running;
use crate::turns::made;
use arrayvec::ArrayVec;
use um_base::{Addr, Errno, Kind, Reply, Row, Want};
use um_machine::Refusal;
use um_steps::kinds::has_kind;
use um_steps::rows::row_at;
use um_tables::{Here, Sites, kind_of};
use um_words::{RowAct, ThreadAct};

/// The object that a call looks for, and what comes where it isn't there.
#[derive(Clone, Copy)]
pub struct Wanted {
    pub addr: Addr,
    pub kind: Option<Kind>,
    pub want: Want,
    pub refusal: Refusal,
}

impl Running {
    /// Answers the call, whose claims are to end then.
    pub fn answer<S: Sites>(
        &mut self,
        here: &Here,
        ends: &mut ArrayVec<u8, 2>,
        reply: Option<Reply>,
        to: Option<u8>,
        sites: &mut S,
    ) -> Turn
        requires none { ends.old.items ≡ [] }
        requires goes { CanTurn S.Sites here.now sites.old (shows (Pending.Answer reply to) self.old) }
        ensures ends { HasEnded S.Sites result here.now sites.old sites.new
            (shows (Pending.Answer reply to) self.old) self.old self.new ends.old.items ends.new.items }
    {
        let thread = self.thread();
        let said = self.context.reply_of(here.image, reply);
        let act = ThreadAct::Answered {
            thread,
            reply: said,
        };
        made!(sites.thread(here, thread, &act));
        let taken = self.taken();
        self.context.gives_claims(ends);
        self.context.answers(here.image, reply, to, taken);
        self.leaves(here.image, thread.0);
        Turn::Made
    }

    /// Checks an address at which an object may stand.
    fn check_row<S: Sites>(&mut self, here: &Here, row: Row, wanted: &Wanted, sites: &mut S) -> Turn
        requires row { row_at here.now.image.now wanted.now.addr.0 ≡ Some row.0 }
        requires small { row.0 < ROWS }
        requires room { length self.old.context.value.claims < 2 }
        requires goes { CanTurn S.Sites here.now sites.old (shows (check_for wanted.now) self.old) }
        ensures turn { HasRun S.Sites result here.now sites.old sites.new
            (shows (check_for wanted.now) self.old) self.old self.new }
    {
        let thread = self.thread();
        let act = RowAct::Check {
            thread,
            addr: wanted.addr,
            kind: wanted.kind,
            want: wanted.want,
            mode: self.context.mode(),
            fits: has_kind(wanted.kind, kind_of(here.image, row.0 as usize)),
        };
        let said = made!(sites.row(here, row, &act));
        let taken = self.taken();
        self.context
            .checks(here.image, row.0, wanted.refusal, said.verdict, taken);
        self.leaves(here.image, thread.0);
        Turn::Made
    }

    /// Checks an address at which no object can stand.
    fn check_nothing<S: Sites>(&mut self, here: &Here, wanted: &Wanted, sites: &mut S) -> Turn
        requires row { row_at here.now.image.now wanted.now.addr.0 ≡ None }
        requires room { length self.old.context.value.claims < 2 }
        requires goes { CanTurn S.Sites here.now sites.old (shows (check_for wanted.now) self.old) }
        ensures turn { HasRun S.Sites result here.now sites.old sites.new
            (shows (check_for wanted.now) self.old) self.old self.new }
    {
        let thread = self.thread();
        let act = ThreadAct::Miss {
            thread,
            addr: wanted.addr,
            kind: wanted.kind,
            want: wanted.want,
            mode: self.context.mode(),
        };
        made!(sites.thread(here, thread, &act));
        let taken = self.taken();
        self.context
            .checks(here.image, 0, wanted.refusal, Some(Errno::EBADF), taken);
        self.leaves(here.image, thread.0);
        Turn::Made
    }

    /// Checks an object, which the call holds if the check passes.
    pub fn check<S: Sites>(&mut self, here: &Here, wanted: &Wanted, sites: &mut S) -> Turn
        requires goes { CanTurn S.Sites here.now sites.old (shows (check_for wanted.now) self.old) }
        ensures turn { HasRun S.Sites result here.now sites.old sites.new
            (shows (check_for wanted.now) self.old) self.old self.new }
    {
        if !self.context.has_room() {
            return Turn::Stuck;
        }
        match row_at(here.image, wanted.addr.0) {
            None => self.check_nothing(here, wanted, sites),
            Some(x) => self.check_row(here, Row(x as u8), wanted, sites),
        }
    }
}
