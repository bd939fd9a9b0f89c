//! The steps that a processor makes as requests, since it needs to know only that they were made: what each asks for, and how the processor
//! goes on.

ghost use Rattle.std.specs.Prelude.{◌≡◌, IsTrue, MatchOption, Some};
ghost use Rattle.um_base.specs.Places.{own_row};
ghost use Rattle.um_fine.specs.Processor.{fails};
ghost use Rattle.um_machine.specs.declared.pending.Pending.TheVariants as Pending;
ghost use Rattle.um_processor.specs.declared.request.Onward.TheVariants as Onward;
ghost use Rattle.um_processor.specs.{Events.{shows}, Processors.{IsStuck, processor_of}, Requests.{Leads, gone_on}, Subjects.{is_access, is_edit, is_quiet}, Turns.{CanTurn, HasRun}};

use crate::phase::Turn;
use crate::request::{Onward, Request};
use crate::running::Running;
use crate::running::events::own_row;
use crate::running::next::row_named;
use crate::turns::took;
use um_base::{Access, Image, ROWS, Reply, Row, ThreadIx};
use um_machine::Pending;
use um_steps::costs::cost_of;
use um_tables::{HeapAct, Here, MemoryAct, Sites};
use um_words::{DomainAct, RowAct, ThreadAct};

/// Whether a call failed.
fn fails(reply: Reply) -> bool
    ensures { result ≡ fails reply }
{
    match reply {
        Reply::Fail(_) => true,
        _ => false,
    }
}

/// A request after which the thread goes on as it is.
fn plainly(request: Request) -> Option<(Request, Onward)>
    ensures { result ≡ Some (request, Onward.GoesOn) }
{
    Some((request, Onward::GoesOn))
}

impl Running {
    /// What the event of a move to a domain asks for. If the domain is initialised, the thread's word gets it. If not, the move fails, and
    /// its event ends the claim on the domain.
    fn move_request(&self, here: &Here, domain: u8, who: ThreadIx) -> Request
        ensures { Leads here.now.cpu here.now.image.now (shows (Pending.DomMove domain who) self.now) result
            (gone_on here.now.image.now Onward.Replies self.now) }
    {
        let thread = self.thread();
        let reply = self.reply;
        if fails(reply) {
            let act = DomainAct::DomMove {
                thread,
                domain,
                who,
                reply,
            };
            return Request::Domain(domain, act);
        }
        let act = ThreadAct::DomMove {
            thread,
            domain,
            who,
            reply,
        };
        Request::Thread(who, act)
    }

    /// What the event of a call on a domain asks for, with the reply that was worked out before. The event ends the claim.
    fn edit_request(&self, here: &Here, step: &Pending) -> Request
        requires { IsTrue (is_edit step.now) }
        ensures { Leads here.now.cpu here.now.image.now (shows step.now self.now) result
            (gone_on here.now.image.now Onward.Replies self.now) }
    {
        let thread = self.thread();
        let reply = self.reply;
        match *step {
            Pending::DomInit { domain, .. } => {
                let act = DomainAct::DomInit {
                    thread,
                    domain,
                    reply,
                };
                Request::Domain(domain, act)
            }
            Pending::DomAdd {
                domain,
                range,
                attr,
            } => {
                let act = DomainAct::DomAdd {
                    thread,
                    domain,
                    range,
                    attr,
                    reply,
                };
                Request::Domain(domain, act)
            }
            Pending::DomRemove {
                domain,
                range,
                attr,
            } => {
                let act = DomainAct::DomRemove {
                    thread,
                    domain,
                    range,
                    attr,
                    reply,
                };
                Request::Domain(domain, act)
            }
            Pending::DomMove { domain, who } => self.move_request(here, domain, who),
            _ => unreachable!(),
        }
    }

    /// What the event of an access to memory asks for. If the region table doesn't allow the access, a fault comes in its place, or the
    /// copy fails.
    fn access_request(&self, here: &Here, step: &Pending) -> (Request, Onward)
        requires { IsTrue (is_access step.now) }
        ensures { Leads here.now.cpu here.now.image.now (shows step.now self.now) result.0
            (gone_on here.now.image.now result.1 self.now) }
    {
        let thread = self.thread();
        match *step {
            Pending::Store { addr, size, value } => {
                if self.allows(here.image, Access::Write, addr.0, size) {
                    let act = MemoryAct::Store {
                        thread,
                        addr,
                        size,
                        value,
                    };
                    return (Request::Memory(act), Onward::GoesOn);
                }
                let access = Access::Write;
                let act = MemoryAct::Fault {
                    thread,
                    access,
                    addr,
                    size,
                };
                (Request::Memory(act), Onward::Faults)
            }
            Pending::Fetch { addr } => {
                if self.allows(here.image, Access::Exec, addr.0, 4) {
                    return (
                        Request::Memory(MemoryAct::Fetch { thread, addr }),
                        Onward::GoesOn,
                    );
                }
                let access = Access::Exec;
                let act = MemoryAct::Fault {
                    thread,
                    access,
                    addr,
                    size: 4,
                };
                (Request::Memory(act), Onward::Faults)
            }
            Pending::Probe { addr, amount } => {
                let size = self.amount(here.image, &amount);
                let fits = self.allows(here.image, Access::Write, addr.0, size);
                let act = MemoryAct::Probe {
                    thread,
                    addr,
                    size,
                    fits,
                };
                if fits {
                    return (Request::Memory(act), Onward::GoesOn);
                }
                (Request::Memory(act), Onward::CopyFails)
            }
            _ => unreachable!(),
        }
    }

    /// What the event of such a step asks for, or `None` if the step names no row.
    fn event_request(&self, here: &Here, step: &Pending) -> Option<(Request, Onward)>
        requires { IsTrue (is_quiet step.now) }
        ensures { MatchOption result
            (IsStuck here.now.image.now (shows step.now self.now))
            (λ asked. Leads here.now.cpu here.now.image.now (shows step.now self.now) asked.0
            (gone_on here.now.image.now asked.1 self.now)) }
    {
        let thread = self.thread();
        match *step {
            Pending::Grant { who, addr } => {
                let act = RowAct::Grant { thread, who, addr };
                plainly(Request::Row(Row(row_named(here.image, addr)), act))
            }
            Pending::Publish { addr } => {
                let act = RowAct::Publish { thread, addr };
                plainly(Request::Row(Row(row_named(here.image, addr)), act))
            }
            Pending::Born { addr } => {
                let act = RowAct::Born { thread, addr };
                plainly(Request::Row(Row(row_named(here.image, addr)), act))
            }
            Pending::Own { who } => {
                let x = own_row(here.image, who);
                if x >= ROWS {
                    return None;
                }
                plainly(Request::Row(Row(x as u8), RowAct::Own { thread, who }))
            }
            Pending::Erase { stack } => plainly(Request::Memory(MemoryAct::Erase {
                thread,
                stack,
            })),
            Pending::Unbuffer { size } => {
                let charge = cost_of(self.context.pool(), size);
                plainly(Request::Heap(HeapAct::Unbuffer { thread, size }, charge))
            }
            Pending::Start { who, mode, .. } => {
                let domain = self.domain;
                let act = ThreadAct::Start {
                    thread,
                    who,
                    mode,
                    domain,
                };
                plainly(Request::Thread(who, act))
            }
            Pending::EnterUser { script } => {
                let request = Request::Thread(thread, ThreadAct::EnterUser { thread });
                Some((request, Onward::EntersUser(script)))
            }
            Pending::Dooms { from } => {
                let who = ThreadIx(from);
                let request = Request::Thread(who, ThreadAct::Doom { thread, who });
                Some((request, Onward::Dooms(from)))
            }
            Pending::Store { .. } | Pending::Fetch { .. } | Pending::Probe { .. } => Some(
                self.access_request(here, step),
            ),
            _ => Some((self.edit_request(here, step), Onward::Replies)),
        }
    }

    /// Goes on after such a step.
    #[inline(always)]
    fn goes(&mut self, image: &Image, onward: Onward)
        ensures { processor_of self.new ≡ gone_on image.now onward self.old }
    {
        let thread = self.context.thread();
        match onward {
            Onward::GoesOn => self.goes_on(image),
            Onward::Faults => {
                self.context.faults(image);
                self.leaves(image, thread);
            }
            Onward::CopyFails => {
                self.context.fails_to_copy(image);
                self.leaves(image, thread);
            }
            Onward::Replies => {
                let taken = self.taken();
                self.context.replies(image, self.reply, taken);
                self.leaves(image, thread);
            }
            Onward::EntersUser(script) => {
                self.context.enters_user(image, script);
                self.leaves(image, thread);
            }
            Onward::Dooms(from) => {
                self.context.dooms(from);
                self.leaves(image, thread);
            }
            Onward::Expands => self.expands(image),
            Onward::EndsAct => self.ends_act(image),
            Onward::To(phase) => self.phase = phase,
        }
    }

    /// Makes the event of such a step.
    #[inline(never)]
    pub fn show_quiet<S: Sites>(&mut self, here: &Here, step: &Pending, sites: &mut S) -> Turn
        requires quiet { IsTrue (is_quiet step.now) }
        requires goes { CanTurn S.Sites here.now sites.old (shows step.now self.old) }
        ensures turn { HasRun S.Sites result here.now sites.old sites.new
            (shows step.now self.old) self.old self.new }
    {
        let (request, onward) = match self.event_request(here, step) {
            None => return Turn::Stuck,
            Some(asked) => asked,
        };
        took!(request.make(here, &mut self.spare, sites));
        self.goes(here.image, onward);
        Turn::Made
    }

    /// Makes a fine step before or after an event, as a request.
    #[inline(always)]
    pub fn ask<S: Sites>(
        &mut self,
        here: &Here,
        request: &Request,
        onward: Onward,
        sites: &mut S,
    ) -> Turn
        requires leads { Leads here.now.cpu here.now.image.now (processor_of self.old) request.now
            (gone_on here.now.image.now onward self.old) }
        requires goes { CanTurn S.Sites here.now sites.old (processor_of self.old) }
        ensures turn { HasRun S.Sites result here.now sites.old sites.new
            (processor_of self.old) self.old self.new }
    {
        took!(request.make(here, &mut self.spare, sites));
        self.goes(here.image, onward);
        Turn::Made
    }
}
