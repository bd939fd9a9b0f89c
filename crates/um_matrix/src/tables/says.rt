//! What the steps say.

ghost use Rattle.std.specs.Prelude.{◌≡◌, ◌<◌, ◌≤◌, ℕ};
ghost use Rattle.um_base.specs.Places.{addr_of};
ghost use Rattle.um_machine.specs.{Limits.{IsSound}, Order.{to_addr}};
ghost use Rattle.um_matrix.specs.Offered.{row_count};

use crate::tables::Tables;
use crate::tables::checks::set_said;
use um_base::{Access, Act, Addr, Kind, ROWS, THREADS, ThreadIx};
use um_machine::Pending;
use um_service::says_run_out;
use um_steps::bytes::le_value;
use um_steps::rows::addr_of;

impl<'a> Tables<'a> {
    ghost use Rattle.um_machine.specs.{State.{thread_at}, Table.{act_of}};

    fn says_load(&self, t: usize, a: Addr, n: u32, act: &mut Act)
        requires thread { t < THREADS }
        requires few { n ≤ 4 }
        ensures { (x to : ℕ) → act.new ≡ act_of self.now t x (Pending.Load to a n) }
    {
        if self.allowed(t, Access::Read, a.0, n) {
            *act = Act::Load {
                addr: a,
                size: n,
                value: le_value(self.bytes_at(a.0, n)),
            };
        } else {
            *act = Act::Fault {
                access: Access::Read,
                addr: a,
                size: n,
            };
        }
    }

    fn says_store(&self, t: usize, a: Addr, n: u32, value: u32, act: &mut Act)
        requires { t < THREADS }
        ensures { (x : ℕ) → act.new ≡ act_of self.now t x (Pending.Store a n value) }
    {
        if self.allowed(t, Access::Write, a.0, n) {
            *act = Act::Store {
                addr: a,
                size: n,
                value,
            };
        } else {
            *act = Act::Fault {
                access: Access::Write,
                addr: a,
                size: n,
            };
        }
    }

    fn says_fetch(&self, t: usize, a: Addr, act: &mut Act)
        requires { t < THREADS }
        ensures { (x : ℕ) → act.new ≡ act_of self.now t x (Pending.Fetch a) }
    {
        if self.allowed(t, Access::Exec, a.0, 4) {
            *act = Act::Fetch { addr: a };
        } else {
            *act = Act::Fault {
                access: Access::Exec,
                addr: a,
                size: 4,
            };
        }
    }

    fn says_copy_out(&self, t: usize, a: Addr, act: &mut Act)
        requires { t < THREADS }
        ensures { (x : ℕ) → act.new ≡ act_of self.now t x (Pending.CopyOut a) }
    {
        let size = self.threads[t].buffer.len() as u32;
        *act = Act::CopyOut {
            addr: a,
            size,
            fits: self.allowed(t, Access::Write, a.0, size),
        };
    }

    fn says_reserve(&self, t: usize, x: usize, kind: Kind, act: &mut Act)
        requires { x < ROWS }
        ensures { act.new ≡ act_of self.now t x (Pending.Reserve kind) }
    {
        *act = Act::Reserve {
            kind,
            addr: if x == 0 { None } else { Some(self.addr_of(x)) },
        };
    }

    /// The address of a row.
    fn addr_of(&self, x: usize) -> Addr
        requires { x < ROWS }
        ensures { result ≡ to_addr (addr_of self.now.image x) }
    {
        Addr(addr_of(self.image, x))
    }

    /// Writes what a step says, with the row that it chooses, where it does.
    pub(crate) fn puts_said(&self, t: usize, x: usize, step: &Pending, act: &mut Act)
        requires thread { t < THREADS }
        requires row { x < row_count step.now }
        requires sound { IsSound step.now }
        ensures { act.new ≡ act_of self.now t x step.now }
    {
        match step {
            Pending::Begin | Pending::Exit => unreachable!(),
            Pending::Check {
                addr,
                kind,
                want,
                ..
            } => *act = Act::Check {
                addr: *addr,
                kind: *kind,
                want: *want,
                verdict: self.verdict(t, *addr, *kind, *want),
            },
            Pending::Load { addr, size, .. } => self.says_load(t, *addr, *size, act),
            Pending::Store { addr, size, value } => self.says_store(t, *addr, *size, *value, act),
            Pending::Fetch { addr } => self.says_fetch(t, *addr, act),
            Pending::Probe { addr, amount } => {
                let size = self.amount_of(*amount);
                *act = Act::Probe {
                    addr: *addr,
                    size,
                    fits: self.allowed(t, Access::Write, addr.0, size),
                };
            }
            Pending::CopyIn { addr, amount } => {
                let size = self.amount_of(*amount);
                *act = Act::CopyIn {
                    addr: *addr,
                    size,
                    fits: self.allowed(t, Access::Read, addr.0, size),
                };
            }
            Pending::CopyOut { addr } => self.says_copy_out(t, *addr, act),
            Pending::CopyStr { addr } => *act = Act::CopyStr {
                addr: *addr,
                found: self.string_read(t, addr.0),
            },
            Pending::Erase { stack } => *act = Act::Erase { stack: *stack },
            Pending::Work { addr, ask } => self.says_work(t, *addr, ask, act),
            Pending::Resume => *act = Act::Resume,
            Pending::Answer { reply, .. } => *act = Act::Answered {
                reply: reply.unwrap_or(self.threads[t].reply),
            },
            Pending::Grant { who, addr } => *act = Act::Grant {
                who: *who,
                addr: *addr,
                given: self.given(self.row_of(*addr)),
            },
            Pending::Own { who } => *act = Act::Own {
                who: *who,
                given: self.given(self.own_row(*who)),
            },
            Pending::Inherit { who } => *act = Act::Inherit {
                who: *who,
                addr: self.addr_of(x),
            },
            Pending::DropPair { who, addr } => *act = Act::DropPair {
                who: *who,
                addr: *addr,
                left: self.dropped(who.0 as usize, self.row_of(*addr)),
            },
            Pending::Publish { addr } => *act = Act::Publish {
                addr: *addr,
                given: self.given(self.row_of(*addr)),
            },
            Pending::SetInit { addr, strict, .. } => *act = Act::SetInit {
                addr: *addr,
                set: set_said(self.objects.row(self.row_of(*addr)), *strict),
            },
            Pending::ClearInit { addr } => *act = Act::ClearInit { addr: *addr },
            Pending::Named { who } => *act = Act::Named { who: *who },
            Pending::Reserve { kind } => self.says_reserve(t, x, *kind, act),
            Pending::Born { addr } => *act = Act::Born { addr: *addr },
            Pending::Buffer { size } => *act = Act::Buffer {
                size: *size,
                fits: self.pays(self.threads[t].pool, *size),
            },
            Pending::Unbuffer { size } => *act = Act::Unbuffer { size: *size },
            Pending::DomInit { domain, parts } => self.says_domain_init(*domain, parts, act),
            Pending::DomAdd {
                domain,
                range,
                attr,
            } => self.says_domain_add(*domain, *range, *attr, act),
            Pending::DomRemove {
                domain,
                range,
                attr,
            } => self.says_domain_remove(*domain, *range, *attr, act),
            Pending::DomMove { domain, who } => *act = Act::DomMove {
                domain: *domain,
                who: *who,
                reply: self.move_reply(*domain),
            },
            Pending::Start { who, .. } => *act = Act::Start { who: *who },
            Pending::EnterUser { .. } => *act = Act::EnterUser,
            Pending::Fatal { reason, cause } => *act = Act::Fatal {
                reason: *reason,
                cause: *cause,
            },
            Pending::Drops { .. } => *act = Act::DropPair {
                who: ThreadIx(t as u8),
                addr: self.addr_of(x),
                left: self.dropped(t, x),
            },
            Pending::Dooms { from } => *act = Act::Doom {
                who: ThreadIx(*from),
            },
            Pending::CleanPair { who } => *act = Act::DropPair {
                who: *who,
                addr: self.addr_of(x),
                left: self.dropped(who.0 as usize, x),
            },
            Pending::Recycle => *act = Act::Recycle {
                addr: self.addr_of(x),
            },
            Pending::Arm { ticks } | Pending::ArmTimer { ticks } => *act = Act::Arm {
                deadline: self.clock.deadline(*ticks),
            },
            Pending::Tick => self.says_tick(act),
            Pending::TimeOut { who } => *act = Act::TimedOut { who: *who },
            Pending::Expire => *act = Act::Expire {
                addr: self.addr_of(x),
                woken: says_run_out(&self.objects.row(x).waiters),
            },
            Pending::Abort { who } => *act = Act::Abort {
                who: *who,
                done: self.lives(*who),
            },
            Pending::Suspend { who } => *act = Act::Suspend {
                who: *who,
                done: self.lives(*who),
            },
            Pending::Continue { who } => *act = Act::Continue {
                who: *who,
                done: self.lives(*who),
            },
            Pending::Cut { who } => *act = Act::Cut { who: *who },
            Pending::Killed => *act = Act::Killed,
            Pending::Join { who, timeout } => *act = Act::Join {
                who: *who,
                answer: self.join_answer(t, x, *who, *timeout),
            },
            Pending::Left => self.says_left(t, act),
            Pending::FutexWait {
                addr,
                value,
                timeout,
            } => *act = Act::FutexWait {
                addr: *addr,
                value: *value,
                answer: self.futex_answer(t, *addr, *value, *timeout),
            },
            Pending::FutexWake { addr, all } => self.says_futex_wake(t, *addr, *all, act),
        }
    }
    /// What a step says, with the row that it chooses, where it does.
    pub fn says(&self, t: usize, x: usize, step: &Pending) -> Act
        requires thread { t < THREADS }
        requires row { x < row_count step.now }
        requires sound { IsSound step.now }
        ensures { result ≡ act_of self.now t x step.now }
    {
        let mut act = Act::Resume;
        self.puts_said(t, x, step, &mut act);
        act
    }
}
