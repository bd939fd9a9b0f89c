//! What the steps change.

ghost use Rattle.std.specs.Prelude.{◌≡◌, ◌<◌, ◌≤◌, [], IsTrue, drop, length};
ghost use Rattle.um_base.specs.declared.limits.TheConstants.{MOST_WEIGHT};
ghost use Rattle.um_machine.specs.Limits.{IsSound};
ghost use Rattle.um_base.specs.declared.act.Act.{Act};
ghost use Rattle.um_matrix.specs.Offered.{is_tending, row_count};

use crate::tables::Tables;
use crate::tables::choice::Choice;
use crate::tables::creation::Beginning;
use um_base::{Act, THREADS};
use um_machine::Pending;

impl<'a> Tables<'a> {
    ghost use Rattle.um_machine.specs.{State.{thread_at}, Table.{after}};
    ghost use Rattle.um_matrix.specs.Offered.{IsChoice, after_choice};

    /// Makes what was chosen of an act.
    pub(crate) fn make_choice(&mut self, t: usize, choice: &Choice)
        requires thread { t < THREADS }
        requires chosen { (act : Act) × IsChoice self.old t act choice.now }
        requires room { length (after_choice self.old t choice.now).armed ≤ MOST_WEIGHT }
        ensures { self.new ≡ after_choice self.old t choice.now }
    {
        match choice {
            Choice::Begins => self.begin(t),
            Choice::Exits => self.exit(t),
            Choice::Stops => self.killed(t),
            Choice::Leaves => self.left(t),
            Choice::Makes { step, row, taken } => self.make(t, *row, step, *taken),
            Choice::Tends { step, row } => self.tend(t, *row, step),
        }
    }

    /// Makes a step, with the row that it chooses if it chooses one. `taken` of the thread's pending steps are over then.
    fn make(&mut self, t: usize, x: usize, step: &Pending, taken: usize)
        requires thread { t < THREADS }
        requires row { x < row_count step.now }
        requires room { length (after self.old t x step.now (drop taken (thread_at self.old t).pending)).armed
            ≤ MOST_WEIGHT }
        requires sound { IsSound step.now }
        requires taken { 0 < taken }
        ensures { self.new ≡ after self.old t x step.now (drop taken (thread_at self.old t).pending) }
    {
        match step {
            Pending::Begin | Pending::Exit => unreachable!(),
            Pending::Check {
                addr,
                kind,
                want,
                refusal,
            } => self.check(t, *addr, *kind, *want, *refusal, taken),
            Pending::Load { to, addr, size } => self.load(t, *to, *addr, *size, taken),
            Pending::Store { addr, size, value } => self.store(t, *addr, *size, *value, taken),
            Pending::Fetch { addr } => self.fetch(t, *addr, taken),
            Pending::Probe { addr, amount } => self.probe(t, *addr, *amount, taken),
            Pending::CopyIn { addr, amount } => self.copy_in(t, *addr, *amount, taken),
            Pending::CopyOut { addr } => self.copy_out(t, *addr, taken),
            Pending::CopyStr { addr } => self.copy_string(t, *addr, taken),
            Pending::Erase { stack } => self.erase(t, *stack, taken),
            Pending::Work { addr, ask } => {
                let mut said = Act::Resume;
                self.work(t, *addr, ask, taken, &mut said);
            }
            Pending::Resume => self.resume(t, taken),
            Pending::Answer { reply, to } => self.answer(t, *reply, *to, taken),
            Pending::Grant { who, addr } => self.grant(t, *who, *addr, taken),
            Pending::Own { who } => self.own(t, *who, taken),
            Pending::Inherit { who } => self.inherit(t, x, *who, taken),
            Pending::DropPair { who, addr } => self.drop_by_call(t, *who, *addr, taken),
            Pending::Publish { addr } => self.publish(t, *addr, taken),
            Pending::SetInit { addr, strict, undo } => {
                self.set_init(t, *addr, *strict, *undo, taken)
            }
            Pending::ClearInit { addr } => self.clear_init(t, *addr, taken),
            Pending::Named { who } => self.named(t, *who, taken),
            Pending::Reserve { kind } => self.reserve(t, x, *kind, taken),
            Pending::Born { addr } => self.born(t, *addr, taken),
            Pending::Buffer { size } => self.buffer(t, *size, taken),
            Pending::Unbuffer { size } => self.unbuffer(t, *size, taken),
            Pending::DomInit { domain, parts } => self.domain_init(t, *domain, parts, taken),
            Pending::DomAdd {
                domain,
                range,
                attr,
            } => self.domain_add(t, *domain, *range, *attr, taken),
            Pending::DomRemove {
                domain,
                range,
                attr,
            } => self.domain_remove(t, *domain, *range, *attr, taken),
            Pending::DomMove { domain, who } => self.domain_move(t, *domain, *who, taken),
            Pending::Start {
                who,
                script,
                stack,
                priority,
                mode,
            } => {
                let start = Beginning {
                    script: *script,
                    stack: *stack,
                    priority: *priority,
                    mode: *mode,
                };
                self.start(t, *who, start, taken);
            }
            Pending::EnterUser { script } => self.enter_user(t, *script, taken),
            Pending::Fatal { reason, cause } => self.fatal(t, *reason, *cause, taken),
            Pending::Drops { from } => self.end_drop(t, x, *from, taken),
            Pending::Dooms { from } => self.doom(t, *from, taken),
            Pending::CleanPair { who } => self.clean_pair(t, x, *who),
            Pending::Recycle => self.recycle(x),
            Pending::Arm { ticks } => self.arm(t, *ticks, taken),
            Pending::ArmTimer { ticks } => self.arm_timer(t, *ticks, taken),
            Pending::Tick => self.tick(),
            Pending::TimeOut { who } => self.time_out(x, *who),
            Pending::Expire => self.expire(x),
            Pending::Abort { who } => self.abort(t, *who, taken),
            Pending::Suspend { who } => self.suspend(t, *who, taken),
            Pending::Continue { who } => self.resume_other(t, *who, taken),
            Pending::Cut { who } => self.cut(x, *who),
            Pending::Killed => self.killed(t),
            Pending::Join { who, timeout } => self.join(t, x, *who, *timeout, taken),
            Pending::Left => self.left(t),
            Pending::FutexWait {
                addr,
                value,
                timeout,
            } => self.futex_wait(t, *addr, *value, *timeout, taken),
            Pending::FutexWake { addr, all } => self.futex_wake(t, *addr, *all, taken),
        }
    }

    /// Makes a step that isn't of an instruction, with the row or cell that it chooses.
    fn tend(&mut self, t: usize, x: usize, step: &Pending)
        requires thread { t < THREADS }
        requires row { x < row_count step.now }
        requires tends { IsTrue (is_tending step.now) }
        ensures { self.new ≡ after self.old t x step.now [] }
    {
        match step {
            Pending::CleanPair { who } => self.clean_pair(t, x, *who),
            Pending::Recycle => self.recycle(x),
            Pending::Tick => self.tick(),
            Pending::TimeOut { who } => self.time_out(x, *who),
            Pending::Expire => self.expire(x),
            Pending::Cut { who } => self.cut(x, *who),
            _ => unreachable!(),
        }
    }
}
