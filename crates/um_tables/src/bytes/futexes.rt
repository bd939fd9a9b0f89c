//! Calls on futexes, and looks for those who wait on one.

ghost use Rattle.std.specs.Prelude.{◌≡◌, ◌<◌};
ghost use Rattle.um_base.specs.declared.limits.TheConstants.{THREADS};
ghost use Rattle.um_base.specs.declared.act.Act.TheVariants as Act;
ghost use Rattle.um_machine.specs.{Memory.{rodata_of}, Table.{replies_of}};
ghost use Rattle.um_fine.specs.{
  Memory.{memory_after, refusal_of, wait_answer, wake_says, woken_on},
  Seeking.{finds},
  Steps.{Exchange},
};
ghost use Rattle.um_tables.specs.{
  FutexActs.{wait_more, wait_sent, wake_more},
  Looks.{left_by, look_sent},
};

use crate::bytes::Bytes;
use crate::futex_act::{FutexWait, FutexWake};
use crate::look::Look;
use crate::slots::put;
use um_base::{Addr, Answer, Ask, Errno, Image};
use um_machine::Waiters;
use um_service::{Woken, wake_futex};
use um_steps::bytes::le_value;
use um_steps::futexes::{futex_wait, is_futex, wake_answer};

/// Why a call on the futex at an address is refused, if it is.
fn refusal_of(image: &Image, allowed: bool, addr: Addr) -> Option<Errno>
    ensures { result ≡ refusal_of image.now allowed addr.0 }
{
    if !allowed {
        Some(Errno::EACCES)
    } else if !is_futex(image, addr.0) {
        Some(Errno::EINVAL)
    } else {
        None
    }
}

impl Bytes {
    /// A thread waits on a futex, if the number there is the one that it gives. Returns the answer.
    pub fn wait(&mut self, image: &Image, rodata: &[u8], act: &FutexWait) -> Answer
        requires rodata { rodata.now ≡ rodata_of image.now }
        requires thread { act.now.seeker.thread.0 < THREADS }
        ensures answer { result ≡ wait_answer image.now self.old (wait_more act.now) act.now.addr.0 act.now.value }
        ensures left { self.new ≡ memory_after image.now self.old (Act.FutexWait act.now.addr act.now.value result) (wait_sent act.now) }
    {
        let refusal = refusal_of(image, act.allowed, act.addr);
        let found = le_value(self.read(image, rodata, act.addr.0, 4));
        let answer = futex_wait(act.value, found, act.timeout, refusal);
        match answer {
            Answer::Wait => {
                let waiter = act.seeker.seeks(Ask::FutexWait { addr: act.addr });
                self.futexes.wait(&waiter);
                put(
                    &mut self.noted,
                    act.seeker.thread.0 as usize,
                    act.seeker.noted,
                );
            }
            Answer::Now(_) => {}
        }
        answer
    }

    /// Those who wait on a futex, or the one that is served first, are woken. Returns the answer, and writes who they are.
    #[tactic(auto, using(crate::proofs::Told::same_others, crate::proofs::Told::nobody_less))]
    pub fn wake(&mut self, image: &Image, act: &FutexWake, woken: &mut Woken) -> Answer
        ensures answer { result ≡ wake_says image.now self.old (wake_more act.now) act.now.addr.0 }
        ensures woken { woken.new ≡ woken_on image.now self.old (wake_more act.now) act.now.addr.0 }
        ensures left { self.new ≡ memory_after image.now self.old
            (Act.FutexWake act.now.addr result (replies_of woken.new)) Exchange.nothing }
    {
        let refusal = refusal_of(image, act.allowed, act.addr);
        if refusal.is_some() {
            woken.clear();
            return wake_answer(refusal, 0);
        }
        wake_futex(&mut self.futexes, act.addr, act.all, woken);
        wake_answer(refusal, woken.len() as u32)
    }

    /// Takes a thread out that is looked for, if it waits here. Returns whether it did.
    pub fn look(&mut self, look: &Look) -> bool
        ensures found { result ≡ finds self.old.futexes self.old.noted (look_sent look.now) }
        ensures left { self.new ≡ record self.old { futexes = left_by result look.now self.old.futexes } }
    {
        look.take_out(&mut self.futexes, &self.noted)
    }

    /// Those who wait on a futex.
    pub fn futexes(&self) -> &Waiters
        ensures { result.now ≡ self.now.futexes }
    {
        &self.futexes
    }
}
