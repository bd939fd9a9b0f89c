//! How a thread goes on in a call: after its checks, its work, its wait and its answer.

ghost use Rattle.std.specs.Prelude.{◌≡◌, ◌<◌, drop, length, IsTrue};
ghost use Rattle.um_base.specs.declared.limits.TheConstants.{ROWS};
ghost use Rattle.um_machine.specs.{
  Goes.{Next, checked_way, work_change, work_way},
  Limits.{is_sound_ask},
};
ghost use Rattle.um_fine.specs.Continues.{gone_part, reply_of, resumed};

use crate::context::Context;
use crate::pieces::copies;
use um_base::{Answer, Ask, Errno, Image, Piece, Reply, Told};
use um_machine::{Pending, Refusal};
use um_steps::order::{after_error, refused};
use um_steps::registers::put_answer;

impl Context {
    /// Goes on after a check of the address of a row: it holds the object there where the check is ok.
    pub fn checks(
        &mut self,
        image: &Image,
        row: u8,
        refusal: Refusal,
        verdict: Option<Errno>,
        taken: usize,
    )
        requires room { length self.old.claims < 2 }
        requires row { row < ROWS }
        ensures { self.new ≡ gone_part image.now (drop taken self.old.pending)
            (Next.checks row verdict
            (checked_way self.old.mode refusal verdict)) self.old }
    {
        let mode = self.own.mode;
        match verdict {
            None => {
                self.claims.push(row);
                self.own.goes_on(image, taken);
            }
            Some(e) => self.own.turns_to(&refused(mode, refusal, e)),
        }
    }

    /// Goes on after the work of its call: with its answer and these bytes, or it waits.
    pub fn works(&mut self, image: &Image, ask: &Ask, answer: Answer, bytes: &Piece, taken: usize)
        requires sound { IsTrue (is_sound_ask ask.now) }
        requires taken { 0 < taken }
        ensures { self.new ≡ gone_part image.now (drop taken self.old.pending)
            (Next.on (work_change answer bytes.now) (work_way self.old.mode ask.now answer)) self.old }
    {
        match answer {
            Answer::Wait => self.own.goes_to(&Pending::Resume, taken),
            Answer::Now(reply) => {
                self.own.reply = reply;
                copies(&mut self.own.buffer, bytes);
                match reply {
                    Reply::Fail(e) => after_error(image, &mut self.own, ask, e, taken),
                    _ => self.own.goes_on(image, taken),
                }
            }
        }
    }

    /// Goes on after it was woken.
    pub fn resumes(&mut self, image: &Image, told: &Told)
        ensures { self.new ≡ resumed image.now self.old told.now }
    {
        match self.own.pending.first() {
            Some(Pending::Resume) => {}
            _ => return,
        }
        self.own.reply = told.reply;
        copies(&mut self.own.buffer, &told.taken);
        match told.reply {
            Reply::Fail(_) => self.own.skips_copy(image, 1),
            _ => self.own.goes_on(image, 1),
        }
    }

    /// Goes on after its answer, and holds nothing any longer.
    pub fn answers(&mut self, image: &Image, reply: Option<Reply>, to: Option<u8>, taken: usize)
        ensures { self.new ≡ gone_part image.now (drop taken self.old.pending)
            (Next.answers to (reply_of image.now self.old reply)) self.old }
    {
        let reply = reply.unwrap_or(self.own.reply);
        self.claims.clear();
        self.own.until = None;
        self.noted = None;
        put_answer(&mut self.own.registers, to, reply);
        self.own.goes_on(image, taken);
    }
}
