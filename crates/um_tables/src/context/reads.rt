//! What a processor reads of a thread's own part.

ghost use Rattle.std.specs.{
  Prelude.{◌≡◌, ◌<◌, ◌≤◌, ◌∷◌, [], drop, is_some, length, nat_lt, unwrap_or, IfSome, MatchOption},
  List.{All},
};
ghost use Rattle.um_base.specs.declared.limits.TheConstants.{ROWS};
ghost use Rattle.um_machine.specs.{Limits.{IsSound}, State.{instruction_at}};
ghost use Rattle.um_fine.specs.Continues.{reply_of};
ghost use Rattle.um_tables.specs.Seekers.{seeker_of};

use crate::context::Context;
use crate::seeker::Seeker;
use um_base::{Image, Mode, Piece, Reply, Row, ThreadIx};
use um_machine::places::instruction_at;
use um_machine::{Pending, Place};

impl Context {
    /// The next step.
    #[tactic(auto, using(crate::proofs::Fronts::first_is))]
    pub fn first(&self) -> Option<Pending>
        ensures step { MatchOption result (self.now.pending ≡ [])
            (λ step. self.now.pending ≡ step ∷ drop 1 self.now.pending) }
        ensures sound { IfSome result IsSound }
    {
        self.own.pending.first()
    }

    /// The step after the next one.
    #[tactic(auto, using(crate::proofs::Fronts::second_is))]
    pub fn second(&self) -> Option<Pending>
        ensures step { MatchOption result (drop 1 self.now.pending ≡ [])
            (λ step. drop 1 self.now.pending ≡ step ∷ drop 2 self.now.pending) }
        ensures sound { IfSome result IsSound }
    {
        self.own.pending.second()
    }

    /// The step after that one. The steps stay as they are.
    #[tactic(auto, using(crate::proofs::Fronts::third_is, crate::proofs::Fronts::put_back_twice))]
    pub fn third(&mut self) -> Option<Pending>
        ensures step { MatchOption result (drop 2 self.old.pending ≡ [])
            (λ step. drop 2 self.old.pending ≡ step ∷ drop 3 self.old.pending) }
        ensures same { self.new ≡ self.old }
    {
        let _few = self.own.pending.len();
        let first = match self.own.pending.first() {
            None => return None,
            Some(first) => first,
        };
        let second = match self.own.pending.second() {
            None => return None,
            Some(second) => second,
        };
        self.own.pending.skip(2);
        let third = self.own.pending.first();
        self.own.pending.push(&second);
        self.own.pending.push(&first);
        third
    }

    pub fn mode(&self) -> Mode
        ensures { result ≡ self.now.mode }
    {
        self.own.mode
    }

    /// The row of its thread stack.
    pub fn stack(&self) -> Row
        ensures { result ≡ self.now.stack }
    {
        self.own.stack
    }

    /// Its priority, -16 to 14. A lower number is a higher priority.
    pub fn priority(&self) -> i8
        ensures { result ≡ self.now.priority }
    {
        self.own.priority
    }

    /// The number of its resource pool.
    pub fn pool(&self) -> Option<u8>
        ensures { result ≡ self.now.pool }
    {
        self.own.pool
    }

    /// The line that it makes, or makes next where it is at rest.
    pub fn place(&self) -> Place
        ensures { result ≡ self.now.place }
    {
        self.own.place
    }

    /// Whether a line stands at its place. Where none does, its thread exits next.
    pub fn has_line(&self, image: &Image) -> bool
        ensures { result ≡ is_some (instruction_at image.now self.now.place) }
    {
        instruction_at(image, self.own.place).is_some()
    }

    /// The reply that a step names, or the one that its call has worked out.
    pub fn reply_of(&self, image: &Image, reply: Option<Reply>) -> Reply
        ensures { result ≡ reply_of image.now self.now reply }
    {
        reply.unwrap_or(self.own.reply)
    }

    /// The bytes that its call copies.
    pub fn buffer(&self) -> &Piece
        ensures { result.now ≡ self.now.buffer }
    {
        &self.own.buffer
    }

    /// The deadline that its call has armed.
    pub fn until(&self) -> Option<u64>
        ensures { result ≡ self.now.until }
    {
        self.own.until
    }

    /// The number of the step by which its word notes a cell.
    pub fn noted(&self) -> Option<u32>
        ensures { result ≡ self.now.noted }
    {
        self.noted
    }

    /// The number of its note, or 0.
    pub fn note_number(&self) -> u32
        ensures { result ≡ unwrap_or self.now.noted 0 }
    {
        self.noted.unwrap_or(0)
    }

    /// As a thread that asks no object, and may begin to wait.
    pub fn seeker(&self) -> Seeker
        ensures { result ≡ seeker_of self.now }
    {
        Seeker {
            thread: ThreadIx(self.thread),
            priority: self.own.priority,
            until: self.own.until,
            noted: self.note_number(),
        }
    }

    /// The rows that its call holds, in the order of the checks.
    pub fn claims(&self) -> &[u8]
        ensures value { result.now ≡ self.now.claims }
        ensures few { length result.now ≤ 2 }
        ensures rows { All (λ x. x < ROWS) result.now }
    {
        self.claims.as_slice()
    }

    /// Whether its call may hold one more object.
    pub fn has_room(&self) -> bool
        ensures { result ≡ nat_lt (length self.now.claims) 2 }
    {
        self.claims.len() < 2
    }
}
