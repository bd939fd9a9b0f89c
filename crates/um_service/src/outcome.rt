//! What an act answers, and whom it wakes.

ghost use Rattle.std.specs.Prelude.{◌≡◌, ◌<◌, ◌≤◌, [], ◌∷◌, ◌++◌, length};
ghost use Rattle.um_base.specs.declared.act.Answer.TheVariants as Answer;
ghost use Rattle.um_base.specs.declared.names.Reply.TheVariants as Reply;
ghost use Rattle.um_base.specs.Short.{IsShort};
ghost use Rattle.um_machine.specs.Table.{replies_of};

use std::marker::Model;
use um_base::{Answer, Piece, Replies, Reply, THREADS, ThreadIx, Told};

/// The woken threads, in the order of waking, each with what it is told: an error, or a number up to 256.
#[derive(Drop)]
pub struct Woken {
    items: [(ThreadIx, Told); THREADS],
    len: usize,
}

impl Model for Woken {
    ghost use Rattle.std.specs.Prelude.{List, ◌≡◌, ◌≤◌, length, take};
    ghost use Rattle.um_base.specs.declared.{
      ask.Told.{Told},
      limits.TheConstants.{THREADS},
      names.ThreadIx.{ThreadIx},
    };
    ghost use Rattle.um_service.specs.Told.{AreShort};

    ghost Value = { List (ThreadIx × Told) };

    ghost view = { λ w. take w.len w.items };

    ghost invariant = { λ w. (w.len ≤ THREADS) × (length w.items ≡ THREADS) × AreShort (take w.len w.items) };
}

impl Woken {
    ghost use Rattle.um_service.specs.Told.{AreShort};

    /// An empty list.
    pub fn new() -> Woken
        ensures { result ≡ [] }
    {
        let nobody = (
            ThreadIx(0),
            Told {
                reply: Reply::Void,
                taken: Piece::new(),
            },
        );
        Woken {
            items: [nobody; THREADS],
            len: 0,
        }
    }

    /// The woken, the first one first.
    pub fn as_slice(&self) -> &[(ThreadIx, Told)]
        ensures value { result.now ≡ self.now }
        ensures few { length result.now ≤ THREADS }
        ensures short { AreShort result.now }
    {
        &self.items[..self.len]
    }

    /// How many are woken.
    pub fn len(&self) -> usize
        ensures value { result ≡ length self.now }
        ensures few { result ≤ THREADS }
    {
        self.len
    }

    /// Empties the list.
    pub fn clear(&mut self)
        ensures { self.new ≡ [] }
    {
        self.len = 0;
    }

    /// Adds a woken thread with what it is told.
    pub fn push(&mut self, thread: ThreadIx, told: &Told)
        requires room { length self.old < THREADS }
        requires short { IsShort told.now.reply }
        ensures { self.new ≡ self.old ++ (thread, told.now) ∷ [] }
    {
        self.items[self.len] = (thread, *told);
        self.len += 1;
    }

    /// What the woken are told, without the bytes that they take.
    #[inline(never)]
    pub fn replies(&self) -> Replies
        ensures { result ≡ replies_of self.now }
    {
        let woken = self.as_slice();
        let mut replies = Replies::new();
        for i in 0..woken.len() {
            let (thread, told) = &woken[i];
            replies.push(*thread, told.reply);
        }
        replies
    }
}

/// What an act answers its caller, the bytes that the caller takes, and the woken.
#[derive(Drop)]
pub struct Outcome {
    pub answer: Answer,
    pub taken: Piece,
    pub woken: Woken,
}

impl Outcome {
    /// An empty outcome, for an act to write over.
    pub fn new() -> Outcome
        ensures { result ≡ record { answer = Answer.Now Reply.Void; taken = []; woken = [] } }
    {
        Outcome {
            answer: Answer::Now(Reply::Void),
            taken: Piece::new(),
            woken: Woken::new(),
        }
    }

    /// Writes this answer, with no bytes and nobody woken, over what was there.
    pub fn answers(&mut self, answer: Answer)
        ensures { self.new ≡ record { answer = answer; taken = []; woken = [] } }
    {
        self.answer = answer;
        if self.taken.len() > 0 {
            self.taken = Piece::new();
        }
        self.woken.clear();
    }

    /// Writes this answer and these bytes, with nobody woken, over what was there.
    pub fn becomes(&mut self, answer: Answer, taken: &Piece)
        ensures { self.new ≡ record { answer = answer; taken = taken.now; woken = [] } }
    {
        self.answer = answer;
        self.taken = *taken;
        self.woken.clear();
    }
}
