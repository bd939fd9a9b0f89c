//! What a message queue keeps.

ghost use Rattle.std.specs.Prelude.{◌≡◌, ◌<◌, ◌≤◌, [], ◌∷◌, ◌++◌, length, slice_get, get_or, IfSome, IsTrue, List, ℕ};
ghost use Rattle.um_machine.specs.Contents.{TakesOldest};

use crate::same::same_piece;
use std::marker::Model;
use um_base::Piece;

/// How many messages a queue has at most.
const MOST: usize = 64;

/// A message queue: the bytes of a message, how many it holds at most, and those in it, the oldest first.
#[derive(Drop)]
pub struct MessageQueue {
    size: u32,
    most: u32,
    items: [Piece; MOST],
    oldest: usize,
    len: usize,
}

impl Model for MessageQueue {
    ghost use Rattle.std.specs.Prelude.{◌≡◌, ◌<◌, ◌≤◌, length};
    ghost use Rattle.um_machine.specs.{
      Contents.{Queue},
      Ring.{window},
      declared.message_queue.TheConstants.{MOST},
    };

    ghost Value = { Queue };

    ghost view = { λ q. record { size = q.size; most = q.most; messages = window q.oldest q.len q.items } };

    ghost invariant = { λ q. (q.most ≤ MOST) × (q.oldest < MOST) × (q.len ≤ MOST) × (length q.items ≡ MOST) };
}

impl MessageQueue {
    /// An empty queue for at most so many messages of so many bytes.
    pub fn new(size: u32, most: u32) -> MessageQueue
        requires { most ≤ 64 }
        ensures { result ≡ record { size = size; most = most; messages = [] } }
    {
        MessageQueue {
            size,
            most,
            items: [Piece::new(); MOST],
            oldest: 0,
            len: 0,
        }
    }

    /// The bytes of a message.
    pub fn size(&self) -> u32
        ensures { result ≡ self.now.size }
    {
        self.size
    }

    /// How many messages it holds at most.
    pub fn most(&self) -> u32
        ensures value { result ≡ self.now.most }
        ensures few { result ≤ 64 }
    {
        self.most
    }

    /// How many messages are in it.
    pub fn len(&self) -> usize
        ensures value { result ≡ length self.now.messages }
        ensures few { result ≤ 64 }
    {
        self.len
    }

    /// The oldest message.
    pub fn first(&self) -> Option<Piece>
        ensures { result ≡ slice_get self.now.messages 0 }
    {
        if self.len == 0 {
            None
        } else {
            Some(self.items[self.oldest])
        }
    }

    /// The same queue once more.
    pub fn copy(&self) -> MessageQueue
        ensures { result ≡ self.now }
    {
        MessageQueue {
            size: self.size,
            most: self.most,
            items: self.items,
            oldest: self.oldest,
            len: self.len,
        }
    }

    /// The message behind so many older ones.
    fn at(&self, i: usize) -> &Piece
        requires { i < length self.now.messages }
        ensures { (other : List ℕ) → result.now ≡ get_or self.now.messages i other }
    {
        &self.items[(self.oldest + i) % MOST]
    }

    /// Whether the messages are the same, of two queues that have equally many.
    fn has_same(&self, other: &MessageQueue) -> bool
        requires { length self.now.messages ≡ length other.now.messages }
        ensures { IsTrue result → self.now.messages ≡ other.now.messages }
    {
        for i in 0..self.len {
            if !same_piece(self.at(i), other.at(i)) {
                return false;
            }
        }
        true
    }

    /// Whether two queues are the same.
    pub fn is_same(&self, other: &MessageQueue) -> bool
        ensures { IsTrue result → self.now ≡ other.now }
    {
        if self.size != other.size || self.most != other.most || self.len != other.len {
            return false;
        }
        self.has_same(other)
    }

    /// Puts a message behind the others.
    pub fn push(&mut self, message: &Piece)
        requires { length self.old.messages < 64 }
        ensures { self.new ≡ record self.old { messages = self.old.messages ++ message.now ∷ [] } }
    {
        self.items[(self.oldest + self.len) % MOST] = *message;
        self.len += 1;
    }

    /// Takes the oldest message.
    pub fn pop(&mut self) -> Option<Piece>
        ensures taken { TakesOldest self.old self.new result }
        ensures room { IfSome result (λ _. length self.new.messages < 64) }
    {
        if self.len == 0 {
            return None;
        }
        let message = self.items[self.oldest];
        self.oldest = (self.oldest + 1) % MOST;
        self.len -= 1;
        Some(message)
    }

    /// Takes all messages out.
    pub fn clear(&mut self)
        ensures { self.new ≡ record self.old { messages = [] } }
    {
        self.len = 0;
    }
}
