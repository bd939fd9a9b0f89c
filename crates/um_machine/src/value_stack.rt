//! What a stack keeps.

ghost use Rattle.std.specs.Prelude.{◌≡◌, ◌<◌, ◌≤◌, [], ◌∷◌, ◌++◌, ◌==◌, length, IsTrue};
ghost use Rattle.um_machine.specs.Contents.{TakesLast};

use std::marker::Model;

/// How many values a stack has at most.
const MOST: usize = 64;

/// A stack: how many values it holds at most, and those in it, the newest last.
#[derive(Drop)]
pub struct ValueStack {
    most: u32,
    items: [u32; MOST],
    len: usize,
}

impl Model for ValueStack {
    ghost use Rattle.std.specs.Prelude.{◌≡◌, ◌≤◌, length, take};
    ghost use Rattle.um_machine.specs.{Contents.{Stack}, declared.value_stack.TheConstants.{MOST}};

    ghost Value = { Stack };

    ghost view = { λ s. record { most = s.most; values = take s.len s.items } };

    ghost invariant = { λ s. (s.most ≤ MOST) × (s.len ≤ MOST) × (length s.items ≡ MOST) };
}

impl ValueStack {
    /// An empty stack for at most so many values.
    pub fn new(most: u32) -> ValueStack
        requires { most ≤ 64 }
        ensures { result ≡ record { most = most; values = [] } }
    {
        ValueStack {
            most,
            items: [0; MOST],
            len: 0,
        }
    }

    /// How many values it holds at most.
    pub fn most(&self) -> u32
        ensures value { result ≡ self.now.most }
        ensures few { result ≤ 64 }
    {
        self.most
    }

    /// The values, the newest last.
    pub fn values(&self) -> &[u32]
        ensures value { result.now ≡ self.now.values }
        ensures few { length result.now ≤ 64 }
    {
        &self.items[..self.len]
    }

    /// The same stack once more.
    pub fn copy(&self) -> ValueStack
        ensures { result ≡ self.now }
    {
        ValueStack {
            most: self.most,
            items: self.items,
            len: self.len,
        }
    }

    /// Whether two stacks are the same.
    pub fn is_same(&self, other: &ValueStack) -> bool
        ensures { IsTrue result → self.now ≡ other.now }
    {
        if self.most != other.most {
            return false;
        }
        self.values() == other.values()
    }

    /// How many values are in it.
    pub fn len(&self) -> usize
        ensures value { result ≡ length self.now.values }
        ensures few { result ≤ 64 }
    {
        self.len
    }

    /// Puts a value on top.
    pub fn push(&mut self, value: u32)
        requires { length self.old.values < 64 }
        ensures { self.new ≡ record self.old { values = self.old.values ++ value ∷ [] } }
    {
        self.items[self.len] = value;
        self.len += 1;
    }

    /// Takes the value on top.
    pub fn pop(&mut self) -> Option<u32>
        ensures { TakesLast self.old self.new result }
    {
        if self.len == 0 {
            return None;
        }
        self.len -= 1;
        Some(self.items[self.len])
    }
}
