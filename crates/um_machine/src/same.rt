//! Whether two threads, or two objects, are the same.

ghost use Rattle.std.specs.Prelude.{◌≡◌, IsTrue};
ghost use Rattle.um_machine.specs.Same.{HaveSameCall, HaveSameStanding};

use crate::contents::Contents;
use crate::object::{Cost, Object};
use crate::thread::{Place, Thread};
use um_base::{Piece, ROWS, Reply, ThreadIx, Told};

/// Whether two places are the same.
fn same_place(a: Place, b: Place) -> bool
    ensures { IsTrue result → a ≡ b }
{
    a == b
}

/// Whether two replies are the same.
fn same_reply(a: Reply, b: Reply) -> bool
    ensures { IsTrue result → a ≡ b }
{
    a == b
}

/// Whether two pieces are the same.
pub(crate) fn same_piece(a: &Piece, b: &Piece) -> bool
    ensures { IsTrue result → a.now ≡ b.now }
{
    a == b
}

/// Whether two threads were told the same.
fn same_told(a: &Option<Told>, b: &Option<Told>) -> bool
    ensures { IsTrue result → a.now ≡ b.now }
{
    a == b
}

/// Whether the same rows are marked.
fn same_rows(a: &[bool; ROWS], b: &[bool; ROWS]) -> bool
    ensures { IsTrue result → a.now ≡ b.now }
{
    a.as_slice() == b.as_slice()
}

/// Whether two costs are the same.
fn same_cost(a: Option<Cost>, b: Option<Cost>) -> bool
    ensures { IsTrue result → a ≡ b }
{
    a == b
}

/// Whether two threads, or none, are the same.
fn same_name(a: Option<ThreadIx>, b: Option<ThreadIx>) -> bool
    ensures { IsTrue result → a ≡ b }
{
    a == b
}

/// Whether two threads stand alike: their lives, marks, modes, domains, stacks, priorities and pools.
fn same_standing(a: &Thread, b: &Thread) -> bool
    ensures { IsTrue result → HaveSameStanding a.now b.now }
{
    if a.life != b.life || a.doomed != b.doomed || a.aborted != b.aborted {
        return false;
    }
    if a.suspended != b.suspended || a.mode != b.mode || a.domain != b.domain {
        return false;
    }
    if a.stack != b.stack || a.priority != b.priority || a.pool != b.pool {
        return false;
    }
    a.keeps_own == b.keeps_own
}

/// Whether two threads have come equally far in their calls, but for the steps that are left.
fn same_call(a: &Thread, b: &Thread) -> bool
    ensures { IsTrue result → HaveSameCall a.now b.now }
{
    if a.registers.as_slice() != b.registers.as_slice() || !same_place(a.place, b.place) {
        return false;
    }
    if !same_reply(a.reply, b.reply) || !same_piece(&a.buffer, &b.buffer) {
        return false;
    }
    if a.until != b.until || !same_told(&a.told, &b.told) || !same_name(a.child, b.child) {
        return false;
    }
    same_rows(&a.checked, &b.checked) && same_rows(&a.due, &b.due)
}

impl Thread {
    /// Whether two threads are the same.
    pub fn is_same(&self, other: &Thread) -> bool
        ensures { IsTrue result → self.now ≡ other.now }
    {
        if !same_standing(self, other) || !same_call(self, other) {
            return false;
        }
        self.pending.is_same(&other.pending)
    }
}

impl Object {
    /// Whether two objects are the same.
    pub fn is_same(&self, other: &Object) -> bool
        ensures { IsTrue result → self.now ≡ other.now }
    {
        if self.kind != other.kind || self.status != other.status || self.public != other.public {
            return false;
        }
        if self.init != other.init || !same_cost(self.cost, other.cost) {
            return false;
        }
        if !same_cost(self.buffer, other.buffer) || !same_name(self.cleaner, other.cleaner) {
            return false;
        }
        if !self.waiters.is_same(&other.waiters) {
            return false;
        }
        self.contents.is_same(&other.contents)
    }
}

impl Contents {
    /// Whether two objects keep the same.
    pub fn is_same(&self, other: &Contents) -> bool
        ensures { IsTrue result → self.now ≡ other.now }
    {
        match self {
            Contents::Nothing => match other {
                Contents::Nothing => true,
                _ => false,
            },
            Contents::Named(a) => match other {
                Contents::Named(b) => same_piece(a, b),
                _ => false,
            },
            Contents::Sem { count, limit } => match other {
                Contents::Sem { count: c, limit: l } => count == c && limit == l,
                _ => false,
            },
            Contents::Mutex { owner, depth } => match other {
                Contents::Mutex { owner: o, depth: d } => same_name(*owner, *o) && depth == d,
                _ => false,
            },
            Contents::Msgq(a) => match other {
                Contents::Msgq(b) => a.is_same(b),
                _ => false,
            },
            Contents::Stack(a) => match other {
                Contents::Stack(b) => a.is_same(b),
                _ => false,
            },
            Contents::Pipe(a) => match other {
                Contents::Pipe(b) => a.is_same(b),
                _ => false,
            },
            Contents::Stopped { status } => match other {
                Contents::Stopped { status: s } => status == s,
                _ => false,
            },
            Contents::Running { deadline } => match other {
                Contents::Running { deadline: d } => deadline == d,
                _ => false,
            },
        }
    }
}
