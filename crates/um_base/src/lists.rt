//! Short lists of a fixed room, which take no memory.

ghost use Rattle.std.specs.Prelude.{◌≡◌, ◌↔◌, ◌<◌, ◌≤◌, [], ◌∷◌, ◌++◌, length, slice_index_or, IsTrue};
ghost use Rattle.um_base.specs.Short.{IsShort, reply_of};

use crate::attr::Attr;
use crate::limits::{DOMAIN_PARTITIONS, NAMED_PARTITIONS, PIECE, THREADS};
use crate::names::{Addr, Errno, PartRef, Range, Reply, ThreadIx};
use std::marker::Model;

/// A reply as it is kept: a number up to 256, or an error.
#[derive(Clone, Copy)]
enum ShortReply {
    /// The number 0.
    Zero,
    /// The number that is one more.
    OneMore(u8),
    Fail(Errno),
}

/// The reply that is kept.
fn reply_of(kept: ShortReply) -> Reply
    ensures { result ≡ reply_of kept }
{
    match kept {
        ShortReply::Zero => Reply::Num(0),
        ShortReply::OneMore(n) => Reply::Num(n as u32 + 1),
        ShortReply::Fail(error) => Reply::Fail(error),
    }
}

/// How a short reply is kept.
fn short_of(reply: Reply) -> ShortReply
    requires { IsShort reply }
    ensures { reply_of result ≡ reply }
{
    match reply {
        Reply::Num(0) => ShortReply::Zero,
        Reply::Num(n) => ShortReply::OneMore((n - 1) as u8),
        Reply::Fail(error) => ShortReply::Fail(error),
        _ => unreachable!(),
    }
}

/// The woken threads, each with what its call answers: a number up to 256, or an error.
#[derive(Clone, Copy)]
pub struct Replies {
    items: [(ThreadIx, ShortReply); THREADS],
    len: usize,
}

impl Model for Replies {
    ghost use Rattle.std.{specs.Prelude.{List, length, map, take, ℕ}, proofs.Common.{ap}};
    ghost use Rattle.um_base.specs.{
      declared.limits.TheConstants.{THREADS},
      declared.lists.ShortReply.{ShortReply},
      declared.lists.ShortReply.TheVariants.{Zero},
      declared.names.ThreadIx.{ThreadIx},
      declared.names.Reply.{Reply},
      Room.{IsRoom, filled},
      Short.{told, kept, told-front},
    };

    ghost Value = { List (ThreadIx × Reply) };

    ghost view = { λ r. map told (take r.len r.items) };

    ghost invariant = { λ r. IsRoom THREADS (record { 0 = 0 }, Zero) r.items r.len };

    ghost inverse = { λ l. record { items = filled THREADS (record { 0 = 0 }, Zero) (map kept l); len = length l } };

    ghost inverse_ok = { λ a h. ap (λ (p : List (ThreadIx × ShortReply) × ℕ). record { items = p.0; len = p.1 }) (told-front h) };
}

impl Replies {
    /// None.
    pub fn new() -> Replies
        ensures { result ≡ [] }
    {
        Replies {
            items: [(ThreadIx(0), ShortReply::Zero); THREADS],
            len: 0,
        }
    }

    /// How many threads.
    pub fn len(&self) -> usize
        ensures value { result ≡ length self.now }
        ensures few { result ≤ THREADS }
    {
        self.len
    }

    /// A thread and its reply, by their place in the order of waking, from 0 on.
    pub fn at(&self, i: usize) -> (ThreadIx, Reply)
        requires { i < length self.now }
        ensures { result ≡ slice_index_or self.now i result }
    {
        let kept = &self.items[..self.len];
        let (thread, reply) = kept[i];
        (thread, reply_of(reply))
    }

    /// One more at the end.
    pub fn push(&mut self, thread: ThreadIx, reply: Reply)
        requires room { length self.old < THREADS }
        requires short { IsShort reply }
        ensures { self.new ≡ self.old ++ (thread, reply) ∷ [] }
    {
        self.items[self.len] = (thread, short_of(reply));
        self.len += 1;
    }
}

impl PartialEq for Replies {
    ghost use Rattle.std.specs.Cmp.Lexicographic.{pointwise};
    ghost use Rattle.um_base.specs.Equality.{same_told, told_per};

    ghost eq = { pointwise same_told };

    ghost laws = { told_per };

    fn eq(&self, other: &Replies) -> bool {
        same_replies(self, other)
    }
}

impl Eq for Replies {
    ghost use Rattle.um_base.specs.Equality.{told_equiv};

    ghost laws = { told_equiv };
}

fn same_told(a: (ThreadIx, Reply), b: (ThreadIx, Reply)) -> bool
    ensures { IsTrue result ↔ (a ≡ b) }
{
    a == b
}

/// Whether the same threads are woken, in the same order, each with the same reply.
fn same_replies(a: &Replies, b: &Replies) -> bool
    ensures { IsTrue result ↔ (a.now ≡ b.now) }
{
    if a.len() != b.len() {
        return false;
    }
    for i in 0..a.len() {
        if !same_told(a.at(i), b.at(i)) {
            return false;
        }
    }
    true
}

/// The partitions that an initialisation of a domain names.
#[derive(Clone, Copy, PartialEq, Eq)]
pub struct PartRefs {
    items: [PartRef; NAMED_PARTITIONS],
    len: usize,
}

impl Model for PartRefs {
    ghost use Rattle.std.{specs.Prelude.{List, length, take, ℕ}, proofs.Common.{ap}};
    ghost use Rattle.um_base.specs.{
      declared.limits.TheConstants.{NAMED_PARTITIONS},
      declared.names.PartRef.{PartRef},
      declared.names.PartRef.TheVariants.{At},
      Room.{IsRoom, filled, room-front},
    };

    ghost Value = { List PartRef };

    ghost view = { λ p. take p.len p.items };

    ghost invariant = { λ p. IsRoom NAMED_PARTITIONS (At 0) p.items p.len };

    ghost inverse = { λ l. record { items = filled NAMED_PARTITIONS (At 0) l; len = length l } };

    ghost inverse_ok = { λ a h. ap (λ (p : List PartRef × ℕ). record { items = p.0; len = p.1 }) (room-front h) };
}

impl PartRefs {
    /// None.
    pub fn new() -> PartRefs
        ensures { result ≡ [] }
    {
        PartRefs {
            items: [PartRef::At(0); NAMED_PARTITIONS],
            len: 0,
        }
    }

    /// The partitions, in their order.
    pub fn as_slice(&self) -> &[PartRef]
        ensures value { result.now ≡ self.now }
        ensures few { length result.now ≤ NAMED_PARTITIONS }
    {
        &self.items[..self.len]
    }

    /// How many partitions.
    pub fn len(&self) -> usize
        ensures value { result ≡ length self.now }
        ensures few { result ≤ NAMED_PARTITIONS }
    {
        self.len
    }

    /// One more at the end.
    #[tactic(auto, using(crate::specs::Room::front_after_push))]
    pub fn push(&mut self, part: &PartRef)
        requires { length self.old < NAMED_PARTITIONS }
        ensures { self.new ≡ self.old ++ part.now ∷ [] }
    {
        self.items[self.len] = *part;
        self.len += 1;
    }
}

/// The partitions of a domain, each a range with its rights.
#[derive(Clone, Copy, PartialEq, Eq)]
pub struct Parts {
    items: [(Range, Attr); DOMAIN_PARTITIONS],
    len: usize,
}

impl Model for Parts {
    ghost use Rattle.std.{specs.Prelude.{List, length, take, ℕ}, proofs.Common.{ap}};
    ghost use Rattle.um_base.specs.{
      declared.limits.TheConstants.{DOMAIN_PARTITIONS},
      declared.names.Range.{Range},
      declared.attr.Attr.{Attr},
      Room.{IsRoom, filled, room-front},
    };

    ghost Value = { List (Range × Attr) };

    ghost view = { λ p. take p.len p.items };

    ghost invariant = { λ p. IsRoom DOMAIN_PARTITIONS (record { start = record { 0 = 0 }; size = 0 }, record { 0 = 0 }) p.items p.len };

    ghost inverse = { λ l. record { items = filled DOMAIN_PARTITIONS (record { start = record { 0 = 0 }; size = 0 }, record { 0 = 0 }) l; len = length l } };

    ghost inverse_ok = { λ a h. ap (λ (p : List (Range × Attr) × ℕ). record { items = p.0; len = p.1 }) (room-front h) };
}

/// A blank.
const NO_PART: (Range, Attr) = (
    Range {
        start: Addr(0),
        size: 0,
    },
    Attr(0),
);

impl Parts {
    /// None.
    pub fn new() -> Parts
        ensures { result ≡ [] }
    {
        Parts {
            items: [NO_PART; DOMAIN_PARTITIONS],
            len: 0,
        }
    }

    /// The ranges and rights, in their order.
    pub fn as_slice(&self) -> &[(Range, Attr)]
        ensures value { result.now ≡ self.now }
        ensures few { length result.now ≤ DOMAIN_PARTITIONS }
    {
        &self.items[..self.len]
    }

    /// How many partitions.
    pub fn len(&self) -> usize
        ensures value { result ≡ length self.now }
        ensures few { result ≤ DOMAIN_PARTITIONS }
    {
        self.len
    }

    /// One more at the end.
    #[tactic(auto, using(crate::specs::Room::front_after_push))]
    pub fn push(&mut self, range: Range, attr: Attr)
        requires { length self.old < DOMAIN_PARTITIONS }
        ensures { self.new ≡ self.old ++ (range, attr) ∷ [] }
    {
        self.items[self.len] = (range, attr);
        self.len += 1;
    }
}

/// A few bytes, as a message or a name.
#[derive(Clone, Copy, PartialEq, Eq)]
pub struct Piece {
    items: [u8; PIECE],
    len: usize,
}

impl Model for Piece {
    ghost use Rattle.std.{specs.Prelude.{List, length, take, ℕ}, proofs.Common.{ap}};
    ghost use Rattle.um_base.specs.{declared.limits.TheConstants.{PIECE}, Room.{IsRoom, filled, room-front}};

    ghost Value = { List ℕ };

    ghost view = { λ p. take p.len p.items };

    ghost invariant = { λ p. IsRoom PIECE 0 p.items p.len };

    ghost inverse = { λ l. record { items = filled PIECE 0 l; len = length l } };

    ghost inverse_ok = { λ a h. ap (λ (p : List ℕ × ℕ). record { items = p.0; len = p.1 }) (room-front h) };
}

impl Piece {
    /// None.
    pub fn new() -> Piece
        ensures { result ≡ [] }
    {
        Piece {
            items: [0; PIECE],
            len: 0,
        }
    }

    /// The bytes.
    pub fn as_slice(&self) -> &[u8]
        ensures value { result.now ≡ self.now }
        ensures few { length result.now ≤ PIECE }
    {
        &self.items[..self.len]
    }

    /// How many bytes.
    pub fn len(&self) -> usize
        ensures value { result ≡ length self.now }
        ensures few { result ≤ PIECE }
    {
        self.len
    }

    /// One more byte at the end.
    #[tactic(auto, using(crate::specs::Room::front_after_push))]
    pub fn push(&mut self, byte: u8)
        requires { length self.old < PIECE }
        ensures { self.new ≡ self.old ++ byte ∷ [] }
    {
        self.items[self.len] = byte;
        self.len += 1;
    }
}

#[cfg(test)]
mod tests;
