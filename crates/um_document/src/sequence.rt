//! Lists of any length, and texts.

ghost use Rattle.std.specs.Prelude.{◌≡◌, ◌==◌, [], ◌∷◌, ◌++◌, length, OnOk, OnErr, IfOk};

use std::alloc::Global;
use std::marker::Model;
use um_base::OutOfMemory;

/// A list on the heap.
#[derive(Drop)]
pub struct Sequence<T: Drop> {
    items: Vec<T>,
}

/// The bytes of a text.
pub type Text = Sequence<u8>;

impl<T: Drop> Model for Sequence<T> {
    ghost use Rattle.std.specs.Prelude.{List};

    ghost Value = { List T };

    ghost view = { λ s. s.items.items };
}

impl<T: Drop> Sequence<T> {
    /// None. It takes no memory.
    pub fn new(alloc: Global) -> Self
        ensures { result ≡ [] }
    {
        Sequence {
            items: Vec::new(alloc),
        }
    }

    /// How many items.
    pub fn len(&self) -> usize
        ensures { result ≡ length self.now }
    {
        self.items.len()
    }

    /// Whether it has no item.
    pub fn is_empty(&self) -> bool
        ensures { result ≡ (length self.now == 0) }
    {
        self.items.is_empty()
    }

    /// The items, in the order in which they came.
    pub fn as_slice(&self) -> &[T]
        ensures { result.now ≡ self.now }
    {
        self.items.as_slice()
    }

    /// One more at the end. Where memory runs out, the list stays as it was.
    pub fn push(&mut self, item: T) -> Result<(), OutOfMemory>
        ensures ok { OnOk result (self.new ≡ self.old ++ item ∷ []) }
        ensures err { OnErr result (self.new ≡ self.old) }
    {
        self.items.push(item)?;
        Ok(())
    }

    /// The items.
    pub fn into_vec(self) -> Vec<T>
        ensures { result.items ≡ self }
    {
        self.items
    }
}

impl Sequence<u8> {
    /// A copy of these bytes.
    pub fn of_bytes(alloc: Global, bytes: &[u8]) -> Result<Self, OutOfMemory>
        ensures { IfOk result (λ text. text ≡ bytes.now) }
    {
        let mut items = Vec::new(alloc);
        items.extend_from_slice(bytes)?;
        Ok(Sequence { items })
    }
}
