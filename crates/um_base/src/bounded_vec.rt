//! Lists with a greatest length.

ghost use Rattle.std.specs.Prelude.{◌≡◌, ◌==◌, ◌<◌, ◌≤◌, [], ◌∷◌, ◌++◌, length, OnOk, OnErr};

use crate::out_of_memory::OutOfMemory;
use std::alloc::Global;
use std::marker::Model;

/// A list of at most `MOST` items, on the heap.
#[derive(Drop)]
pub struct BoundedVec<T: Drop, const MOST: usize> {
    items: Vec<T>,
}

impl<T: Drop, const MOST: usize> Model for BoundedVec<T, MOST> {
    ghost use Rattle.std.specs.Prelude.{List, length, ◌≤◌};

    ghost Value = { List T };

    ghost view = { λ v. v.items.items };

    ghost invariant = { λ v. length v.items.items ≤ MOST };
}

impl<T: Drop, const MOST: usize> BoundedVec<T, MOST> {
    /// None. It takes no memory.
    pub fn new(alloc: Global) -> Self
        ensures { result ≡ [] }
    {
        BoundedVec {
            items: Vec::new(alloc),
        }
    }

    /// How many items.
    pub fn len(&self) -> usize
        ensures value { result ≡ length self.now }
        ensures few { result ≤ MOST }
    {
        self.items.len()
    }

    /// Whether it has no item.
    pub fn is_empty(&self) -> bool
        ensures { result ≡ (length self.now == 0) }
    {
        self.items.is_empty()
    }

    /// The items, in the order in which they came.
    pub fn as_slice(&self) -> &[T]
        ensures value { result.now ≡ self.now }
        ensures few { length result.now ≤ MOST }
    {
        self.items.as_slice()
    }

    /// One more at the end. Where memory runs out, the list stays as it was.
    pub fn push(&mut self, item: T) -> Result<(), OutOfMemory>
        requires { length self.old < MOST }
        ensures ok { OnOk result (self.new ≡ self.old ++ item ∷ []) }
        ensures err { OnErr result (self.new ≡ self.old) }
    {
        self.items.push(item)?;
        Ok(())
    }
}

impl<T: Drop, const MOST: usize> BoundedVec<T, MOST> {
    /// The items of a list that is short enough. It takes no memory.
    pub fn from_vec(items: Vec<T>) -> Self
        requires { length items.items ≤ MOST }
        ensures { result ≡ items.items }
    {
        BoundedVec { items }
    }

    /// The items.
    pub fn into_vec(self) -> Vec<T>
        ensures { result.items ≡ self }
    {
        self.items
    }
}

impl<T: Copy + Drop, const MOST: usize> BoundedVec<T, MOST> {
    /// One more at the end, a copy of the item. Where memory runs out, the list stays as it was.
    pub fn push_copy(&mut self, item: &T) -> Result<(), OutOfMemory>
        requires { length self.old < MOST }
        ensures ok { OnOk result (self.new ≡ self.old ++ item.now ∷ []) }
        ensures err { OnErr result (self.new ≡ self.old) }
    {
        self.push(*item)
    }
}

#[cfg(test)]
mod tests {
    use super::*;
    use std::test::Fail;

    #[test]
    fn grows_at_its_end(rt: HostRuntime) -> Result<(), Fail> {
        let mut list: BoundedVec<u8, 3> = BoundedVec::new(rt.alloc());
        assert!(rt; list.is_empty());
        list.push(7)?;
        list.push_copy(&9)?;
        list.push(7)?;
        assert!(rt; !list.is_empty());
        assert_eq!(rt; list.len(), 3);
        assert_eq!(rt; list.as_slice(), [7, 9, 7].as_slice());
        Ok(())
    }

    #[test]
    fn gives_its_items_back(rt: HostRuntime) -> Result<(), Fail> {
        let list: BoundedVec<u32, 2> = BoundedVec::from_vec(vec![in rt.alloc(); 3, 4]?);
        assert_eq!(rt; list.as_slice(), [3, 4].as_slice());
        assert_eq!(rt; list.into_vec().as_slice(), [3, 4].as_slice());
        Ok(())
    }
}
