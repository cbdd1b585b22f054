//! Copies of plain data. A copy is equal to what it was made of.

ghost use Rattle.std.specs.Prelude.{◌≡◌, IfOk};

use crate::memory::Memory;
use crate::seq::Seq;
use std::alloc::Global;
use std::collections::LinkedList;

/// Plain data of which an equal value can be made, where there is memory.
pub trait Copied: Drop {
    /// An equal value. Computes in O(size).
    fn copy(&self, alloc: Global) -> Result<Self, Memory>
        ensures { IfOk result (λ c. c ≡ self.now) };
}

impl Copied for u64 {
    fn copy(&self, _: Global) -> Result<u64, Memory> {
        Ok(*self)
    }
}

impl<T: Copied> Copied for Option<T> {
    fn copy(&self, alloc: Global) -> Result<Option<T>, Memory> {
        match self {
            Some(value) => Ok(Some(value.copy(alloc)?)),
            None => Ok(None),
        }
    }
}

impl<T: Copied> Copied for Seq<T> {
    fn copy(&self, alloc: Global) -> Result<Seq<T>, Memory> {
        Ok(Seq::from_vec(copy_items(alloc, self.as_slice())?))
    }
}

impl<T: Copied> Copied for LinkedList<T, Global> {
    fn copy(&self, alloc: Global) -> Result<LinkedList<T, Global>, Memory> {
        let mut list = LinkedList::new(alloc);
        for item in self {
            list.push_back(item.copy(alloc)?)?;
        }
        Ok(list)
    }
}

/// A list of equal items. Computes in O(size of the items).
pub fn copy_items<T: Copied>(alloc: Global, items: &[T]) -> Result<Vec<T>, Memory>
    ensures { IfOk result (λ list. list.items ≡ items.now) }
{
    let mut list = Vec::new(alloc);
    for item in items {
        list.push(item.copy(alloc)?)?;
    }
    Ok(list)
}
