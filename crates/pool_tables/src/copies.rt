// Equal lists, with room for more.

ghost use Rattle.std.specs.Prelude.{◌≡◌, ◌+◌, ◌≤◌, IfOk, vec_capacity, vec_len};

use ad_value::{Copied, Memory};
use std::alloc::Global;

/// An equal list, with room for so many more. Computes in O(room + size of what is copied).
pub(crate) fn copy_list<T: Copied>(
    alloc: Global,
    list: &[T],
    spare: usize,
) -> Result<Vec<T>, Memory>
    ensures items { IfOk result (λ copied. copied.items ≡ list.now) }
    ensures room { IfOk result (λ copied. vec_len copied + spare ≤ vec_capacity copied) }
{
    let mut copied = Vec::new(alloc);
    for item in list {
        copied.push(item.copy(alloc)?)?;
    }
    copied.reserve(spare)?;
    Ok(copied)
}

/// An equal list, with room for so many more. Computes in O(numbers + room).
pub(crate) fn copy_numbers(
    alloc: Global,
    numbers: &[Option<u64>],
    spare: usize,
) -> Result<Vec<Option<u64>>, Memory>
    ensures items { IfOk result (λ copied. copied.items ≡ numbers.now) }
    ensures room { IfOk result (λ copied. vec_len copied + spare ≤ vec_capacity copied) }
{
    let mut copied = Vec::new(alloc);
    for number in numbers {
        copied.push(*number)?;
    }
    copied.reserve(spare)?;
    Ok(copied)
}
