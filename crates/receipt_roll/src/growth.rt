/// What the log of a book of rolls says: how rolls grew. It stands in proofs alone, and no value of
/// it is ever made.
///
/// A right is a right to add one item: the key of a cell of the book, and the one pen that may
/// write this cell. A roll is known by its first right.
pub enum Growth<T> {
    /// A right was made.
    NewRight { right: u64 },
    /// An item was added, which used up `right`; `next` is the right to add the item after it.
    NewItem { item: T, right: u64, next: u64 },
}
