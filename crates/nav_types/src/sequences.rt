//! Lists in memory that may be refused, and want of memory as an error.
ghost use Rattle.std.specs.Prelude.{◌≡◌, ◌++◌, ◌∷◌, [], length, slice_get, option_copied, option_to_list, IsNone, IfOk, IfErr, OnOk, OnErr, ◌↔◌, IsTrue, decimal};

use itoa::Buffer;
use std::alloc::{AllocError, AllocFailed, Global};
use std::marker::Model;

/// There was no memory for what was asked.
#[derive(Clone, Copy, Debug, PartialEq, Eq)]
pub struct NoMemory;

impl From<AllocError> for NoMemory {
    fn from(_error: AllocError) -> NoMemory {
        NoMemory
    }
}

impl<T: Drop> From<AllocFailed<T>> for NoMemory {
    fn from(_error: AllocFailed<T>) -> NoMemory {
        NoMemory
    }
}

impl<T: Drop> From<(NoMemory, T)> for NoMemory {
    fn from(_refused: (NoMemory, T)) -> NoMemory {
        NoMemory
    }
}

/// A list of items in memory. Contracts see the list.
#[derive(Debug, Drop)]
pub struct Sequence<T> {
    items: Vec<T>,
}

/// A list of bytes.
pub type Bytes = Sequence<u8>;

/// The words of a command line, without the name of the program.
pub type Words = Sequence<Bytes>;

impl<T> Model for Sequence<T> {
    ghost use Rattle.std.specs.Prelude.{List};

    ghost Value = { List T };

    ghost view = { λ s. s.items.items };
}

impl<T> From<Vec<T>> for Sequence<T> {
    ghost from_gives = { λ items list. list ≡ items.items };

    fn from(items: Vec<T>) -> Sequence<T> {
        Sequence { items }
    }
}

impl<T> Sequence<T> {
    /// The empty list. It takes no memory yet.
    pub fn new(alloc: Global) -> Sequence<T>
        ensures { result ≡ [] }
    {
        Sequence {
            items: Vec::new(alloc),
        }
    }

    /// Appends the item. Where there is no memory the list stays and the item is handed back.
    pub fn push(&mut self, item: T) -> Result<(), (NoMemory, T)>
        ensures ok { OnOk result (self.new ≡ self.old ++ item ∷ []) }
        ensures err { OnErr result (self.new ≡ self.old) }
        ensures item { IfErr result (λ refused. refused.1 ≡ item) }
    {
        match self.items.push(item) {
            Ok(()) => Ok(()),
            Err(failed) => Err((NoMemory, failed.value)),
        }
    }

    /// The number of items.
    pub fn len(&self) -> usize
        ensures { result ≡ length self.now }
    {
        self.items.len()
    }

    /// Whether there is no item.
    pub fn is_empty(&self) -> bool
        ensures { IsTrue result ↔ (self.now ≡ []) }
    {
        self.items.is_empty()
    }

    /// The item at a place, counted from 0. None exactly where the place is not below the length.
    pub fn get(&self, at: usize) -> Option<&T>
        ensures { option_copied result ≡ slice_get self.now at }
    {
        self.items.get(at)
    }

    /// Takes out the first item. None exactly where there is none.
    pub fn take_first(&mut self) -> Option<T>
        ensures items { self.old ≡ option_to_list result ++ self.new }
        ensures none { IsNone result ↔ (self.old ≡ []) }
    {
        if self.items.is_empty() {
            return None;
        }
        Some(self.items.remove(0))
    }

    /// All items by value, in order. They keep their memory.
    ///
    /// A vector can be given room before an item is taken from where it can't be put back; [`Sequence::from`] makes
    /// a list of it again.
    pub fn into_items(self) -> Vec<T>
        ensures { result.items ≡ self }
    {
        self.items
    }

    /// Moves all items of `more` behind those of the list. Where there is no memory for them both lists stay.
    pub fn append(&mut self, more: &mut Sequence<T>) -> Result<(), NoMemory>
        ensures ok { OnOk result (self.new ≡ self.old ++ more.old) }
        ensures emptied { OnOk result (more.new ≡ []) }
        ensures err { OnErr result (self.new ≡ self.old) }
        ensures kept { OnErr result (more.new ≡ more.old) }
    {
        self.items.append(&mut more.items)?;
        Ok(())
    }

    /// Lets go of all items and keeps their memory.
    pub fn clear(&mut self)
    where
        T: Drop,
        ensures { self.new ≡ [] }
    {
        self.items.clear();
    }

    /// The whole list.
    pub fn as_slice(&self) -> &[T]
        ensures { result.now ≡ self.now }
    {
        self.items.as_slice()
    }
}

impl<T: Copy> Sequence<T> {
    /// Appends the items. Where there is no memory the list stays.
    pub fn extend(&mut self, items: &[T]) -> Result<(), NoMemory>
        ensures ok { OnOk result (self.new ≡ self.old ++ items.now) }
        ensures err { OnErr result (self.new ≡ self.old) }
    {
        self.items.extend_from_slice(items)?;
        Ok(())
    }

    /// A list of the same items.
    pub fn copy(&self, alloc: Global) -> Result<Sequence<T>, NoMemory>
        ensures { IfOk result (λ made. made ≡ self.now) }
    {
        Ok(Sequence {
            items: Vec::from_slice(alloc, self.items.as_slice())?,
        })
    }
}

impl Bytes {
    /// Appends the decimal digits of a number. Where there is no memory the list stays.
    pub fn push_decimal(&mut self, number: u64) -> Result<(), NoMemory>
        ensures ok { OnOk result (self.new ≡ self.old ++ decimal number) }
        ensures err { OnErr result (self.new ≡ self.old) }
    {
        let mut buffer = Buffer::new();
        self.extend(buffer.format(number).as_bytes())
    }
}
