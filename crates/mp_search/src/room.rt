//! Lists with room, which take no memory once they are made.
ghost use Rattle.std.specs.Prelude.{◌≡◌, ◌<◌, ◌≤◌, ◌+◌, ◌++◌, ◌∷◌, [], length, take, drop, vec_capacity, IfOk};

use std::alloc::{AllocError, Global};

/// A list with room for so many items, which never changes.
#[derive(Drop)]
pub struct Room<T> {
    /// The list, in order.
    pub items: Vec<T>,
    /// How many items there is room for.
    pub room: usize,
    ghost within: { length items.items ≤ room },
    ghost reserved: { room ≤ vec_capacity items },
}

// Writes items over as many of the first ones.
fn overwrite<T: Copy>(list: &mut [T], items: &[T])
    requires { length items.now ≤ length list.old }
    ensures items { list.new ≡ items.now ++ drop (length items.now) list.old }
    ensures count { length list.new ≡ length list.old }
{
    list[..items.len()].copy_from_slice(items);
}

impl<T: Copy> Room<T> {
    /// An empty list with room for so many items. All memory that it ever needs is taken here: `AllocError` comes where
    /// there is none for it.
    pub fn new(alloc: Global, room: usize) -> Result<Room<T>, AllocError>
        ensures empty { IfOk result (λ r. r.items.items ≡ []) }
        ensures room { IfOk result (λ r. r.room ≡ room) }
    {
        let items = Vec::with_capacity(alloc, room)?;
        Ok(Room { items, room })
    }

    /// Adds an item. There is room for it.
    pub fn push(&mut self, item: T)
        requires { length self.old.items.items < self.old.room }
        ensures items { self.new.items.items ≡ self.old.items.items ++ item ∷ [] }
        ensures room { self.new.room ≡ self.old.room }
    {
        self.items.push_reserved(item);
    }

    /// Leaves the first items.
    pub fn truncate(&mut self, length: usize)
        ensures items { self.new.items.items ≡ take length self.old.items.items }
        ensures room { self.new.room ≡ self.old.room }
    {
        self.items.truncate(length);
    }

    /// Leaves nothing.
    pub fn clear(&mut self)
        ensures items { self.new.items.items ≡ [] }
        ensures room { self.new.room ≡ self.old.room }
    {
        self.items.clear();
    }

    /// Puts other items in their place. There is room for them.
    pub fn refill(&mut self, items: &[T])
        requires { length items.now ≤ self.old.room }
        ensures items { self.new.items.items ≡ items.now }
        ensures room { self.new.room ≡ self.old.room }
    {
        if items.is_empty() {
            self.items.clear();
            return;
        }
        if let ([own], [item]) = (self.items.as_mut_slice(), items) {
            *own = *item;
            return;
        }
        // What is there is written over, since to clear a list takes as long as it is.
        let kept = items.len().min(self.items.len());
        self.items.truncate(kept);
        self.items.copy_from_slice(&items[..kept]);
        if kept < items.len() {
            match self.items.extend_from_slice(&items[kept..]) {
                Ok(()) => {}
                Err(_) => unreachable!(),
            }
        }
    }

    /// Writes items over as many of the first ones.
    pub fn overwrite(&mut self, items: &[T])
        requires { length items.now ≤ length self.old.items.items }
        ensures items { self.new.items.items ≡ items.now ++ drop (length items.now) self.old.items.items }
        ensures room { self.new.room ≡ self.old.room }
    {
        overwrite(&mut self.items, items);
    }

    /// Adds the items. There is room for them.
    pub fn append(&mut self, items: &[T])
        requires { length self.old.items.items + length items.now ≤ self.old.room }
        ensures items { self.new.items.items ≡ self.old.items.items ++ items.now }
        ensures room { self.new.room ≡ self.old.room }
    {
        match self.items.extend_from_slice(items) {
            Ok(()) => {}
            Err(_) => unreachable!(),
        }
    }

    /// How many items there are.
    pub fn len(&self) -> usize
        ensures { result ≡ length self.now.items.items }
    {
        self.items.len()
    }

    /// The items.
    pub fn as_slice(&self) -> &[T]
        ensures { result.now ≡ self.now.items.items }
    {
        self.items.as_slice()
    }
}
