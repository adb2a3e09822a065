ghost use Rattle.std.specs.Prelude.{◌≡◌, ◌∷◌, ◌++◌, ◌+◌, ◌-◌, ◌<◌, ◌≤◌, [], length, OnOk, IsOk, slice_set, None, IfSome, IfNone};
ghost use Rattle.mb_room.specs.Room.{Roomy};

use mb_edge::NoMemory;
use std::alloc::Global;
use std::marker::Model;

/// A list that takes as many more elements without memory as it has room for. A contract sees the elements and
/// the room.
#[derive(Drop)]
pub struct Roomy<T> {
    items: Vec<T>,
}

impl<T> Model for Roomy<T> {
    ghost use Rattle.std.specs.Prelude.{◌-◌, vec_capacity, vec_len};
    ghost use Rattle.mb_room.specs.Room.{Roomy};

    ghost Value = { Roomy T };

    ghost view = { λ a. record { items = a.items.items; spare = vec_capacity a.items - vec_len a.items } };
}

impl<T> Roomy<T> {
    /// The empty list; needs no memory.
    pub fn new(alloc: Global) -> Roomy<T>
        ensures { result.items ≡ [] }
    {
        Roomy {
            items: Vec::new(alloc),
        }
    }

    /// The elements, in the order in which they were pushed.
    pub fn as_slice(&self) -> &[T]
        ensures { result.now ≡ self.now.items }
    {
        &self.items
    }

    /// The number of elements.
    pub fn len(&self) -> usize
        ensures { result ≡ length self.now.items }
    {
        self.items.as_slice().len()
    }
}

impl<T: Drop> Roomy<T> {
    /// Makes room for so many more elements. Nothing else changes. The only error is want of memory, and it does
    /// not come where there is room already.
    pub fn reserve(&mut self, more: usize) -> Result<(), NoMemory>
        ensures ok { OnOk result (more ≤ self.new.spare) }
        ensures same { self.new.items ≡ self.old.items }
        ensures kept { self.old.spare ≤ self.new.spare }
        ensures sure { more ≤ self.old.spare → IsOk result }
    {
        self.items.reserve(more)?;
        Ok(())
    }

    /// Appends an element; needs no memory.
    pub fn push(&mut self, value: T)
        requires { 0 < self.old.spare }
        ensures items { self.new.items ≡ self.old.items ++ value ∷ [] }
        ensures spare { self.old.spare ≤ self.new.spare + 1 }
    {
        let Ok(_) = self.items.push(value) else {
            unreachable!()
        };
    }

    /// Replaces the element at a place, from 0.
    pub fn set(&mut self, at: usize, value: T)
        requires { at < length self.old.items }
        ensures items { self.new.items ≡ slice_set self.old.items at value }
        ensures spare { self.new.spare ≡ self.old.spare }
    {
        self.items[at] = value;
    }

    /// Takes the last element out, which leaves room for it; `None` exactly where there is none. Needs no memory.
    pub fn pop(&mut self) -> Option<T>
        ensures some { IfSome result (λ value. self.old.items ≡ self.new.items ++ value ∷ []) }
        ensures spare { IfSome result (λ value. self.old.spare + 1 ≤ self.new.spare) }
        ensures none { IfNone result (self.old.items ≡ []) }
        ensures same { IfNone result (self.new ≡ self.old) }
    {
        self.items.pop()
    }

    /// Takes all elements out and keeps the room; needs no memory.
    pub fn clear(&mut self)
        ensures items { self.new.items ≡ [] }
        ensures spare { self.old.spare + length self.old.items ≤ self.new.spare }
    {
        self.items.clear();
    }
}
