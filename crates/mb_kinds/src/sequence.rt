ghost use Rattle.std.specs.Prelude.{◌≡◌, ◌∷◌, ◌++◌, ◌<◌, [], length, slice_set, slice_index_or, OnOk, OnErr, option_copied, slice_get, option_to_list};

use std::alloc::{AllocError, Global};
use std::marker::Model;
use std::mem;

/// A list that public types hold in place of a bare `Vec`: a contract sees the list of the elements
/// and nothing of the buffer, so that two values are equal exactly where their elements are.
#[derive(Drop)]
pub struct Seq<T> {
    items: Vec<T>,
}

impl<T> Model for Seq<T> {
    ghost use Rattle.std.specs.Prelude.{List};

    ghost Value = { List T };

    ghost view = { λ a. a.items.items };
}

impl<T> Seq<T> {
    /// The empty list; needs no memory.
    pub fn new(alloc: Global) -> Seq<T>
        ensures { result ≡ [] }
    {
        Seq {
            items: Vec::new(alloc),
        }
    }

    /// Takes over the elements; needs no memory.
    pub fn from_vec(items: Vec<T>) -> Seq<T>
        ensures { result ≡ items.items }
    {
        Seq { items }
    }

    /// Gives the elements back; needs no memory.
    pub fn into_vec(self) -> Vec<T>
        ensures { result.items ≡ self }
    {
        let Seq { items } = self;
        items
    }

    /// The number of elements.
    pub fn len(&self) -> usize
        ensures { result ≡ length self.now }
    {
        self.items.as_slice().len()
    }

    /// The elements.
    pub fn as_slice(&self) -> &[T]
        ensures { result.now ≡ self.now }
    {
        &self.items
    }

    /// The element at a place, counted from 0, or `None` past the end.
    pub fn get(&self, at: usize) -> Option<&T>
        ensures { option_copied result ≡ slice_get self.now at }
    {
        self.items.get(at)
    }

    /// Puts a value at a place and hands out the one before; needs no memory.
    pub fn swap(&mut self, at: usize, value: &mut T)
        requires { at < length self.old }
        ensures put { self.new ≡ slice_set self.old at value.old }
        ensures taken { value.new ≡ slice_index_or self.old at value.new }
    {
        mem::swap(&mut self.items[at], value);
    }
}

impl<T: Drop> Seq<T> {
    /// Appends an element. The only error is want of memory; the list is then as before.
    pub fn push(&mut self, value: T) -> Result<(), AllocError>
        ensures ok { OnOk result (self.new ≡ self.old ++ value ∷ []) }
        ensures err { OnErr result (self.new ≡ self.old) }
    {
        self.items.push(value)?;
        Ok(())
    }
}
