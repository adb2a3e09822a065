ghost use Rattle.std.specs.Prelude.{◌≡◌, ◌<◌, Some, None, Ok, Err, MatchOption, OnOk, OnErr, IfOk, IsSome, IsOk};
ghost use Rattle.std.specs.FinMap as fin;
ghost use Rattle.std.specs.BTreeMap as tree;
ghost use Rattle.std.specs.Ordering.{nat_cmp};

use std::alloc::{AllocError, Global};
use std::collections::BTreeMap;
use std::marker::Model;
use std::mem;

/// A finite map from numbers. A contract sees the map alone, so that two of them are equal exactly
/// where they answer alike at every key.
#[derive(Drop)]
pub struct Map<V> {
    inner: BTreeMap<u32, V>,
}

impl<V> Model for Map<V> {
    ghost use Rattle.std.specs.FinMap as fin;
    ghost use Rattle.std.specs.Ordering.{nat_cmp};
    ghost use Rattle.std.specs.Coded.{coded_ℕ};

    ghost Value = { fin.FinMap nat_cmp V };

    ghost coded = { fin.code coded_ℕ V.code };

    ghost view = { λ a. fin.from_entries a.inner.entries };
}

impl<V> Map<V> {
    /// The empty map; needs no memory.
    pub fn new(alloc: Global) -> Map<V>
        ensures { result ≡ fin.empty }
    {
        Map {
            inner: BTreeMap::new(alloc),
        }
    }

    /// The value at a key.
    pub fn get(&self, key: u32) -> Option<&V>
        ensures { MatchOption result (fin.get self.now key ≡ None) (λ value. fin.get self.now key ≡ Some value.now) }
    {
        self.inner.get(&key)
    }

    /// Whether there is a value at the key.
    pub fn has(&self, key: u32) -> bool
        ensures { result ≡ fin.contains_key self.now key }
    {
        self.inner.contains_key(&key)
    }

    /// Puts a value at a key that has one and hands out the one before; needs no memory.
    pub fn swap(&mut self, key: u32, value: &mut V)
        requires { IsSome (fin.get self.old key) }
        ensures put { self.new ≡ fin.insert self.old key value.old }
        ensures taken { fin.get self.old key ≡ Some value.new }
        ensures there { IsSome (fin.get self.new key) }
    {
        let Some(place) = self.inner.get_mut(&key) else {
            return;
        };
        mem::swap(place, value);
    }
}

impl<V: Drop> Map<V> {
    /// Puts a value at a key. The only error is want of memory, which comes for a new key alone; the
    /// map is then as before.
    pub fn insert(&mut self, key: u32, value: V) -> Result<(), AllocError>
        ensures ok { OnOk result (self.new ≡ fin.insert self.old key value) }
        ensures err { OnErr result (self.new ≡ self.old) }
        ensures sure { IsSome (fin.get self.old key) → IsOk result }
    {
        self.inner.insert(key, value)?;
        Ok(())
    }

    /// Takes the value at a key out, where there is one; needs no memory.
    pub fn remove(&mut self, key: u32) -> Option<V>
        ensures before { result ≡ fin.get self.old key }
        ensures removed { self.new ≡ fin.remove self.old key }
    {
        self.inner.remove(&key)
    }
}

/// Values that can be copied, where that may want memory.
pub trait Copied {
    /// The same value once more.
    fn copied(&self, alloc: Global) -> Result<Self, AllocError>
        ensures { IfOk result (λ copy. copy ≡ self.now) };
}

impl<const N: usize> Copied for [u8; N] {
    fn copied(&self, _alloc: Global) -> Result<[u8; N], AllocError> {
        Ok(*self)
    }
}

impl<V> Map<V> {
    /// The keys, in rising order.
    pub fn keys(&self, alloc: Global) -> Result<Vec<u32>, AllocError>
        ensures { IfOk result (λ keys. keys.items ≡ fin.keys self.now) }
    {
        let keys = sorted_keys(alloc, &self.inner)?;
        Ok(keys)
    }
}

fn sorted_keys<V>(alloc: Global, map: &BTreeMap<u32, V>) -> Result<Vec<u32>, AllocError>
    ensures keys { IfOk result (λ keys. keys.items ≡ tree.keys map.now) }
    ensures ordered { IfOk result (λ keys. tree.IsOrdered nat_cmp map.now) }
{
    let _len = map.len();
    map.keys().copied().collect(alloc)
}

impl<V: Copied + Drop> Copied for Map<V> {
    fn copied(&self, alloc: Global) -> Result<Map<V>, AllocError> {
        let keys = self.keys(alloc)?;
        let mut copy = Map::new(alloc);
        for key in &keys {
            let Some(value) = self.get(*key) else {
                continue;
            };
            copy.insert(*key, value.copied(alloc)?)?;
        }
        Ok(copy)
    }
}
