//! The cache of a disk and what it stands on: examples of rings of pages, of two layers of pages, and of the cache; and random
//! moves beside those of plain lists, four thousand of rings and ten thousand of the cache. They are tests alone.
#![tactic(auto)]

#[cfg(test)]
mod cache_tests;
#[cfg(test)]
mod layer_tests;
#[cfg(test)]
mod plain;
#[cfg(test)]
mod ring_tests;
#[cfg(test)]
mod walk_tests;
