//! Worked examples of a V7 file system that is asked and made to act over a fresh volume: names that come
//! and go, bytes put and read, directories, and a file that stays open after its last name. Each query and
//! each operation begins with a view of no block and is run to its end by the blocks that it asks for.
//! Beside them each query and each operation is tried over blocks of drawn bytes, with chains in a circle and
//! addresses past every volume. They are tests alone.
#![tactic(auto)]

#[cfg(test)]
mod directory_tests;
#[cfg(test)]
mod example_tests;
#[cfg(test)]
mod hostile;
#[cfg(test)]
mod hostile_tests;
#[cfg(test)]
mod name_tests;
#[cfg(test)]
mod open_tests;
#[cfg(test)]
mod volumes;
