//! Worked examples of the scan: the fresh volume of 100 blocks and 16 inodes with a few bytes changed. Each rule is broken
//! as little as it can be, beside the nearest volume that keeps it, and a disk fails at each of its calls. They are tests
//! alone. A volume that keeps them all is read whole, and compared with a tree that is written by hand.
#![tactic(auto)]

#[cfg(test)]
mod fault_tests;
#[cfg(test)]
mod file_tests;
#[cfg(test)]
mod link_tests;
#[cfg(test)]
mod machine_tests;
#[cfg(test)]
mod slot_tests;
#[cfg(test)]
mod super_block_tests;
#[cfg(test)]
mod trees;
#[cfg(test)]
mod volumes;
