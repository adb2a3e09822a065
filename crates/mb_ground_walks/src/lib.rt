//! Worked examples of the ground floor and of what stands right on it: plain values, numbers and fields of a volume, devices
//! in memory and in files, fresh volumes, words that are commands, views and changes. They are tests alone.
#![tactic(auto)]

#[cfg(test)]
mod change_tests;
#[cfg(test)]
mod command_tests;
#[cfg(test)]
mod device_tests;
#[cfg(test)]
mod field_tests;
#[cfg(test)]
mod file_tests;
#[cfg(test)]
mod number_tests;
#[cfg(test)]
mod value_tests;
#[cfg(test)]
mod volume_tests;
