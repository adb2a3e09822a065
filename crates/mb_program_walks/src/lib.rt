//! Runs of the program over devices in memory, with every printed byte and the image of each: worked examples, orders and
//! recoveries, devices that fail, jobs and images that are refused, threads, and generated jobs. They are tests alone.
#![tactic(auto)]

#[cfg(test)]
mod device_tests;
#[cfg(test)]
mod example_files;
#[cfg(test)]
mod example_tests;
#[cfg(test)]
mod foresight_tests;
#[cfg(test)]
mod interleaving_tests;
#[cfg(test)]
mod recovery_tests;
#[cfg(test)]
mod refusal_tests;
#[cfg(test)]
mod slow_sinks;
#[cfg(test)]
mod soak_tests;
#[cfg(test)]
mod thread_tests;
#[cfg(test)]
mod trials;
#[cfg(test)]
mod volumes;
