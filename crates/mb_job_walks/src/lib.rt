//! Worked examples of the jobs' side: job texts that are read and refused, the texts of calls, a job that was made from its
//! number apart from the program, fault rules that fire, and printed lines. They are tests alone.
#![tactic(auto)]

#[cfg(test)]
mod job_tests;
#[cfg(test)]
mod number_tests;
#[cfg(test)]
mod plan_tests;
#[cfg(test)]
mod print_tests;
#[cfg(test)]
mod text_tests;
