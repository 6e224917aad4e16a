//! What became of a call, as it is printed and counted.

#![tactic(auto)]

pub mod outcome;

pub use outcome::{Failure, Label, Outcome, Reason, Tally, report};
