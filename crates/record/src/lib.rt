//! The record: 64 bytes, read into a posting.

#![tactic(auto)]

mod fields;
mod kinds;
mod numbers;
pub mod reading;

pub use reading::read;
