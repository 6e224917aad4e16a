//! A register: one container, over lent places, for any element that has a key and a version.

#![tactic(auto)]

pub mod container;
pub mod entry;
mod places;

pub use container::Register;
pub use entry::Entry;
