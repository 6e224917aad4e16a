//! How a journal is read: its lines, their words, and the call that each line is.

#![tactic(auto)]

mod cuts;
pub mod lines;
pub mod paths;
pub mod read;
pub mod remaining;
pub mod words;

pub use lines::{records, split_line};
pub use paths::located;
pub use read::{Line, read_line};
pub use remaining::Lines;
pub use words::split_word;
