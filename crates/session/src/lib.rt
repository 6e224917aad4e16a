//! What stands between a journal's lines and a day: the roster that they gather, and the calls that they make.

#![tactic(auto)]

pub mod calls;
pub mod gathering;

pub use calls::{answer, make_one, outcome_of, post, post_all, question};
pub use gathering::{RecordPlaces, RosterLines};
