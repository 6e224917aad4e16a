//! A trading day: the roster, the postings that it took, and what its questions answer.

#![tactic(auto)]

pub mod account;
pub mod calls;
pub mod open_day;
pub mod sums;

pub use account::Account;
pub use calls::{Answer, Call, Reply};
pub use open_day::OpenDay;
