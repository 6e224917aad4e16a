//! A watch quarter: 15 minutes, how the site was available in them, and the posting of one.

#![tactic(auto)]

pub mod availability;
pub mod entry;
mod findings;
mod minute;
mod minutes;
pub mod quarter;
pub mod reading;
mod state;
pub mod watch;

pub use availability::{Availability, Room};
pub use quarter::assess;
pub use reading::read;
pub use watch::{Watch, WatchArguments, WatchHeader, WatchKey};
