//! The members of the pool and their sites, and the names that records call them by.

#![tactic(auto)]

pub mod entries;
pub mod opening;
mod rows;
pub mod table;

pub use entries::{Member, MemberIndex, Site, SiteIndex};
pub use opening::may_open;
pub use table::Roster;
