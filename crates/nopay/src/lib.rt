//! What a site is not paid: it was awarded regulation, and was not available for all of it.

#![tactic(auto)]

pub mod cause;
pub mod figures;
pub mod hour;
pub mod quarter;
mod unavailability;

pub use cause::Cause;
pub use figures::{Figures, NoPay};
pub use hour::hour_figures;
pub use quarter::no_pay;
