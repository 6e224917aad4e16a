//! What a site is paid for its mileage in a quarter: a day-ahead part and a real-time part, each at its own price.

#![tactic(auto)]

pub mod parts;
pub mod payment;

pub use parts::{MileageParts, MileagePayment, Parts, Payment};
pub use payment::{pay, split};
