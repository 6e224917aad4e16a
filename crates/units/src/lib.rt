//! The quantities of a settlement, and the numbers that place it in the day.

#![tactic(auto)]

pub mod bounds;
pub mod division;
pub mod limits;
pub mod quantity;

pub use bounds::{Accuracy, AdjustedMileage, Below, Direction, Hour, OutOfRange, Quarter, Version};
pub use division::floor_div;
pub use limits::{Bounded, Limited, UpTo};
pub use quantity::{Cents, CentsPerMw, Kw, Quantity};
