//! A signal quarter: 225 samples, what they come to, and the posting of one.

#![tactic(auto)]

pub mod entry;
pub mod measured;
pub mod quarter;
pub mod reading;
pub mod sample;
pub mod signal;
mod totals;

pub use measured::Measured;
pub use quarter::measure;
pub use reading::read;
pub use sample::SetPoint;
pub use signal::{Signal, SignalArguments, SignalHeader, SignalKey};
