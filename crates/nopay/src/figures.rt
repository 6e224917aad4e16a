//! What is not paid, of a quarter and of an hour, within its limits.

use crate::cause::Cause;
use postings::SiteKw;
use units::{Kw, UpTo};

// What is not paid of an award, day-ahead and real-time at most 20,000 each, and of a self-provision.
#[derive(Clone, Copy)]
pub struct Figures {
    pub award: UpTo<Kw, 40_000>,
    pub self_provision: SiteKw,
}

// What is not paid of a quarter, and why.
#[derive(Clone, Copy)]
pub struct NoPay {
    pub figures: Figures,
    pub cause: Option<Cause>,
}
