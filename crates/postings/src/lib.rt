//! What a record posts, as typed values, and the key that it is held under.

#![tactic(auto)]

pub mod entry;
pub mod posting;

pub use posting::{
    Award, Bill, BillNumber, CapacityPrice, CapacityPrices, Content, Key, Kind, MileagePrice,
    MileagePrices, Obligation, Posting, Side, SiteKw, Subject,
};
