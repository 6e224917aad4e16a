//! A roster that a day was opened with.

ghost use Rattle.std.specs.Prelude.{◌≤◌, length};

use crate::entries::{Member, Site};

pub mod methods;

#[derive(Clone, Copy)]
pub struct Roster<'a> {
    members: &'a [Member<'a>],
    sites: &'a [Site<'a>],
    ghost members_within: { length members.now ≤ 16 },
    ghost sites_within: { length sites.now ≤ 32 },
}
