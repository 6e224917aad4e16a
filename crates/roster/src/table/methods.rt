//! Making a roster, and asking it.

ghost use Rattle.std.specs.Prelude.{◌≡◌, ◌<◌, ◌≤◌, map, length, IfSome, Ok, MatchOption};
ghost use Rattle.std.specs.Option.{option_map};
ghost use Rattle.roster.specs.Rosters.{lines_of, roster_of, site_names, found, opening};
ghost use Rattle.names.specs.Names.{text};

use crate::entries::{Member, MemberIndex, Named, Site, SiteIndex};
use crate::rows::find;
use crate::table::Roster;
use units::Below;

// The index in a row of at most N of the entry that the text of a name field names.
fn index_in<E: Named, const N: u8>(row: &[E], field: &[u8]) -> Option<Below<N>>
    requires { length row.now ≤ N }
    ensures value { option_map (λ i. i.value) result ≡ found (text field.now) (map E.named row.now) }
    ensures within { IfSome result (λ i. i.value < length row.now) }
{
    let i = find(row, field)?;
    Below::try_from(i).ok()
}

impl<'a> Roster<'a> {
    // The step that follows the opening question.
    #[tactic(auto, using(crate::proofs::Openings::opened_within))]
    pub fn new(members: &'a [Member<'a>], sites: &'a [Site<'a>]) -> Roster<'a>
        requires { opening (lines_of members.now sites.now) ≡ Ok tt }
        ensures { roster_of result ≡ lines_of members.now sites.now }
    {
        Roster { members, sites }
    }

    pub fn member_count(&self) -> usize
        ensures count { result ≡ length (roster_of self.now).members }
        ensures within { result ≤ 16 }
    {
        self.members.len()
    }

    // The site of a number, if it is on the roster.
    pub fn site(&self, number: usize) -> Option<SiteIndex>
        ensures { MatchOption result (length (roster_of self.now).sites ≤ number) (λ i. (i.value ≡ number) × (number < length (roster_of self.now).sites)) }
    {
        if number < self.sites.len() {
            SiteIndex::try_from(number).ok()
        } else {
            None
        }
    }

    // The member that the text of a name field names.
    pub fn find_member(&self, field: &[u8]) -> Option<MemberIndex>
        ensures value { option_map (λ i. i.value) result ≡ found (text field.now) (roster_of self.now).members }
        ensures within { IfSome result (λ i. i.value < length (roster_of self.now).members) }
    {
        index_in(self.members, field)
    }

    // The site that the text of a name field names.
    #[tactic(auto, using(crate::proofs::Openings::site_names_of))]
    pub fn find_site(&self, field: &[u8]) -> Option<SiteIndex>
        ensures value { option_map (λ i. i.value) result ≡ found (text field.now) (site_names (roster_of self.now)) }
        ensures within { IfSome result (λ i. i.value < length (roster_of self.now).sites) }
    {
        index_in(self.sites, field)
    }
}
