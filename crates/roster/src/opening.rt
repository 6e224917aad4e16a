//! The opening question: whether a day may be opened with these members and sites.

ghost use Rattle.std.specs.Prelude.{◌≡◌, ◌<◌, ◌≤◌, ◌+◌, map, length, OnOk};
ghost use Rattle.roster.specs.Rosters.{line_of, lines_of, counts, without_member, wrong_name as wrong_name_of, refused, opening};

use crate::entries::{Member, Named, Site};
use crate::rows::wrong_name;
use refusal::Refusal;

const MAX_MEMBERS: usize = 16;

const MAX_SITES: usize = 32;

fn check_counts(members: usize, sites: usize) -> Result<(), Refusal>
    ensures value { result ≡ counts members sites }
    ensures within { OnOk result ((members ≤ 16) × (sites ≤ 32)) }
{
    if !(1..=MAX_MEMBERS).contains(&members) {
        return Err(Refusal::MemberCount);
    }
    if sites > MAX_SITES {
        return Err(Refusal::SiteCount);
    }
    Ok(())
}

// Each site's member has to be below the count. Of at most 32 sites the index fits a byte, as that of at most 48 names does.
fn check_site_members(sites: &[Site<'_>], members: usize) -> Result<(), Refusal>
    requires { length sites.now ≤ 32 }
    ensures { result ≡ refused Refusal.SiteWithoutMember (without_member members (map line_of sites.now)) }
{
    match sites.iter().position(|site| site.member >= members) {
        Some(site) => Err(Refusal::SiteWithoutMember(site as u8)),
        None => Ok(()),
    }
}

// Each name of a row has to be well-formed and unlike those before it. The names of a refusal are counted on from `before`.
fn check_names<E: Named>(row: &[E], before: usize) -> Result<(), Refusal>
    requires { before + length row.now ≤ 48 }
    ensures { result ≡ refused (λ i. Refusal.BadName (before + i)) (wrong_name_of (map E.named row.now)) }
{
    match wrong_name(row) {
        Some(i) => Err(Refusal::BadName((before + i) as u8)),
        None => Ok(()),
    }
}

#[tactic(auto, using(crate::proofs::Openings::last_answers))]
pub fn may_open(members: &[Member<'_>], sites: &[Site<'_>]) -> Result<(), Refusal>
    ensures { result ≡ opening (lines_of members.now sites.now) }
{
    check_counts(members.len(), sites.len())?;
    check_site_members(sites, members.len())?;
    check_names(members, 0)?;
    check_names(sites, members.len())
}
