//! The lines before a day is open: a roster is gathered until a day is opened with it.

ghost use Rattle.std.specs.Prelude.{◌≡◌, replicate, IfOk, None, Ok};
ghost use Rattle.roster.specs.Rosters.{opening};
ghost use Rattle.journal.specs.Reading.{request};
ghost use Rattle.session.specs.Gathering.{gathered, no_lines, OpeningStep, LineStep, WhenOpened, place_count};

use crate::calls::argument;
use journal::{Line, read_line};
use outcomes::{Failure, Reason};
use postings::Posting;
use roster::{Member, Site, may_open};
use std::alloc::{AllocError, Global};

// How many keys a record can have, so that no day holds more: in each direction and hour those of
// 32 sites' awards, of the two prices, of 16 members' obligations and of 999 bills for each member.
const RECORD_KEYS: usize = 2 * 24 * (32 + 1 + 1 + 16 + 16 * 999);

pub type RecordPlaces = Vec<Option<Posting>>;

fn empty_places(heap: Global, count: usize) -> Result<RecordPlaces, AllocError>
    ensures { IfOk result (λ v. v.items ≡ replicate (place_count count) None) }
{
    vec![in heap; None; count.min(RECORD_KEYS)]
}

// The members and sites that a journal's lines have named, for the day that is opened with them.
#[derive(Drop)]
pub struct RosterLines<'j> {
    pub members: Vec<Member<'j>>,
    pub sites: Vec<Site<'j>>,
}

impl<'j> RosterLines<'j> {
    pub fn new(heap: Global) -> RosterLines<'j>
        ensures { gathered result ≡ no_lines }
    {
        RosterLines {
            members: Vec::new(heap),
            sites: Vec::new(heap),
        }
    }

    // The places of a day that the roster may open; a roster that is refused is used up.
    fn day_places(&mut self, heap: Global, records: usize) -> Result<RecordPlaces, Failure>
        ensures step { OpeningStep (opening (gathered self.old)) records (gathered self.old) result (gathered self.new) }
        ensures opened { IfOk result (λ _. opening (gathered self.new) ≡ Ok tt) }
    {
        if let Err(refusal) = may_open(self.members.as_slice(), self.sites.as_slice()) {
            self.members.clear();
            self.sites.clear();
            return Err(Failure::from(refusal));
        }
        Ok(empty_places(heap, records)?)
    }

    // Takes a line: nothing comes of a line of the roster, and of an opening the places of the day.
    pub fn take(&mut self, heap: Global, line: &'j [u8]) -> Result<Option<RecordPlaces>, Failure>
        ensures step { LineStep (request line.now) (gathered self.old) result (gathered self.new) }
        ensures opened { WhenOpened result (opening (gathered self.new) ≡ Ok tt) }
    {
        match read_line(line)? {
            Line::Passed => Ok(None),
            Line::Member(name) => {
                self.members.push(Member { name })?;
                Ok(None)
            }
            Line::Site(member, name) => {
                let member = argument(member);
                self.sites.push(Site { member, name })?;
                Ok(None)
            }
            Line::Open(places) => Ok(Some(self.day_places(heap, places.records)?)),
            Line::Record(_) | Line::Records(_) | Line::Balance(_) | Line::Account(_) => {
                Err(Failure::from(Reason::NoDay))
            }
        }
    }
}
