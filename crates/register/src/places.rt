//! Places, each free or with an element.

ghost use Rattle.std.specs.Prelude.{◌≡◌, length, replicate, None, position, is_none};
ghost use Rattle.register.specs.Registers.{look, holds, supersedes, put_answer, put};

use crate::entry::Entry;
use refusal::Refusal;

// Whether the element under a key stands in a place.
fn holds<E: Entry>(place: &Option<E>, key: &E::Key) -> bool
    ensures { result ≡ holds E.Entry.shape key.now place.now }
{
    place.as_ref().is_some_and(|held| held.is_under(key))
}

// Where the element under a key stands: one place after the other, since the container is a slice that is lent.
fn place_of<E: Entry>(places: &[Option<E>], key: &E::Key) -> Option<usize>
    ensures { result ≡ position (holds E.Entry.shape key.now) places.now }
{
    places.iter().position(|place| holds(place, key))
}

fn free_place<E: Entry>(places: &[Option<E>]) -> Option<usize>
    ensures { result ≡ position is_none places.now }
{
    places.iter().position(|place| place.is_none())
}

pub(crate) fn look_up<E: Entry>(places: &[Option<E>], key: &E::Key) -> Option<E>
    ensures { result ≡ look E.Entry.shape key.now places.now }
{
    let i = place_of(places, key)?;
    places[i]
}

// Whether an element takes the place of what stands there.
fn supersedes<E: Entry>(e: E, held: Option<E>) -> bool
    ensures { result ≡ supersedes E.Entry.shape e held }
{
    held.is_none_or(|held| held.version() < e.version())
}

pub(crate) fn put_into<E: Entry>(places: &mut [Option<E>], e: E) -> Result<Option<E>, Refusal>
    ensures answers { result ≡ put_answer E.Entry.shape places.old e }
    ensures leaves { places.new ≡ put E.Entry.shape places.old e }
{
    let Some(i) = place_of(places, &e.key()) else {
        let Some(i) = free_place(places) else {
            return Err(Refusal::RegisterFull);
        };
        places[i] = Some(e);
        return Ok(None);
    };
    let held = places[i];
    if !supersedes(e, held) {
        return Err(Refusal::VersionNotHigher(e.document()));
    }
    places[i] = Some(e);
    Ok(held)
}

pub(crate) fn clear<E: Entry>(places: &mut [Option<E>])
    ensures { places.new ≡ replicate (length places.old) None }
{
    places.fill(None);
}
