//! The calls of a register: what is done to places is said of lists of places alone, and a call adds what the register keeps.

ghost use Rattle.std.specs.Prelude.{◌≡◌, length, replicate, None, true};
ghost use Rattle.register.specs.Registers.{look, distinct, put_answer, put, HeldAfter, SumsByKey, SumsBounded};
ghost use Rattle.register.specs.Held.{places_in};

use crate::container::Register;
use crate::entry::Entry;
use crate::places::{clear, look_up, put_into};
use refusal::Refusal;

impl<'a, E: Entry> Register<'a, E> {
    // A register of the places lent, with nothing in it.
    pub fn new(places: &'a mut [Option<E>]) -> Register<'a, E>
        ensures { places_in result ≡ replicate (length places.old) None }
    {
        clear(places);
        Register { places }
    }

    // What is held under the key.
    pub fn find(&self, key: &E::Key) -> Option<E>
        ensures { result ≡ look E.Entry.shape key.now (places_in self.now) }
    {
        look_up(self.places, key)
    }

    // Takes an element in, and answers what it replaced.
    pub fn put(&mut self, e: E) -> Result<Option<E>, Refusal>
        ensures answers { result ≡ put_answer E.Entry.shape (places_in self.old) e }
        ensures leaves { places_in self.new ≡ put E.Entry.shape (places_in self.old) e }
        ensures laws { HeldAfter E.Entry.shape e result (places_in self.old) (places_in self.new) }
    {
        put_into(self.places, e)
    }

    // The places, for a sum over what is held.
    pub fn entries(&self) -> &[Option<E>]
        ensures value { result.now ≡ places_in self.now }
        ensures keys { distinct E.Entry.shape result.now ≡ true }
        ensures by_key { SumsByKey E.Entry.shape result.now }
        ensures bounded { SumsBounded E.Entry.shape result.now }
    {
        let places: &[Option<E>] = self.places;
        places
    }
}
