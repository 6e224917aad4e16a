//! A register over places that are lent.

ghost use Rattle.std.specs.Prelude.{◌≡◌, true};
ghost use Rattle.register.specs.Registers.{distinct};

use crate::entry::Entry;

mod methods;

// The places are lent, so that no call asks for memory, and only the register's own calls change what they hold: no two elements under one key.
#[derive(Drop)]
pub struct Register<'a, E: Entry> {
    places: &'a mut [Option<E>],
    ghost keys: { distinct E.Entry.shape places.now ≡ true },
}
