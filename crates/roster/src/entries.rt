//! The entries of a roster, and the numbers by which it is asked for them.

ghost use Rattle.std.specs.Prelude.{◌≡◌, ℕ, List};

use units::Below;

// What has a name in a roster.
pub trait Named {
    ghost named: { Self → List ℕ };

    fn name(&self) -> &[u8]
        ensures { result.now ≡ named self.now };
}

// A member of the pool: it is billed and paid.
#[derive(Clone, Copy)]
pub struct Member<'a> {
    pub name: &'a [u8],
}

// A battery yard, cold store or pump house, with the index of its member.
#[derive(Clone, Copy)]
pub struct Site<'a> {
    pub member: usize,
    pub name: &'a [u8],
}

impl<'a> Named for Member<'a> {
    ghost named = { λ m. m.name.now };

    fn name(&self) -> &[u8] {
        self.name
    }
}

impl<'a> Named for Site<'a> {
    ghost named = { λ s. s.name.now };

    fn name(&self) -> &[u8] {
        self.name
    }
}

// A member by its index, 0 to 15.
pub type MemberIndex = Below<16>;

// A site by its index, 0 to 31.
pub type SiteIndex = Below<32>;
