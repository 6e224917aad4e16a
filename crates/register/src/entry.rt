//! What a register holds.

ghost use Rattle.std.specs.Prelude.{◌≡◌};
ghost use Rattle.register.specs.Shapes.{Shape, Decides};

use refusal::Document;

// An element of a register.
pub trait Entry: Copy {
    type Key: Copy;

    ghost shape: { Shape Self Self.Key };

    fn key(&self) -> Self::Key
        ensures { result ≡ shape.key self.now };

    fn version(&self) -> u16
        ensures { result ≡ shape.version self.now };

    fn document(&self) -> Document
        ensures { result ≡ shape.document self.now };

    // Whether the element stands under the key; a key need have no `==` of its own.
    fn is_under(&self, key: &Self::Key) -> bool
        ensures { result ≡ shape.same key.now (shape.key self.now) };

    // The comparison of keys tells whether they are equal.
    ghost decides: { Decides shape.same };
}
