//! A text cut at the first byte that passes a test.

ghost use Rattle.std.specs.Prelude.{◌≡◌, ℕ, Bool};
ghost use Rattle.std.specs.List.{before_first};
ghost use Rattle.std.specs.Fn.{FnReturnsAt};
ghost use Rattle.journal.specs.Cuts.{from_first};

// The text before its first byte that passes the test, and the text from there on.
pub fn split_before<P: Fn(&u8) -> bool>(text: &[u8], test: P) -> (&[u8], &[u8])
    requires { P.IsAlwaysCallable test }
    ensures { (kind : ℕ → Bool) → ((b : ℕ) (r : Bool) → FnReturnsAt P.Fn test b r → r ≡ kind b) → (result.0.now ≡ before_first kind text.now) × (result.1.now ≡ from_first kind text.now) }
{
    let len = text.iter().position(test).unwrap_or(text.len());
    text.split_at(len)
}
