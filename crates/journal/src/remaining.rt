//! The lines of a journal one after the other.

ghost use Rattle.std.specs.Prelude.{◌≡◌, ◌+◌, ◌-◌, ◌^◌, min, length, MatchOption};
ghost use Rattle.std.specs.Iterator.{at_most};
ghost use Rattle.journal.specs.Lines.{line_of, after_line};

use crate::lines::split_line;

// What is left of a journal, and the number of the last line that was taken from it.
#[derive(Drop)]
pub struct Lines<'a> {
    rest: &'a [u8],
    number: u64,
}

impl<'a> Lines<'a> {
    pub fn new(text: &'a [u8]) -> Lines<'a>
        ensures rest { result.rest.now ≡ text.now }
        ensures number { result.number ≡ 0 }
    {
        Lines {
            rest: text,
            number: 0,
        }
    }
}

// Each line with its number, from 1.
impl<'a> Iterator for Lines<'a> {
    type Item = (u64, &'a [u8]);

    ghost next_gives = { λ s r t. (t.rest.now ≡ after_line s.rest.now) × MatchOption r ((length s.rest.now ≡ 0) × (t.number ≡ s.number)) (λ x. (x.0 ≡ t.number) × (x.1.now ≡ line_of s.rest.now) × (t.number ≡ min (s.number + 1) (2 ^ 64 - 1))) };

    ghost remaining = { λ s. at_most (length s.rest.now) };

    fn next(&mut self) -> Option<(u64, &'a [u8])> {
        if self.rest.is_empty() {
            return None;
        }
        let (line, rest) = split_line(self.rest);
        self.rest = rest;
        self.number = self.number.saturating_add(1);
        Some((self.number, line))
    }
}
