//! Lines of a journal, and records of a file.

ghost use Rattle.std.specs.Prelude.{◌≡◌, map, IfOk};
ghost use Rattle.journal.specs.Lines.{line_of, after_line, records_of};

use crate::cuts::split_before;
use std::alloc::{AllocError, Global};

// The first line without its end, and what follows it.
pub fn split_line(text: &[u8]) -> (&[u8], &[u8])
    ensures line { result.0.now ≡ line_of text.now }
    ensures rest { result.1.now ≡ after_line text.now }
{
    let (line, rest) = split_before(text, |b| *b == b'\n');
    match rest {
        [_, after @ ..] => (line.strip_suffix(b"\r").unwrap_or(line), after),
        [] => (line, rest),
    }
}

// The records of a file, byte for byte.
pub fn records<'a>(heap: Global, text: &'a [u8]) -> Result<Vec<&'a [u8]>, AllocError>
    ensures { IfOk result (λ v. map (λ x. x.now) v.items ≡ records_of text.now) }
{
    text.split_inclusive(|b| *b == b'\n').collect(heap)
}
