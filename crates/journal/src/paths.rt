//! Where a file that a journal names lies.

ghost use Rattle.std.specs.Prelude.{◌≡◌, IfOk};
ghost use Rattle.journal.specs.Paths.{folder_of, path_from};

use std::alloc::{AllocError, Global};

// The folder of a path, with its last slash.
fn folder(path: &[u8]) -> &[u8]
    ensures { result.now ≡ folder_of path.now }
{
    let from_end = path.iter().rev().position(|b| *b == b'/');
    &path[..path.len() - from_end.unwrap_or(path.len())]
}

// The path of a file that a journal names: from the journal's own folder, unless it is absolute.
pub fn located(heap: Global, journal: &[u8], file: &[u8]) -> Result<Vec<u8>, AllocError>
    ensures { IfOk result (λ path. path.items ≡ path_from journal.now file.now) }
{
    if file.starts_with(b"/") {
        return Vec::from_slice(heap, file);
    }
    let mut path = Vec::from_slice(heap, folder(journal))?;
    path.extend_from_slice(file)?;
    Ok(path)
}
