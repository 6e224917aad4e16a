//! A row of named entries: whose name is this, and which name is wrong.

ghost use Rattle.std.specs.Prelude.{◌≡◌, ◌<◌, map, length, IfSome};
ghost use Rattle.names.specs.Names.{text};
ghost use Rattle.roster.specs.Rosters.{found, wrong, wrong_name};

use crate::entries::Named;
use names::{is_well_formed, reads_as, trim_end};

// The index of the entry whose name is the text of the field.
pub(crate) fn find<E: Named>(row: &[E], field: &[u8]) -> Option<usize>
    ensures value { result ≡ found (text field.now) (map E.named row.now) }
    ensures within { IfSome result (λ i. i < length row.now) }
{
    let field = trim_end(field);
    row.iter()
        .position(|entry| matches!(reads_as(field, entry.name()), Ok(true)))
}

// Whether a name is not well-formed, or equals the name of one of these entries.
fn is_wrong<E: Named>(earlier: &[E], name: &[u8]) -> bool
    ensures { result ≡ wrong (map E.named earlier.now) name.now }
{
    !is_well_formed(name) || earlier.iter().any(|entry| name == entry.name())
}

// The index of the first name that is not well-formed or equals an earlier one.
pub(crate) fn wrong_name<E: Named>(row: &[E]) -> Option<usize>
    ensures value { result ≡ wrong_name (map E.named row.now) }
    ensures within { IfSome result (λ i. i < length row.now) }
{
    row.iter()
        .enumerate()
        .position(|(i, entry)| is_wrong(&row[..i], entry.name()))
}
