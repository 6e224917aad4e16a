//! A watch quarter as an element of a register.

ghost use Rattle.std.specs.Prelude.{◌≡◌};
ghost use Rattle.watch.specs.Watches.{element_shape};
ghost use Rattle.std.proofs.Common.{rules};

use crate::watch::{Watch, WatchKey};
use refusal::Document;
use register::Entry;

impl Entry for Watch {
    type Key = WatchKey;

    ghost shape = { element_shape };

    ghost decides = { Prim.search rules };

    fn key(&self) -> WatchKey {
        WatchKey {
            site: self.header.site.value,
            hour: self.header.hour.value,
            quarter: self.header.quarter.value,
        }
    }

    fn version(&self) -> u16 {
        self.header.version.value
    }

    fn document(&self) -> Document {
        Document::Watch
    }

    fn is_under(&self, key: &WatchKey) -> bool {
        *key == self.key()
    }
}
