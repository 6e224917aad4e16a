//! A signal quarter as an element of a register.

ghost use Rattle.std.specs.Prelude.{◌≡◌};
ghost use Rattle.signal.specs.Signals.{element_shape};
ghost use Rattle.std.proofs.Common.{rules};

use crate::signal::{Signal, SignalKey};
use refusal::Document;
use register::Entry;

impl Entry for Signal {
    type Key = SignalKey;

    ghost shape = { element_shape };

    ghost decides = { Prim.search rules };

    fn key(&self) -> SignalKey {
        SignalKey {
            site: self.header.site.value,
            direction: self.header.direction,
            hour: self.header.hour.value,
            quarter: self.header.quarter.value,
        }
    }

    fn version(&self) -> u16 {
        self.header.version.value
    }

    fn document(&self) -> Document {
        Document::Signal
    }

    fn is_under(&self, key: &SignalKey) -> bool {
        *key == self.key()
    }
}
