//! What is not paid of an hour.

ghost use Rattle.std.specs.Prelude.{◌≡◌, map};
ghost use Rattle.nopay.specs.NoPay.{hour_figure};

use crate::figures::{Figures, NoPay};
use units::{Kw, UpTo};

const QUARTERS: i64 = 4;

// A quarter of the sum of four figures, rounded down.
fn hour_figure<const LIMIT: u32>(quarters: [UpTo<Kw, LIMIT>; 4]) -> UpTo<Kw, LIMIT>
    ensures { result.value.0 ≡ hour_figure (map (λ q. q.value.0) quarters.entry) }
{
    let [first, second, third, fourth] = quarters;
    let sum = first.value + second.value + third.value + fourth.value;
    UpTo {
        value: Kw(sum.0.div_euclid(QUARTERS)),
    }
}

// A quarter of what is not paid of its four quarters, rounded down.
pub fn hour_figures(quarters: &[NoPay; 4]) -> Figures
    ensures award { result.award.value.0 ≡ hour_figure (map (λ q. q.figures.award.value.0) quarters.now) }
    ensures self_provision { result.self_provision.value.0 ≡ hour_figure (map (λ q. q.figures.self_provision.value.0) quarters.now) }
{
    Figures {
        award: hour_figure(quarters.map(|quarter| quarter.figures.award)),
        self_provision: hour_figure(quarters.map(|quarter| quarter.figures.self_provision)),
    }
}
