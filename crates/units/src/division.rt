//! Division that rounds towards minus infinity.

ghost use Rattle.std.specs.Prelude.{◌≡◌, pos, ◌+ℤ◌, ◌*ℤ◌, ◌≤ℤ◌, ◌<ℤ◌, MatchOption};
ghost use Rattle.units.specs.Division.{floor_div, quotient};

// The quotient by a divisor above 0; no other divides.
pub fn floor_div(n: i64, d: i64) -> Option<i64>
    ensures value { result ≡ quotient n d }
    ensures low { MatchOption result (d ≤ℤ pos 0) (λ q. (d *ℤ q) ≤ℤ n) }
    ensures high { MatchOption result (d ≤ℤ pos 0) (λ q. n <ℤ (d *ℤ (q +ℤ pos 1))) }
{
    if d > 0 { Some(n.div_euclid(d)) } else { None }
}
