//! Worked figures, each shown to be what the definitions compute.

#![tactic(auto)]

ghost use Rattle.std.specs.Prelude.{◌≡◌};
ghost use Rattle.figures.specs.Mileages.{computed};

// Of a table of samples as an up quarter, and of its mirror image as a down quarter: adjusted mileage, set points, deviation
// and accuracy; the accuracy where three kilowatts were missed by one, and by three; the parts of that mileage and what they
// are paid; and its parts where the real-time schedule is the lesser.
pub fn mileage_figures() -> [i64; 16]
    ensures { result ≡ computed }
{
    [
        88_000, 200_000, 21_000, 8_950, // up
        88_000, 200_000, 21_000, 8_950, // down
        6_666, 0, // accuracies
        52_800, 35_200, // parts in kW
        2_362, 1_260, // payments in cents
        88_000, 0, // parts by the lesser schedule
    ]
}
