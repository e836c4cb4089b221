// Units: what a run that ends comes to.
ghost use Rattle.std.specs.Prelude.{◌≡◌};
ghost use Rattle.counting.specs.Units.{units_of, remainder_of, held_sum};
ghost use Rattle.counting.specs.ByMask.{settled_with};

use crate::Line;
use crate::filter::{accepts, one_more};
use settings::Input;

// A line after its run, and the units of the impulse.
#[derive(Clone, Copy)]
pub struct Settled {
    pub line: Line,
    pub units: u32,
}

// The whole denominators in the remainder and the numerator. No image has a denominator of 0; one that had would bring no units.
fn units_of(input: Input, remainder: u16) -> u32
    ensures { result ≡ units_of input remainder }
{
    let denominator = input.denominator as u32;
    if denominator == 0 {
        return 0;
    }
    ((remainder as u32) + (input.numerator as u32)) / denominator
}

fn remainder_of(input: Input, remainder: u16) -> u16
    ensures { result ≡ remainder_of input remainder }
{
    let denominator = input.denominator as u32;
    if denominator == 0 {
        return remainder;
    }
    (((remainder as u32) + (input.numerator as u32)) % denominator) as u16
}

// A sum of units, held at the largest number of 32 bits, which no period reaches.
fn held_sum(units: u32, more: u32) -> u32
    ensures { result ≡ held_sum units more }
{
    units.saturating_add(more)
}

// A line on which a run ends, and the units that it brings: an accepted impulse brings units, any other run is counted as rejected.
pub fn settle(input: Input, line: Line) -> Settled
    ensures { result ≡ settled_with input line }
{
    if accepts(input, line.run) {
        let units = units_of(input, line.remainder);
        let next = Line {
            run: 0,
            remainder: remainder_of(input, line.remainder),
            units: held_sum(line.units, units),
            ..line
        };
        return Settled { line: next, units };
    }
    let next = Line {
        run: 0,
        rejected: one_more(line.rejected),
        ..line
    };
    Settled {
        line: next,
        units: 0,
    }
}
