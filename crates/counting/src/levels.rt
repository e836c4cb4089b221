// Levels 1, 2 and 9, worked out from level 0 when a period closes.
ghost use Rattle.std.specs.Prelude.{◌≡◌, ◌+◌, ◌≤◌, ◌<◌, ◌^◌, pos, nat_abs, ◌+ℤ◌, ◌*ℤ◌};
ghost use Rattle.counting.specs.Levels.{level0, input_value, sum_value, function_value, slot_value, slot_values};

use crate::Line;
use crate::bills::sum_units;
use settings::{Config, Slot};
use std::array;

// Level 0 of all inputs.
fn line_units(lines: [Line; 16]) -> [u32; 16]
    ensures { result ≡ level0 lines }
{
    array::from_fn(|i| lines[i].units)
}

// A coefficient times the units of a sum, added. A sum of 16 inputs has at most 16 times 32 bits.
fn plus_times(value: i64, coefficient: i8, units: u64) -> i64
    requires { (nat_abs value ≤ 2 ^ 60) × (units ≤ 68719476720) }
    ensures { (result ≡ value +ℤ (coefficient *ℤ pos units)) × (nat_abs result ≤ nat_abs value + 2 ^ 44) }
{
    value + (coefficient as i64) * (units as i64)
}

// Level 2 of a function; there are four.
fn function_value(coefficients: [i8; 32], sums: [u16; 8], function: usize, units: [u32; 16]) -> i64
    ensures { result ≡ function_value coefficients sums function units }
{
    if function >= 4 {
        return 0;
    }
    let mut value: i64 = 0;
    for k in 0..8usize {
        value = plus_times(
            value,
            coefficients[function * 8 + k],
            sum_units(sums[k], units),
        );
    }
    value
}

// Level 0 of an input; there are sixteen.
fn input_value(input: usize, units: [u32; 16]) -> i64
    ensures { result ≡ input_value input units }
{
    i64::from(units.get(input).copied().unwrap_or(0))
}

// Level 1 of a sum; there are eight.
fn sum_value(sums: [u16; 8], sum: usize, units: [u32; 16]) -> i64
    ensures { result ≡ sum_value sums sum units }
{
    match sums.get(sum) {
        Some(sum) => sum_units(*sum, units) as i64,
        None => 0,
    }
}

// The value that a slot of level 9 chooses; 0 of an empty one.
fn slot_value(config: Config, slot: Slot, units: [u32; 16]) -> i64
    ensures { result ≡ slot_value config units slot }
{
    let index = slot.index as usize;
    let sums = config.sums;
    if slot.level == 0 {
        return input_value(index, units);
    }
    if slot.level == 1 {
        return sum_value(sums, index, units);
    }
    if slot.level == 2 {
        let coefficients = config.coefficients;
        return function_value(coefficients, sums, index, units);
    }
    0
}

fn slot_values(config: Config, units: [u32; 16]) -> [i64; 16]
    ensures { result ≡ slot_values config units }
{
    let slots = config.slots;
    array::from_fn(|i| slot_value(config, slots[i], units))
}

// The values of level 9 at the end of a period.
pub fn level9(config: Config, lines: [Line; 16]) -> [i64; 16]
    ensures { result ≡ slot_values config (level0 lines) }
{
    slot_values(config, line_units(lines))
}
