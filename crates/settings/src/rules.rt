// The rule of each entry.
ghost use Rattle.std.specs.Prelude.{◌≡◌};
ghost use Rattle.laws.specs.Masks.{bit_at};
ghost use Rattle.settings.specs.Rules.{period_good, input_good, fitted_in, sum_good, coefficient_good, slot_good, window_good, week_good, season_good, holiday_good, rule_good, register_good};

use crate::{Input, Register, Slot};
use std::array;
use tariff::{Holiday, Rule, Season, Window};

// A `match` over the allowed minutes: the owner names this form.
pub(crate) fn period(p: u8) -> bool
    ensures { result ≡ period_good p }
{
    match p {
        1..=6 | 10 | 12 | 15 | 20 | 30 | 60 => true,
        _ => false,
    }
}

pub(crate) fn input(x: Input) -> bool
    ensures { result ≡ input_good x }
{
    match x.kind {
        0 => x.shortest == 0 && x.longest == 0 && x.numerator == 0 && x.denominator == 0,
        1 | 2 => {
            (1..=x.longest).contains(&x.shortest)
                && (1..=10000).contains(&x.numerator)
                && (1..=10000).contains(&x.denominator)
        }
        _ => false,
    }
}

// The mask of the inputs that are fitted.
pub(crate) fn fitted(inputs: [Input; 16]) -> u32
    ensures { bit_at result ≡ fitted_in inputs }
{
    tariff::mask_of::<16>(array::from_fn(|i| inputs[i].kind != 0))
}

// No bit of a sum stands outside the mask.
pub(crate) fn sum(fitted: u32, x: u16) -> bool
    ensures { result ≡ sum_good (bit_at fitted) x }
{
    let named = x as u32;
    named & fitted == named
}

pub(crate) fn coefficient(z: i8) -> bool
    ensures { result ≡ coefficient_good z }
{
    -127 <= z
}

pub(crate) fn slot(fitted: u32, x: Slot) -> bool
    ensures { result ≡ slot_good (bit_at fitted) x }
{
    match x.level {
        0 => tariff::bit_at(fitted, x.index as usize),
        1 => x.index < 8,
        2 => x.index < 4,
        255 => x.index == 0,
        _ => false,
    }
}

pub(crate) fn window(x: Window) -> bool
    ensures { result ≡ window_good x }
{
    (x.first < x.end && x.end <= 1440) || (x.first == 0 && x.end == 0)
}

pub(crate) fn week(x: u8) -> bool
    ensures { result ≡ week_good x }
{
    matches!(x, 0..=31 | 255)
}

pub(crate) fn season(x: Season) -> bool
    ensures { result ≡ season_good x }
{
    let Season { first, second } = x;
    let unused = first.day == 0 && first.month == 0 && second.day == 0 && second.month == 0;
    let begins = calendar::exists_in_some_year(first.day, first.month);
    let ends = calendar::exists_in_some_year(second.day, second.month);
    (begins && ends) || unused
}

pub(crate) fn holiday(x: Holiday) -> bool
    ensures { result ≡ holiday_good x }
{
    if x.year == 0 {
        let unused = x.day == 0 && x.month == 0;
        return calendar::exists_in_some_year(x.day, x.month) || unused;
    }
    (1970..=2106).contains(&x.year) && calendar::day_exists(x.day, x.month, x.year)
}

pub(crate) fn rule(x: Rule) -> bool
    ensures { result ≡ rule_good x }
{
    matches!((x.season, x.week), (0..=7 | 255, 0..=15) | (255, 255))
}

pub(crate) fn register(x: Register) -> bool
    ensures { result ≡ register_good x }
{
    matches!((x.sum, x.rule), (0..=7, 0..=15 | 255) | (255, 255))
}
