// The configuration: typed, and checked by one rule.
#![tactic(auto)]

mod rules;

ghost use Rattle.std.specs.Prelude.{◌≡◌, ◌+◌, ◌*◌, ◌<◌, Bool, get_or};
ghost use Rattle.laws.specs.Broken.{first_broken};
ghost use Rattle.settings.specs.Check.{Says, verdict_at, checked};
ghost use Rattle.settings.specs.Verdicts.{verdict_said};

use rules::{
    coefficient, fitted, holiday, input, period, register, rule, season, slot, sum, week, window,
};
use tariff::Program;

// Where the sections of the image begin: the offset of a bad entry is reckoned from here, and the image is read and written there.
pub const PERIOD_AT: usize = 5;

pub const INPUTS_AT: usize = 6;

pub const SUMS_AT: usize = 118;

pub const COEFFICIENTS_AT: usize = 134;

pub const SLOTS_AT: usize = 166;

pub const LIMITS_AT: usize = 198;

pub const WINDOWS_AT: usize = 262;

pub const WEEKS_AT: usize = 774;

pub const SEASONS_AT: usize = 902;

pub const HOLIDAYS_AT: usize = 934;

pub const RULES_AT: usize = 1062;

pub const REGISTERS_AT: usize = 1094;

// One impulse input. Kind 0 is not fitted, 1 S1a, 2 S1r; it is a number, since `check_config` is given the others too and refuses them.
#[derive(Clone, Copy)]
pub struct Input {
    pub kind: u8,
    pub shortest: u8,
    pub longest: u8,
    pub numerator: u16,
    pub denominator: u16,
}

// One slot of level 9; 255, 0 is empty. The level is a number for the same reason.
#[derive(Clone, Copy)]
pub struct Slot {
    pub level: u8,
    pub index: u8,
}

// One bill register; rule 255 is none, 255, 255 is unused.
#[derive(Clone, Copy)]
pub struct Register {
    pub sum: u8,
    pub rule: u8,
}

// A configuration: each field as wide as in the image. Function f has the coefficients f x 8 to f x 8 + 7.
#[derive(Clone, Copy)]
pub struct Config {
    pub period: u8,
    pub inputs: [Input; 16],
    pub sums: [u16; 8],
    pub coefficients: [i8; 32],
    pub slots: [Slot; 16],
    pub limits: [u16; 32],
    pub program: Program,
    pub registers: [Register; 16],
}

// An entry that breaks its rule: the offset of its first byte.
#[derive(Clone, Copy, Debug, PartialEq, Eq)]
pub struct BadValue {
    pub offset: usize,
}

// The check of a section, whose first entry stands at `base` and is `size` bytes: each entry is good, or the first that is not is named.
fn check_entries<T: Copy, F: Fn(T) -> bool, const N: usize>(
    base: usize,
    size: usize,
    entries: &[T; N],
    good: F,
) -> Result<(), BadValue>
    requires callable { F.IsAlwaysCallable good }
    requires fits { base + size * N < 65536 }
    ensures { (rule : T → Bool) (d : T) → Says (F.post good) rule → verdict_said result ≡ verdict_at base size N (first_broken N (λ i. rule (get_or entries.now i d))) }
{
    match entries.iter().position(|x| !good(*x)) {
        Some(i) => Err(BadValue {
            offset: base + size * i,
        }),
        None => Ok(()),
    }
}

// The sections are looked through in the order of the image, and the first bad entry ends it.
pub fn check_config(config: Config) -> Result<(), BadValue>
    ensures { verdict_said result ≡ checked config }
{
    let fitted = fitted(config.inputs);
    check_entries(PERIOD_AT, 1, &[config.period], period)?;
    check_entries(INPUTS_AT, 7, &config.inputs, input)?;
    check_entries(SUMS_AT, 2, &config.sums, |x| sum(fitted, x))?;
    check_entries(COEFFICIENTS_AT, 1, &config.coefficients, coefficient)?;
    check_entries(SLOTS_AT, 2, &config.slots, |x| slot(fitted, x))?;
    check_entries(WINDOWS_AT, 4, &config.program.windows, window)?;
    check_entries(WEEKS_AT, 1, &config.program.weeks, week)?;
    check_entries(SEASONS_AT, 4, &config.program.seasons, season)?;
    check_entries(HOLIDAYS_AT, 4, &config.program.holidays, holiday)?;
    check_entries(RULES_AT, 2, &config.program.rules, rule)?;
    check_entries(REGISTERS_AT, 2, &config.registers, register)
}
