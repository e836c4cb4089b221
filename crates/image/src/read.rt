// Reading a configuration: a section, the whole.
ghost use Rattle.std.specs.Prelude.{◌≡◌, ◌+◌, ◌*◌, ◌≤◌, length, drop};
ghost use Rattle.laws.specs.Runs.{entries};
ghost use Rattle.image.specs.Image.{program_in, decode};

use crate::Config;
use crate::entry::Entry;
use settings::{
    COEFFICIENTS_AT, HOLIDAYS_AT, INPUTS_AT, LIMITS_AT, PERIOD_AT, REGISTERS_AT, RULES_AT,
    SEASONS_AT, SLOTS_AT, SUMS_AT, WEEKS_AT, WINDOWS_AT,
};
use std::array;
use tariff::Program;

// The section that bytes start with. The closure has its clauses here, since the check does not read them off a body that is generic in a number.
fn section<T: Entry<S>, const S: usize, const N: usize>(bytes: &[u8]) -> [T; N]
    requires { S * N ≤ length bytes.now }
    ensures { result ≡ entries T.dec S N bytes.now }
{
    array::from_fn(
        |i| -> T
            requires { S * i + S ≤ length bytes.now }
            ensures { result ≡ T.dec (drop (S * i) bytes.entry.now) }
        { T::from_bytes(bytes[S * i..].first_chunk().unwrap()) },
    )
}

// The tariff program that an image holds.
fn program(bytes: &[u8]) -> Program
    requires { 1126 ≤ length bytes.now }
    ensures { result ≡ program_in bytes.now }
{
    Program {
        windows: section(&bytes[WINDOWS_AT..]),
        weeks: section(&bytes[WEEKS_AT..]),
        seasons: section(&bytes[SEASONS_AT..]),
        holidays: section(&bytes[HOLIDAYS_AT..]),
        rules: section(&bytes[RULES_AT..]),
    }
}

// The configuration that an image holds.
pub(crate) fn config(bytes: &[u8]) -> Config
    requires { 1126 ≤ length bytes.now }
    ensures { result ≡ decode bytes.now }
{
    Config {
        period: bytes[PERIOD_AT],
        inputs: section(&bytes[INPUTS_AT..]),
        sums: section(&bytes[SUMS_AT..]),
        coefficients: section(&bytes[COEFFICIENTS_AT..]),
        slots: section(&bytes[SLOTS_AT..]),
        limits: section(&bytes[LIMITS_AT..]),
        program: program(bytes),
        registers: section(&bytes[REGISTERS_AT..]),
    }
}
