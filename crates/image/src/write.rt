// Writing a configuration: a section, the whole. Each leaves every other byte as it was.
ghost use Rattle.std.specs.Prelude.{◌≡◌, ◌*◌, ◌≤◌, ◌++◌, length, take, drop};
ghost use Rattle.laws.specs.Runs.{joined};
ghost use Rattle.image.specs.Image.{program_bytes, encode};

use crate::Config;
use crate::entry::Entry;
use settings::{
    COEFFICIENTS_AT, HOLIDAYS_AT, INPUTS_AT, LIMITS_AT, REGISTERS_AT, RULES_AT, SEASONS_AT,
    SLOTS_AT, SUMS_AT, WEEKS_AT, WINDOWS_AT,
};
use tariff::Program;

// A section, into the first bytes.
fn section<T: Entry<S>, const S: usize, const N: usize>(bytes: &mut [u8], entries: &[T; N])
    requires { S * N ≤ length bytes.old }
    ensures { bytes.new ≡ joined T.enc entries.now ++ drop (S * N) bytes.old }
{
    for (i, x) in entries.iter().enumerate() {
        bytes[S * i..S * (i + 1)].copy_from_slice(&x.to_bytes());
    }
}

// The tariff program, into its sections.
fn program(bytes: &mut [u8], p: Program)
    requires { 1126 ≤ length bytes.old }
    ensures { bytes.new ≡ take 262 bytes.old ++ (program_bytes p ++ drop 1094 bytes.old) }
{
    section(&mut bytes[WINDOWS_AT..], &p.windows);
    section(&mut bytes[WEEKS_AT..], &p.weeks);
    section(&mut bytes[SEASONS_AT..], &p.seasons);
    section(&mut bytes[HOLIDAYS_AT..], &p.holidays);
    section(&mut bytes[RULES_AT..], &p.rules);
}

// The image of a configuration, into the first 1,126 bytes.
pub(crate) fn config(bytes: &mut [u8], c: Config)
    requires { 1126 ≤ length bytes.old }
    ensures { bytes.new ≡ encode c ++ drop 1126 bytes.old }
{
    bytes[..INPUTS_AT].copy_from_slice(&[b'K', b'R', b'C', 1, 0, c.period]);
    section(&mut bytes[INPUTS_AT..], &c.inputs);
    section(&mut bytes[SUMS_AT..], &c.sums);
    section(&mut bytes[COEFFICIENTS_AT..], &c.coefficients);
    section(&mut bytes[SLOTS_AT..], &c.slots);
    section(&mut bytes[LIMITS_AT..], &c.limits);
    program(bytes, c.program);
    section(&mut bytes[REGISTERS_AT..], &c.registers);
}
