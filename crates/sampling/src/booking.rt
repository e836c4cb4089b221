// What the runs that end with a sample bring: units, sums, tariffs and bills, in this order.
ghost use Rattle.std.specs.Prelude.{◌≡◌, false, ◌+◌, Some};
ghost use Rattle.counting.specs.Bills.{fills_up, sums_of};
ghost use Rattle.counting.specs.ByMask.{some_full, amounts_booked};
ghost use Rattle.sampling.specs.Kept.{InForce, fed_at_clock, aged_to, Within, refused_full, restored_lines, ended_of, ended_said};

use crate::{Line, SampleError};
use counting::bills::{fed_registers, register_units, some_full, sums_units};
use counting::bits::Bits;
use counting::units::settle;
use settings::{Config, Register};

// The registers that units go to by the tariffs in force; they are worked out once in a minute.
pub(crate) fn fed_by(config: Config, clock: u32, tariffs: &mut Option<u16>) -> u16
    requires { InForce config clock tariffs.old }
    ensures fed { result ≡ fed_at_clock config clock }
    ensures kept { tariffs.new ≡ Some result }
{
    if let Some(fed) = *tariffs {
        return fed;
    }
    let registers = config.registers;
    let program = config.program;
    let fed = fed_registers(registers, tariff::force_map_at(program, clock));
    *tariffs = Some(fed);
    fed
}

// What was worked out, at the next second: a new minute has other tariffs.
pub(crate) fn aged(tariffs: Option<u16>, clock: u32) -> Option<u16>
    ensures { result ≡ aged_to clock tariffs }
{
    if clock % 60 == 0 {
        return None;
    }
    tariffs
}

// An amount with units that do not take it past 999,999,999.
fn with_due(amount: u32, due: u64) -> u32
    requires { fills_up amount due ≡ false }
    ensures { result ≡ amount + due }
{
    ((amount as u64) + due) as u32
}

// Adds the units to the open amounts of the registers that they go to.
fn add_due(amounts: &mut [u32; 16], registers: [Register; 16], fed: u16, sums: &[u64; 8])
    requires { some_full registers amounts.old fed sums.now ≡ false }
    ensures { amounts.new ≡ amounts_booked registers amounts.old fed sums.now }
{
    for j in Bits(fed) {
        amounts[j] = with_due(amounts[j], register_units(registers[j], sums));
    }
}

// Books the units that the lines of a mask bring with a sample. Where a register would be full, no amount changes.
fn book(
    amounts: &mut [u32; 16],
    config: &Config,
    fed: u16,
    ending: u16,
    units: [u32; 16],
) -> Result<(), SampleError>
    requires { Within units ending }
    ensures full { result ≡ refused_full (some_full config.now.registers amounts.old fed (sums_of config.now.sums units)) }
    ensures amounts { amounts.new ≡ amounts_booked config.now.registers amounts.old fed (sums_of config.now.sums units) }
{
    let registers = config.registers;
    let sums = sums_units(config.sums, units, ending);
    if some_full(amounts, registers, fed, &sums) {
        return Err(SampleError::Full);
    }
    add_due(amounts, registers, fed, &sums);
    Ok(())
}

// Puts the lines of a mask back as they were.
fn restore(lines: &mut [Line; 16], before: &[Line; 16], mask: u16)
    ensures { lines.new ≡ restored_lines lines.old before.now mask }
{
    for i in Bits(mask) {
        lines[i] = before[i];
    }
}

// Ends the runs of a mask: their lines are settled, and what they bring is booked. Nothing of a sample that is refused is kept.
pub(crate) fn end_runs(
    lines: &mut [Line; 16],
    amounts: &mut [u32; 16],
    config: &Config,
    fed: u16,
    ending: u16,
) -> Result<(), SampleError>
    ensures { ended_said result lines.new amounts.new ≡ ended_of config.now fed lines.old amounts.old ending }
{
    let mut before = [Line {
        run: 0,
        rejected: 0,
        remainder: 0,
        units: 0,
    }; 16];
    let mut units = [0u32; 16];
    let mut brought: u32 = 0;
    for i in Bits(ending) {
        let line = lines[i];
        let settled = settle(config.inputs[i], line);
        before[i] = line;
        lines[i] = settled.line;
        units[i] = settled.units;
        brought |= settled.units;
    }
    if brought == 0 {
        return Ok(());
    }
    let booked = book(amounts, config, fed, ending, units);
    if booked.is_err() {
        restore(lines, &before, ending);
    }
    booked
}
