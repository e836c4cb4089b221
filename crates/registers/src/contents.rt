// What each register holds: the numbers of its line in document 01's table, one after another, in the first of 13 bytes; zeros after them.
ghost use Rattle.std.specs.Prelude.{◌≡◌, ◌<◌};
ghost use Rattle.profile.specs.Records.{value_at};
ghost use Rattle.registers.specs.Contents.{padded, status_shown, serial_bytes, map_bytes, result_bytes, daily_bytes, weekly_bytes, level9_bytes, bill_bytes, filter_bytes, fleet_bytes, clock_bytes};
ghost use Rattle.registers.specs.Fleet.{class_number};
ghost use Rattle.registers.specs.Registers.{registers_of, contents_of};

use crate::fleet::{Fleet, fleet_of, meter_class};
use profile::bits64;
use recorder::{Age, Bill, Line, Meter, Period, Recorder};
use tariff::Program;

// IV is the lowest bit: set unless the meter is awake.
#[tactic(auto, using(crate::proofs::Classes::class_is), unfolding(crate::specs::Contents::status_shown))]
fn status_shown(status: u8, class: Option<Age>) -> u8
    ensures { result ≡ status_shown status (class_number class) }
{
    if class == Some(Age::Awake) {
        return status;
    }
    status | 1
}

// Group 82. A meter that was never read has zeros but STATUS 1.
#[tactic(auto, using(crate::proofs::Numbers::le_bytes, crate::proofs::Classes::class_is), unfolding(laws::specs::Bytes::bytes_of, crate::specs::Contents::serial_bytes))]
fn serial(meter: Meter, class: Option<Age>) -> [u8; 13]
    ensures { result ≡ padded (serial_bytes meter (class_number class)) }
{
    let mut bytes = [0u8; 13];
    if class == Some(Age::Never) {
        bytes[8] = 1;
        return bytes;
    }
    bytes[..4].copy_from_slice(&meter.stamp.to_le_bytes());
    bytes[4..8].copy_from_slice(&meter.value.to_le_bytes());
    bytes[8] = status_shown(meter.status, class);
    bytes[9] = meter.seq;
    bytes
}

// Group 89.
#[tactic(auto, unfolding(laws::specs::Bytes::bytes_of, crate::specs::Contents::map_bytes))]
fn tariff_map(program: Program, clock: u32) -> [u8; 13]
    ensures { result ≡ padded (map_bytes program clock) }
{
    let mut bytes = [0u8; 13];
    bytes[..2].copy_from_slice(&tariff::force_map_at(program, clock).to_le_bytes());
    bytes
}

#[tactic(auto, unfolding(laws::specs::Bytes::bytes_of, crate::specs::Contents::result_bytes))]
fn result(active: bool) -> [u8; 13]
    ensures { result ≡ padded (result_bytes active) }
{
    let mut bytes = [0u8; 13];
    bytes[0] = u8::from(active);
    bytes
}

// Group 90 goes by the minute alone.
#[tactic(auto, unfolding(crate::specs::Contents::daily_bytes))]
fn daily(program: Program, rule: u8, clock: u32) -> [u8; 13]
    ensures { result ≡ padded (daily_bytes program rule clock) }
{
    result(tariff::daily_active(program, rule, (clock / 60 % 1440) as u16))
}

// Group 91.
#[tactic(auto, unfolding(crate::specs::Contents::weekly_bytes))]
fn weekly(program: Program, rule: u8, clock: u32) -> [u8; 13]
    ensures { result ≡ padded (weekly_bytes program rule clock) }
{
    match calendar::moment_of(clock) {
        Some(m) => result(tariff::weekly_active(program, rule, m)),
        None => result(false),
    }
}

// Group 201: state, stamp and value; zeros if no period is closed.
#[tactic(auto, using(crate::proofs::Numbers::le_bytes), unfolding(laws::specs::Bytes::bytes_of, crate::specs::Contents::level9_bytes))]
fn level9(closed: Period, i: usize) -> [u8; 13]
    requires { i < 16 }
    ensures { result ≡ padded (level9_bytes closed.state closed.stamp (value_at closed.values i)) }
{
    let mut bytes = [0u8; 13];
    if closed.state == 0 {
        return bytes;
    }
    bytes[0] = closed.state;
    bytes[1..5].copy_from_slice(&closed.stamp.to_le_bytes());
    let values = closed.values;
    bytes[5..].copy_from_slice(&bits64(values[i]).to_le_bytes());
    bytes
}

// Group 202: the closed amount and its stamp are zero if there was no reset.
#[tactic(auto, using(crate::proofs::Numbers::le_bytes), unfolding(laws::specs::Bytes::bytes_of, crate::specs::Contents::bill_bytes))]
fn bill(bill: Bill) -> [u8; 13]
    ensures { result ≡ padded (bill_bytes bill) }
{
    let mut bytes = [0u8; 13];
    bytes[1..5].copy_from_slice(&bill.amount.to_le_bytes());
    if bill.reset {
        bytes[0] = 1;
        bytes[5..9].copy_from_slice(&bill.closed.to_le_bytes());
        bytes[9..].copy_from_slice(&bill.stamp.to_le_bytes());
    }
    bytes
}

// Group 203.
#[tactic(auto, unfolding(laws::specs::Bytes::bytes_of, crate::specs::Contents::filter_bytes))]
fn input(line: Line) -> [u8; 13]
    ensures { result ≡ padded (filter_bytes line) }
{
    let mut bytes = [0u8; 13];
    bytes[..2].copy_from_slice(&line.rejected.to_le_bytes());
    bytes[2..4].copy_from_slice(&line.remainder.to_le_bytes());
    bytes
}

// Group 204.
#[tactic(auto, using(crate::proofs::Numbers::le_bytes), unfolding(laws::specs::Bytes::bytes_of, crate::specs::Contents::fleet_bytes))]
fn fleet_bytes(fleet: Fleet) -> [u8; 13]
    ensures { result ≡ padded (fleet_bytes fleet) }
{
    let mut bytes = [0u8; 13];
    bytes[0] = fleet.fitted;
    bytes[1] = fleet.awake;
    bytes[2] = fleet.stale;
    bytes[3] = fleet.invalid;
    bytes[4] = fleet.never;
    bytes[5..].copy_from_slice(&bits64(fleet.sum).to_le_bytes());
    bytes
}

// Group 206.
#[tactic(auto, using(crate::proofs::Numbers::le_bytes), unfolding(laws::specs::Bytes::bytes_of, crate::specs::Contents::clock_bytes))]
fn clock_bytes(clock: u32, samples: u8) -> [u8; 13]
    ensures { result ≡ padded (clock_bytes clock samples) }
{
    let mut bytes = [0u8; 13];
    bytes[..4].copy_from_slice(&clock.to_le_bytes());
    bytes[4] = samples;
    bytes
}

// A register that its group has. Each array is copied to a local before its variable index: indexed in its struct, the whole struct would be copied.
#[tactic(auto, unfolding(crate::specs::Registers::groups, crate::specs::Registers::look_up, crate::specs::Contents::meter_bytes, crate::specs::Contents::level_bytes, crate::specs::Fleet::class_at))]
pub(crate) fn contents(recorder: Recorder, group: u32, register: u32) -> [u8; 13]
    requires { register < registers_of group }
    ensures { result ≡ padded (contents_of recorder group register) }
{
    let config = recorder.config;
    let state = recorder.state;
    let i = register as usize;
    match group {
        82 => {
            let meters = state.meters;
            let limits = config.limits;
            let meter = meters[i];
            serial(meter, meter_class(limits[i], meter, state.clock))
        }
        89 => tariff_map(config.program, state.clock),
        90 => daily(config.program, register as u8, state.clock),
        91 => weekly(config.program, register as u8, state.clock),
        201 => level9(state.closed, i),
        202 => {
            let bills = state.bills;
            bill(bills[i])
        }
        203 => {
            let lines = state.lines;
            input(lines[i])
        }
        204 => fleet_bytes(fleet_of(recorder)),
        206 => clock_bytes(state.clock, state.samples),
        _ => [0u8; 13],
    }
}
