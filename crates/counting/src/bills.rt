// Bills: what a sample books to the bill registers.
ghost use Rattle.std.specs.Prelude.{◌≡◌, ◌≤◌, length, if◌then◌else◌};
ghost use Rattle.counting.specs.Bills.{sum_of, unit_at, sums_of, register_units, fills_up};
ghost use Rattle.counting.specs.ByMask.{masked_units, Below, added_units, fed_registers, some_full, amounts_of, with_amounts};

use crate::Bill;
use crate::bits::Bits;
use settings::Register;
use tariff::{bit_at, with_bit};

fn part(on: bool, units: u32) -> u64
    ensures { (result ≡ (if on then units else 0)) × (result ≤ 4294967295) }
{
    if on {
        return units as u64;
    }
    0
}

// The units of the inputs that a sum names.
pub(crate) fn sum_units(sum: u16, units: [u32; 16]) -> u64
    ensures { (result ≡ sum_of sum (unit_at units)) × (result ≤ 68719476720) }
{
    let mut all: u64 = 0;
    for i in 0..16usize {
        all += part(bit_at(sum as u32, i), units[i]);
    }
    all
}

// Adds the units of input i to each sum that names it.
fn add_units(totals: &mut [u64; 8], sums: [u16; 8], i: usize, units: u32)
    requires { Below totals.old }
    ensures { totals.new ≡ added_units totals.old sums i units }
{
    for (k, total) in totals.iter_mut().enumerate() {
        *total += part(bit_at(sums[k] as u32, i), units);
    }
}

// The units that the inputs of a mask bring to the sums. Few inputs bring units with a sample, so these are gone through and not the sums.
pub fn sums_units(sums: [u16; 8], units: [u32; 16], mask: u16) -> [u64; 8]
    ensures { result ≡ sums_of sums (masked_units units mask) }
{
    let mut totals = [0u64; 8];
    for i in Bits(mask) {
        add_units(&mut totals, sums, i, units[i]);
    }
    totals
}

// The units of a register's sum; a register that is not in use has none.
pub fn register_units(register: Register, sums: &[u64; 8]) -> u64
    ensures { result ≡ register_units register sums.now }
{
    sums.get(register.sum as usize).copied().unwrap_or(0)
}

// The registers that units go to: they are in use, and have no rule, or their rule is in the map.
pub fn fed_registers(registers: [Register; 16], map: u16) -> u16
    ensures { result ≡ fed_registers registers map }
{
    let mut mask: u32 = 0;
    for j in 0..16usize {
        let register = registers[j];
        let on = (register.rule == 255) | bit_at(map as u32, register.rule as usize);
        mask = with_bit(mask, j, (register.sum < 8) & on);
    }
    mask as u16
}

// Whether the units would take a register past 999,999,999. A register that gets none is not asked.
fn would_fill(amount: u32, due: u64) -> bool
    ensures { result ≡ fills_up amount due }
{
    let room = 999999999u32.saturating_sub(amount);
    (room as u64) < due
}

// Whether the units would take one of the registers that they go to past 999,999,999.
pub fn some_full(amounts: &[u32; 16], registers: [Register; 16], fed: u16, sums: &[u64; 8]) -> bool
    ensures { result ≡ some_full registers amounts.now fed sums.now }
{
    let mut left = fed;
    while left > 0 {
        let j = left.trailing_zeros() as usize;
        if would_fill(amounts[j], register_units(registers[j], sums)) {
            return true;
        }
        left &= left - 1;
    }
    false
}

// The open amounts of the bills, as numbers.
pub fn amounts_of(bills: [Bill; 16]) -> [u32; 16]
    ensures { result ≡ amounts_of bills }
{
    let mut amounts = [0u32; 16];
    for (j, bill) in bills.iter().enumerate() {
        amounts[j] = bill.amount;
    }
    amounts
}

// The bills with these open amounts.
pub fn put_amounts(bills: [Bill; 16], amounts: [u32; 16]) -> [Bill; 16]
    ensures { result ≡ with_amounts bills amounts }
{
    let mut next = bills;
    for (j, bill) in next.iter_mut().enumerate() {
        bill.amount = amounts[j];
    }
    next
}
