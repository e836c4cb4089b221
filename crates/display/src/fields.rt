// One field of a register, read through the register request.
ghost use Rattle.std.specs.Prelude.{◌≡◌, ◌+◌, ◌≤◌, ◌^◌, ◌<◌, drop, length, sum};
ghost use Rattle.laws.specs.Bytes.{le};
ghost use Rattle.display.specs.Fields.{field_bytes, is_signed, signed_value, read_by, field_of};
ghost use Rattle.display.specs.Steps.{field_said};

use recorder::Recorder;
use registers::read_register;

// A number with its sign apart: whether it is negative, and its size.
#[derive(Clone, Copy)]
pub(crate) struct Value {
    pub minus: bool,
    pub size: u64,
}

// How many bytes each field of a group's registers has.
#[tactic(auto, unfolding(crate::specs::Fields::field_bytes))]
fn field_bytes(group: u32) -> &'static [u8]
    ensures { result.now ≡ field_bytes group }
{
    match group {
        82 => &[4, 4, 1, 1],
        89 => &[2],
        90..=91 => &[1],
        201 => &[1, 4, 8],
        202 => &[1, 4, 4, 4],
        203 => &[2, 2],
        204 => &[1, 1, 1, 1, 1, 8],
        206 => &[4, 1],
        _ => &[],
    }
}

// A serial value, a level 9 value, and the sum of the awake values.
fn is_signed(group: u32, field: usize) -> bool
    ensures { result ≡ is_signed group field }
{
    match group {
        82 => field == 1,
        201 => field == 2,
        204 => field == 5,
        _ => false,
    }
}

// Where a field begins: behind those before it.
fn start_of(before: &[u8]) -> usize
    requires { length before.now ≤ 6 }
    ensures { result ≡ sum before.now }
{
    before.iter().map(|n| usize::from(*n)).sum()
}

// The number that n bytes are from a place on, the least significant first.
fn number_in(bytes: [u8; 13], start: usize, n: usize) -> u64
    requires { (start + n ≤ 13) × (n ≤ 8) }
    ensures { (result ≡ le n (drop start bytes)) × (result < 256 ^ n) }
{
    let mut eight = [0u8; 8];
    eight[..n].copy_from_slice(&bytes[start..start + n]);
    u64::from_le_bytes(eight)
}

// The largest number of n bytes.
fn most_of(n: u8) -> u64
    requires { (1 ≤ n) × (n ≤ 8) }
    ensures { result + 1 ≡ 256 ^ n }
{
    u64::MAX >> (64 - 8 * n)
}

// Two's complement in n bytes: from half of what they can hold on, a number is negative.
fn value_of(signed: bool, n: u8, number: u64) -> Value
    requires { (1 ≤ n) × (n ≤ 8) × (number < 256 ^ n) }
    ensures { result ≡ signed_value signed n number }
{
    let most = most_of(n);
    if signed && most / 2 < number {
        return Value {
            minus: true,
            size: most - number + 1,
        };
    }
    Value {
        minus: false,
        size: number,
    }
}

// A field of a register that can be read.
pub(crate) fn field_of(recorder: Recorder, group: u8, register: u8, field: u8) -> Option<Value>
    ensures { field_said result ≡ field_of (read_by recorder) group register field }
{
    let mut bytes = [0u8; 13];
    read_register(recorder, group as u32, register as u32, &mut bytes).ok()?;
    let k = field as usize;
    let widths = field_bytes(group as u32);
    let n = *widths.get(k)?;
    let number = number_in(bytes, start_of(&widths[..k]), n as usize);
    Some(value_of(is_signed(group as u32, k), n, number))
}
