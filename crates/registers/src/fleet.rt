// The fleet of serial meters: masks of meters by age class, counted, and the sum of the awake values.
ghost use Rattle.std.specs.Prelude.{◌≡◌, cond, ◌+◌, ◌≤◌, ◌^◌, pos, nat_abs, ◌+ℤ◌};
ghost use Rattle.registers.specs.Fleet.{class_number, meter_class, fleet_of};

use recorder::{Age, Meter, Recorder};
use tariff::with_bit;

// How many meters are fitted, how many of these are of each class, and the sum of the awake values.
#[derive(Clone, Copy)]
pub struct Fleet {
    pub fitted: u8,
    pub awake: u8,
    pub stale: u8,
    pub invalid: u8,
    pub never: u8,
    pub sum: i64,
}

// A meter with limit 0 is not fitted and has no class.
#[tactic(auto, unfolding(crate::specs::Fleet::meter_class))]
pub(crate) fn meter_class(limit: u16, meter: Meter, clock: u32) -> Option<Age>
    ensures { class_number result ≡ meter_class limit meter clock }
{
    if limit == 0 {
        return None;
    }
    Some(recorder::age_class(
        limit as u32,
        meter.read,
        meter.stamp,
        meter.status as u32,
        clock,
    ))
}

// A value added where it is wanted. 32 values of 32 bits are far from the end of 64.
fn plus_if(sum: i64, wanted: bool, value: i32) -> i64
    requires { nat_abs sum ≤ 2 ^ 62 }
    ensures { (result ≡ sum +ℤ cond wanted value (pos 0)) × (nat_abs result ≤ nat_abs sum + 2 ^ 31) }
{
    if wanted { sum + i64::from(value) } else { sum }
}

// One look at each meter makes the masks of the four classes and the sum. The fitted meters are those of any class.
// The loop keeps its index: it is the bit of the masks, and limits and meters are two arrays.
pub fn fleet_of(recorder: Recorder) -> Fleet
    ensures { result ≡ fleet_of recorder }
{
    let config = recorder.config;
    let limits = config.limits;
    let state = recorder.state;
    let meters = state.meters;
    let clock = state.clock;
    let mut awake: u32 = 0;
    let mut stale: u32 = 0;
    let mut invalid: u32 = 0;
    let mut never: u32 = 0;
    let mut sum: i64 = 0;
    for i in 0..32usize {
        let meter = meters[i];
        let class = meter_class(limits[i], meter, clock);
        awake = with_bit(awake, i, class == Some(Age::Awake));
        stale = with_bit(stale, i, class == Some(Age::Stale));
        invalid = with_bit(invalid, i, class == Some(Age::Invalid));
        never = with_bit(never, i, class == Some(Age::Never));
        sum = plus_if(sum, class == Some(Age::Awake), meter.value);
    }
    let fitted = awake | stale | invalid | never;
    Fleet {
        fitted: u32::count_ones(fitted) as u8,
        awake: u32::count_ones(awake) as u8,
        stale: u32::count_ones(stale) as u8,
        invalid: u32::count_ones(invalid) as u8,
        never: u32::count_ones(never) as u8,
        sum,
    }
}
