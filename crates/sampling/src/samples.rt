// A run of samples. What changes with nearly every sample is kept in variables of its own; the rest of the state is touched when a period closes.
ghost use Rattle.std.specs.Prelude.{◌≡◌, ◌+◌, ◌-◌, ◌≤◌, length};
ghost use Rattle.counting.specs.ByMask.{advanced_lines};
ghost use Rattle.sampling.specs.Samples.{put_in};
ghost use Rattle.sampling.specs.Laps.{lap_of, lap_said};
ghost use Rattle.sampling.specs.Kept.{Idle};

use crate::booking::{aged, end_runs, fed_by};
use crate::clock::is_multiple;
use crate::{Bill, Line, SampleError, State};
use counting::bills::{amounts_of, put_amounts};
use counting::bits::Bits;
use counting::filter::{advance, kind_mask, running_lines};
use settings::Config;

// The samples of a second before its last, the hundredth.
const LAST: u8 = 99;

// A run to the first closing: the state, how many samples were taken, the refusal that ended it, if there was one, and whether it ended with a closing, which is still to be done.
#[derive(Clone, Copy)]
pub struct Lap {
    pub state: State,
    pub taken: usize,
    pub answer: Result<(), SampleError>,
    pub closes: bool,
}

// The state with what has moved. By field, since `..state` copies the meters twice on their way.
fn put_in(state: State, clock: u32, samples: u8, lines: [Line; 16], bills: [Bill; 16]) -> State
    ensures { result ≡ put_in state clock samples lines bills }
{
    let mut next = state;
    next.clock = clock;
    next.samples = samples;
    next.lines = lines;
    next.bills = bills;
    next
}

// How many samples may only count while no line has a run: up to the hundredth.
fn room(count: u8) -> usize
    ensures { result ≡ 99 - count }
{
    LAST.saturating_sub(count) as usize
}

// The end of the samples from k on, at most `room` of them.
fn end_of(length: usize, k: usize, room: usize) -> usize
    requires { k ≤ length }
    ensures { (k ≤ result) × (result ≤ length) × (result ≤ k + room) }
{
    length.min(k.saturating_add(room))
}

// Lets the runs of the active lines go on.
fn advance_lines(lines: &mut [Line; 16], active: u16)
    ensures { lines.new ≡ advanced_lines lines.old active }
{
    for i in Bits(active) {
        advance(&mut lines[i].run, true);
    }
}

// The lines that are active in one of the eight samples from k on.
fn some_of_eight(bits: &[u16], k: usize, fitted: u16, s1r: u16) -> u16
    requires { k + 8 ≤ length bits.now }
    ensures { result ≡ 0 → Idle bits.now fitted s1r k 8 }
{
    let mut some: u16 = 0;
    for j in 0..8usize {
        some = some | ((bits[k + j] ^ s1r) & fitted);
    }
    some
}

// How many of the samples from k on, at most `room`, have no line active: eight at once, while none of them has, and then one by one.
fn idle_samples(bits: &[u16], k: usize, room: usize, fitted: u16, s1r: u16) -> usize
    requires { k ≤ length bits.now }
    ensures { (result ≤ room) × (k + result ≤ length bits.now) × Idle bits.now fitted s1r k result }
{
    let end = end_of(bits.len(), k, room);
    let mut at = k;
    while 8 <= end - at {
        if some_of_eight(bits, at, fitted, s1r) > 0 {
            break;
        }
        at += 8;
    }
    while at < end {
        if ((bits[at] ^ s1r) & fitted) > 0 {
            return at - k;
        }
        at += 1;
    }
    at - k
}

// The samples one after another, up to the first refusal or the first that steps the clock onto a multiple of the period: the closing is the caller's. Only lines
// whose runs end are judged, and only those that are active have their runs advanced, in place.
pub fn take(config: Config, start: State, bits: &[u16]) -> Lap
    ensures { lap_said result ≡ lap_of config start bits.now }
{
    let inputs = config.inputs;
    let s1r = kind_mask(inputs, 2);
    let fitted = kind_mask(inputs, 1) | s1r;
    let bills = start.bills;
    let mut clock = start.clock;
    let mut count = start.samples;
    let mut lines = start.lines;
    let mut amounts = amounts_of(bills);
    let mut running = running_lines(lines);
    let mut tariffs: Option<u16> = None;
    let mut answer = Ok(());
    let mut closes = false;
    let mut k: usize = 0;
    while k < bits.len() {
        if running == 0 {
            let idle = idle_samples(bits, k, room(count), fitted, s1r);
            if idle > 0 {
                count += idle as u8;
                k += idle;
                continue;
            }
        }
        if (clock == u32::MAX) & (LAST <= count) {
            answer = Err(SampleError::ClockEnd);
            break;
        }
        // S1r is active open; bits of inputs that are not fitted are ignored.
        let active = (bits[k] ^ s1r) & fitted;
        // The first inactive sample after a run ends it.
        let ending = running ^ (running & active);
        if ending > 0 {
            let fed = fed_by(config, clock, &mut tariffs);
            if let Err(error) = end_runs(&mut lines, &mut amounts, &config, fed, ending) {
                answer = Err(error);
                break;
            }
        }
        advance_lines(&mut lines, active);
        running = active;
        k += 1;
        if count < LAST {
            count += 1;
            continue;
        }
        // After the hundredth the clock steps, and on a multiple the period closes.
        clock += 1;
        count = 0;
        if is_multiple(config.period, clock) {
            closes = true;
            break;
        }
        tariffs = aged(tariffs, clock);
    }
    let state = put_in(start, clock, count, lines, put_amounts(bills, amounts));
    Lap {
        state,
        taken: k,
        answer,
        closes,
    }
}
