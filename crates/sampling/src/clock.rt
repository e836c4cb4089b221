// The clock's step and the closing of a period.
ghost use Rattle.std.specs.Prelude.{◌≡◌};
ghost use Rattle.sampling.specs.Periods.{multiple, cleared_lines, state_of, closed_as, closed_with};
ghost use Rattle.sampling.specs.Laps.{closed_here};

use crate::{Line, Period, State};
use counting::levels::level9;
use settings::Config;
use std::array;

// Whether a time is a multiple of the period's seconds. No image has a period of 0 minutes; one that had would have no multiple.
pub(crate) fn is_multiple(period: u8, time: u32) -> bool
    ensures { result ≡ multiple period time }
{
    let seconds = (period as u32) * 60;
    if seconds == 0 {
        return false;
    }
    time % seconds == 0
}

// The lines at the start of a period: only level 0 begins anew.
fn cleared(lines: [Line; 16]) -> [Line; 16]
    ensures { result ≡ cleared_lines lines }
{
    array::from_fn(|i| Line {
        units: 0,
        ..lines[i]
    })
}

// The period that closes: its state, its closing time, its chosen values.
fn close_period(config: Config, state: u8, stamp: u32, lines: [Line; 16]) -> Period
    ensures { result ≡ closed_as config state stamp lines }
{
    let values = level9(config, lines);
    Period {
        state,
        stamp,
        values,
    }
}

// A period that the step closes is whole if it began on a multiple, else short.
fn step_state(period: u8, first: u32) -> u8
    ensures { result ≡ state_of period first }
{
    if is_multiple(period, first) {
        return 2;
    }
    1
}

// The period closes, with its state and its closing time, and the next begins with a second.
pub fn close_with(config: Config, state: State, kind: u8, stamp: u32, time: u32) -> State
    ensures { result ≡ closed_with state time (closed_as config kind stamp state.lines) }
{
    let lines = state.lines;
    let mut next = state;
    next.first = time;
    next.lines = cleared(lines);
    next.closed = close_period(config, kind, stamp, lines);
    next
}

// The closing that the step brings: the period closes at the clock's new second, and the next begins with it.
pub fn close(config: Config, state: State) -> State
    ensures { result ≡ closed_here config state }
{
    let kind = step_state(config.period, state.first);
    close_with(config, state, kind, state.clock, state.clock)
}
