// What moves, and the samples that move it.
#![tactic(auto)]

mod booking;
pub mod clock;
pub mod samples;

use counting::{Bill, Line};

// One serial meter: its last reading, if there was one.
// `read` is no `Option` around the rest: `Stored` (demands/specs/Repeats.antt), `meter_in` (State.antt) and `Demand2.antt` name the five fields.
#[derive(Clone, Copy)]
pub struct Meter {
    pub read: bool,
    pub stamp: u32,
    pub value: i32,
    pub status: u8,
    pub seq: u8,
}

// The last closed period, level 9: 0 none, 1 short, 2 whole; its closing time; the values of the 16 slots.
// `state` is the byte of register 201: `slot_shown` (demands/specs/Shown.antt), `last_period` (State.antt) and `Profile.antt` name it as a number.
#[derive(Clone, Copy)]
pub struct Period {
    pub state: u8,
    pub stamp: u32,
    pub values: [i64; 16],
}

// What moves: the clock, the samples of its second, the first second of the running period, lines, bills, meters, the last closed period.
#[derive(Clone, Copy)]
pub struct State {
    pub clock: u32,
    pub samples: u8,
    pub first: u32,
    pub lines: [Line; 16],
    pub bills: [Bill; 16],
    pub meters: [Meter; 32],
    pub closed: Period,
}

// Why a sample is refused. PROFILE BUFFER is given by the recorder, to which the profile's buffer is lent.
#[derive(Clone, Copy, Debug, PartialEq, Eq)]
pub enum SampleError {
    ProfileBuffer,
    ClockEnd,
    Full,
}
