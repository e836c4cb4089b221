// What samples come to: impulses, units, bills and the values of level 9.
#![tactic(auto)]

pub mod bills;
pub mod bits;
pub mod filter;
pub mod levels;
pub mod units;

// One line: its run of active samples, the impulses rejected, the remainder of its input, its units of the running period (level 0).
#[derive(Clone, Copy)]
pub struct Line {
    pub run: u32,
    pub rejected: u16,
    pub remainder: u16,
    pub units: u32,
}

// One bill register: the open amount, and the last closed one with its time.
// `reset` is no `Option` around the two: `bill_shown` (demands/specs/Shown.antt) and `bill_in` (State.antt) name the four fields.
#[derive(Clone, Copy)]
pub struct Bill {
    pub amount: u32,
    pub closed: u32,
    pub stamp: u32,
    pub reset: bool,
}
