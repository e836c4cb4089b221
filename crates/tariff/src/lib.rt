// The tariff program: daily and weekly rules, holidays, seasons, and the tariff rules in force. It knows the calendar by its promises alone.
#![tactic(auto)]

mod daily;
mod masks;
mod rules;
mod seasons;
mod weekly;

pub use daily::{daily_active, daily_map};
pub use masks::{bit_at, mask_of, with_bit};
pub use rules::{force_map, force_map_at};
pub use weekly::{holiday_on, weekly_active, weekly_map};

// Active in the minutes first to end minus 1; 0, 0 is unused.
#[derive(Clone, Copy)]
pub struct Window {
    pub first: u16,
    pub end: u16,
}

// A day of each year.
#[derive(Clone, Copy, PartialEq)]
pub struct Date {
    pub day: u8,
    pub month: u8,
}

// From the first date to the second, both included; four zeros are unused.
#[derive(Clone, Copy, PartialEq)]
pub struct Season {
    pub first: Date,
    pub second: Date,
}

// Year 0 is each year; all zeros are unused.
#[derive(Clone, Copy, PartialEq)]
pub struct Holiday {
    pub day: u8,
    pub month: u8,
    pub year: u16,
}

// Season 255 is any; 255, 255 is unused.
#[derive(Clone, Copy)]
pub struct Rule {
    pub season: u8,
    pub week: u8,
}

// The windows of daily rule r are r x 4 to r x 4 + 3. The references of weekly rule w are w x 8 to w x 8 + 7: Monday to Sunday, then holiday.
#[derive(Clone, Copy)]
pub struct Program {
    pub windows: [Window; 128],
    pub weeks: [u8; 128],
    pub seasons: [Season; 8],
    pub holidays: [Holiday; 32],
    pub rules: [Rule; 16],
}
