// "A weekly rule uses the weekday's daily rule, on a holiday the holiday's one instead; 255 is inactive. The look through the holidays stops at the first that
// fits."
ghost use Rattle.std.specs.Prelude.{◌≡◌};
ghost use Rattle.tariff.specs.Weekly.{holiday_fits, place_of, first_holiday, column_of, column_on, reference_in, minute_of, weekly_active, weekly_map};

use crate::daily::{daily_active, daily_map};
use crate::masks::{bit_at, mask_of};
use crate::{Holiday, Program};
use calendar::Moment;
use std::array;

const UNUSED: Holiday = Holiday {
    day: 0,
    month: 0,
    year: 0,
};

fn holiday_fits(h: Holiday, day: u8, month: u8, year: u16) -> bool
    ensures { result ≡ holiday_fits h day month year }
{
    if h.day != day {
        return false;
    }
    (h != UNUSED) & (h.month == month) & ((h.year == 0) | (h.year == year))
}

// The look stops at the first holiday that fits. A `loop` that yields its finding by `break` is the owner's form.
pub fn holiday_on(program: Program, day: u8, month: u8, year: u16) -> Option<usize>
    ensures { place_of result ≡ first_holiday program day month year }
{
    let mut i: usize = 0;
    loop {
        if i >= 32 {
            break None;
        }
        let h = program.holidays[i];
        if holiday_fits(h, day, month, year) {
            break Some(i);
        }
        i += 1;
    }
}

// The place of a day in the weekly rules: the holiday's, else the weekday's; 8 is none. No `Option`: that its place is below 8 would still be a test of `reference`.
fn column(weekday: u8, found: Option<usize>) -> u8
    ensures { result ≡ column_of weekday (place_of found) }
{
    match found {
        Some(_) => 7,
        None if weekday < 7 => weekday,
        None => 8,
    }
}

#[tactic(auto, unfolding(crate::specs::Weekly::column_on))]
fn column_on(program: Program, m: Moment) -> u8
    ensures { result ≡ column_on program m }
{
    column(m.weekday, holiday_on(program, m.day, m.month, m.year))
}

// The daily rule that a weekly rule names. 255 is none in the configuration image too, so an `Option` would be a second way to say it.
fn reference(weeks: [u8; 128], week: u8, column: u8) -> u8
    ensures { result ≡ reference_in weeks week column }
{
    if week < 16 && column < 8 {
        return weeks[(week as usize) * 8 + (column as usize)];
    }
    255
}

fn minute_of(m: Moment) -> u16
    ensures { result ≡ minute_of m }
{
    (m.hour as u16) * 60 + (m.minute as u16)
}

#[tactic(auto, unfolding(crate::specs::Weekly::weekly_active, crate::specs::Weekly::reference_at))]
pub fn weekly_active(program: Program, week: u8, m: Moment) -> bool
    ensures { result ≡ weekly_active program week m }
{
    let rule = reference(program.weeks, week, column_on(program, m));
    daily_active(program, rule, minute_of(m))
}

// Bit w is weekly rule w.
pub fn weekly_map(program: Program, m: Moment) -> u16
    ensures { result ≡ weekly_map program m }
{
    let daily = daily_map(program, minute_of(m));
    let column = column_on(program, m);
    let active = |week| bit_at(daily, reference(program.weeks, week as u8, column) as usize);
    mask_of::<16>(array::from_fn(active)) as u16
}
