// "A season runs from its first to its second date, both included, over New Year if the first is later; unused is never active."
ghost use Rattle.std.specs.Prelude.{◌≡◌};
ghost use Rattle.tariff.specs.Seasons.{date_of, not_after, in_season, season_map};

use crate::masks::mask_of;
use crate::{Date, Program, Season};
use calendar::Moment;
use std::array;

const NO_DATE: Date = Date { day: 0, month: 0 };

const UNUSED: Season = Season {
    first: NO_DATE,
    second: NO_DATE,
};

// The date a of a year is b or before b.
fn not_after(a: Date, b: Date) -> bool
    ensures { result ≡ not_after a b }
{
    (a.month, a.day) <= (b.month, b.day)
}

#[tactic(auto, unfolding(crate::specs::Seasons::in_season))]
fn in_season(s: Season, date: Date) -> bool
    ensures { result ≡ in_season s date }
{
    if s == UNUSED {
        return false;
    }
    let begun = not_after(s.first, date);
    let lasts = not_after(date, s.second);
    if not_after(s.first, s.second) {
        return begun & lasts;
    }
    begun | lasts
}

// Bit s is season s.
pub(crate) fn season_map(program: Program, date: Date) -> u32
    ensures { result ≡ season_map program date }
{
    mask_of::<8>(array::from_fn(|i| in_season(program.seasons[i], date)))
}

pub(crate) fn date_of(m: Moment) -> Date
    ensures { result ≡ date_of m }
{
    Date {
        day: m.day,
        month: m.month,
    }
}
