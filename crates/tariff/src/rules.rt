// "A tariff rule is in force when its season (255: always) and weekly rule are active; unused never is."
ghost use Rattle.std.specs.Prelude.{◌≡◌};
ghost use Rattle.tariff.specs.Rules.{force_map, force_map_at};

use crate::Program;
use crate::masks::{bit_at, mask_of};
use crate::seasons::{date_of, season_map};
use crate::weekly::weekly_map;
use calendar::Moment;
use std::array;

// Bit i is tariff rule i. The windows, the holidays, the seasons and the rules are each gone through once.
pub fn force_map(program: Program, m: Moment) -> u16
    ensures { result ≡ force_map program m }
{
    let weekly = weekly_map(program, m) as u32;
    let seasons = season_map(program, date_of(m));
    let in_force = |i| {
        let r = program.rules[i];
        let season = (r.season == 255) | bit_at(seasons, r.season as usize);
        season & bit_at(weekly, r.week as usize)
    };
    mask_of::<16>(array::from_fn(in_force)) as u16
}

// The tariff rules in force at a second of the clock.
#[tactic(auto, unfolding(crate::specs::Rules::force_of))]
pub fn force_map_at(program: Program, seconds: u32) -> u16
    ensures { result ≡ force_map_at program seconds }
{
    calendar::moment_of(seconds).map_or(0, |m| force_map(program, m))
}
