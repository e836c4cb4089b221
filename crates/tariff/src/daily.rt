// "A daily rule is active in the minutes first to end minus 1 of its windows."
ghost use Rattle.std.specs.Prelude.{◌≡◌};
ghost use Rattle.tariff.specs.Daily.{in_window, daily_active, daily_map};

use crate::masks::with_bit;
use crate::{Program, Window};

fn in_window(w: Window, minute: u16) -> bool
    ensures { result ≡ in_window w minute }
{
    (w.first <= minute) & (minute < w.end)
}

// The windows are left at the first that is active.
pub fn daily_active(program: Program, rule: u8, minute: u16) -> bool
    ensures { result ≡ daily_active program rule minute }
{
    if rule >= 32 {
        return false;
    }
    let at = (rule as usize) * 4;
    'windows: {
        for w in &program.windows[at..at + 4] {
            if in_window(*w, minute) {
                break 'windows true;
            }
        }
        false
    }
}

// Bit r is daily rule r. The windows of a rule are left at the first that is active.
pub fn daily_map(program: Program, minute: u16) -> u32
    ensures { result ≡ daily_map program minute }
{
    let mut map: u32 = 0;
    'rules: for rule in 0..32usize {
        for w in &program.windows[rule * 4..rule * 4 + 4] {
            if in_window(*w, minute) {
                map = with_bit(map, rule, true);
                continue 'rules;
            }
        }
    }
    map
}
