// The filter of the lines: each keeps its run of active samples, lent and advanced in place, and a run that ends is judged.
ghost use Rattle.std.specs.Prelude.{◌≡◌};
ghost use Rattle.counting.specs.Filter.{next_run, one_more, fits};
ghost use Rattle.counting.specs.ByMask.{kind_mask, running_lines};

use crate::Line;
use settings::Input;
use tariff::with_bit;

// The run after a sample, counted to 256 and held there.
fn next_run(run: u32, on: bool) -> u32
    ensures { result ≡ next_run run on }
{
    if on { run.min(255) + 1 } else { 0 }
}

// One line's filter: the run is lent, and a sample advances it in place.
pub fn advance(run: &mut u32, on: bool)
    ensures { run.new ≡ next_run run.old on }
{
    let before = *run;
    *run = next_run(before, on);
}

// One more impulse rejected, held at 65,535.
pub(crate) fn one_more(count: u16) -> u16
    ensures { result ≡ one_more count }
{
    count.saturating_add(1)
}

// Whether a run that ends is an accepted impulse.
pub(crate) fn accepts(input: Input, run: u32) -> bool
    ensures { result ≡ fits input run }
{
    ((input.shortest as u32) <= run) & (run <= (input.longest as u32))
}

// The inputs of one kind, as a mask.
pub fn kind_mask(inputs: [Input; 16], kind: u8) -> u16
    ensures { result ≡ kind_mask inputs kind }
{
    let mut mask: u32 = 0;
    for i in 0..16usize {
        let input = inputs[i];
        mask = with_bit(mask, i, input.kind == kind);
    }
    mask as u16
}

// The lines with a run.
pub fn running_lines(lines: [Line; 16]) -> u16
    ensures { result ≡ running_lines lines }
{
    let mut mask: u32 = 0;
    for i in 0..16usize {
        let line = lines[i];
        mask = with_bit(mask, i, 0 < line.run);
    }
    mask as u16
}
