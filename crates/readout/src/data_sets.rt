// A data set: an address, then the value and perhaps a star and a unit in brackets.
ghost use Rattle.std.specs.Prelude.{◌≡◌};
ghost use Rattle.laws.specs.Parts.{part_of};
ghost use Rattle.readout.specs.DataSets.{address_letter, value_letter, ends_at, value_place};
ghost use Rattle.readout.specs.Answers.{place_said, value_part};

use crate::leading;

// A place in a line, and how many letters stand there.
#[derive(Clone, Copy, Debug, PartialEq, Eq)]
pub struct Place {
    pub start: usize,
    pub length: usize,
}

// Printable, and none of the four letters that have a meaning of their own in a readout.
fn is_letter(b: u8) -> bool
    ensures { result ≡ address_letter b }
{
    matches!(b, b' '..=b'~') && b != b'(' && b != b')' && b != b'/' && b != b'!'
}

// A value and a unit have no star, either.
fn is_value_letter(b: u8) -> bool
    ensures { result ≡ value_letter b }
{
    is_letter(b) && b != b'*'
}

// What stands behind the value: the closing bracket, or a star, a unit and the closing bracket.
fn ends(rest: &[u8]) -> bool
    ensures { result ≡ ends_at rest.now 0 }
{
    match rest {
        [b')'] => true,
        [b'*', unit @ .., b')'] => (1..=16).contains(&unit.len())
            && unit.iter().all(|b| is_value_letter(*b)),
        _ => false,
    }
}

// Where the value stands; nowhere in a line that is no data set.
pub fn value_place(line: &[u8]) -> Option<Place>
    ensures { place_said result ≡ value_place line.now }
{
    let (address, rest) = line.split_at(leading(line, is_letter));
    let [b'(', rest @ ..] = rest else {
        return None;
    };
    let (value, rest) = rest.split_at(leading(rest, is_value_letter));
    if 16 < address.len() || !(1..=32).contains(&value.len()) || !ends(rest) {
        return None;
    }
    Some(Place {
        start: address.len() + 1,
        length: value.len(),
    })
}

// The value's bytes, as the part of the caller's line where they stand; an empty part where the line is no data set.
pub fn value_text(line: &[u8]) -> &[u8]
    ensures { part_of result ≡ value_part line.entry }
{
    match value_place(line) {
        Some(place) => &line[place.start..place.start + place.length],
        None => &line[0..0],
    }
}
