// What stands behind a per cent.
ghost use Rattle.std.specs.Prelude.{◌≡◌, get_or};
ghost use Rattle.display.specs.Formats.{width_of, width_bytes, decimals_of, number_specified, specification_in};
ghost use Rattle.display.specs.Steps.{specification_said};

// How a number is shown: padded with zeros, the width or 0, the decimals or 0, and whether the value is shifted by them.
#[derive(Clone, Copy)]
pub(crate) struct Form {
    pub zeros: bool,
    pub width: u8,
    pub decimals: u8,
    pub shifted: bool,
}

#[derive(Clone, Copy)]
pub(crate) enum Kind {
    Date,
    Time,
    Number(Form),
}

// A specification, and how many bytes it has behind the per cent.
#[derive(Clone, Copy)]
pub(crate) struct Specification {
    pub kind: Kind,
    pub bytes: usize,
}

// The byte at a place; past the end 0, which no specification has.
fn byte_at(format: &[u8], at: usize) -> u8
    ensures { result ≡ get_or format.now at 0 }
{
    format.get(at).copied().unwrap_or(0)
}

// 10 to 16 in two digits, 1 to 9 in one; 0 where no width stands.
#[tactic(auto, unfolding(crate::specs::Formats::width_of))]
fn width_of(first: u8, second: u8) -> u8
    ensures { result ≡ width_of first second }
{
    match (first, second) {
        (b'1', b'0'..=b'6') => 10 + (second - b'0'),
        (b'1'..=b'9', _) => first - b'0',
        _ => 0,
    }
}

fn width_bytes(width: u8) -> usize
    ensures { result ≡ width_bytes width }
{
    match width {
        0 => 0,
        1..=9 => 1,
        _ => 2,
    }
}

// The digit behind a point.
fn decimals_of(pointed: bool, byte: u8) -> u8
    ensures { result ≡ decimals_of pointed byte }
{
    if pointed && byte.is_ascii_digit() {
        return byte - b'0';
    }
    0
}

// An optional zero, an optional width, an optional point with its digit, an optional u, and F.
#[tactic(auto, unfolding(crate::specs::Formats::number_specified))]
fn number_at(format: &[u8]) -> Option<Specification>
    ensures { specification_said format.now result ≡ number_specified format.now }
{
    let zeros = byte_at(format, 0) == b'0';
    let first = usize::from(zeros);
    let width = width_of(byte_at(format, first), byte_at(format, first + 1));
    let point = first + width_bytes(width);
    let pointed = byte_at(format, point) == b'.';
    let digit = byte_at(format, point + 1);
    let unit = point + 2 * usize::from(pointed);
    let shifted = byte_at(format, unit) == b'u';
    let last = unit + usize::from(shifted);
    if byte_at(format, last) != b'F' || pointed && !digit.is_ascii_digit() {
        return None;
    }
    let form = Form {
        zeros,
        width,
        decimals: decimals_of(pointed, digit),
        shifted,
    };
    Some(Specification {
        kind: Kind::Number(form),
        bytes: last + 1,
    })
}

// The specification that stands behind a per cent, where there is one.
#[tactic(auto, unfolding(crate::specs::Formats::specification_in))]
pub(crate) fn specification_at(format: &[u8]) -> Option<Specification>
    ensures { specification_said format.now result ≡ specification_in format.now }
{
    match byte_at(format, 0) {
        b'D' => Some(Specification {
            kind: Kind::Date,
            bytes: 1,
        }),
        b'T' => Some(Specification {
            kind: Kind::Time,
            bytes: 1,
        }),
        _ => number_at(format),
    }
}
