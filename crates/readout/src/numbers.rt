// The whole number of a text, with a stated count of decimals.
ghost use Rattle.std.specs.Prelude.{◌≡◌, ◌+◌, ◌*◌, ◌^◌};
ghost use Rattle.laws.specs.Decimals.{digits, value_from};
ghost use Rattle.readout.specs.Numbers.{in32_bits, whole_number};
ghost use Rattle.readout.specs.Answers.{number_said};
ghost use Rattle.readout.specs.Held.{held, all_zeros, size_said, held_size, fraction_size};

use crate::leading;

#[derive(Clone, Copy, Debug, PartialEq, Eq)]
pub enum NumberError {
    NotANumber,
    DoesNotFit,
}

// n with one digit more, held at 4,294,967,295. That does not fit 32 bits with a sign, so which one is held makes no difference.
fn with_digit(n: u32, digit: u8) -> u32
    ensures { result ≡ held (n * 10 + digit) }
{
    let next = u64::from(n) * 10 + u64::from(digit);
    next.min(4294967295) as u32
}

// n with digits behind it.
fn with_digits(n: u32, digits: &[u8]) -> u32
    ensures { result ≡ held (value_from n digits.now) }
{
    digits
        .iter()
        .fold(n, |n, b| with_digit(n, b.saturating_sub(b'0')))
}

// n with zeros behind it.
fn with_zeros(n: u32, count: u8) -> u32
    ensures { result ≡ held (n * 10 ^ count) }
{
    n.saturating_mul(10u32.saturating_pow(u32::from(count)))
}

fn all_digits(text: &[u8]) -> bool
    ensures { result ≡ digits text.now }
{
    text.iter().all(|b| b.is_ascii_digit())
}

fn all_zeros(text: &[u8]) -> bool
    ensures { result ≡ all_zeros text.now }
{
    text.iter().all(|b| *b == b'0')
}

// The number whose digits before the point make n, and `text` stands behind the point. Digits past the decimals have to be zeros.
fn with_fraction(n: u32, text: &[u8], decimals: u8) -> Option<u32>
    ensures { size_said result ≡ fraction_size n text.now decimals }
{
    let places = text.len().min(usize::from(decimals));
    let (digits, zeros) = text.split_at(places);
    if text.is_empty() || !all_digits(digits) || !all_zeros(zeros) {
        return None;
    }
    Some(with_zeros(with_digits(n, digits), decimals - places as u8))
}

// The number without its sign.
fn size_of(text: &[u8], decimals: u8) -> Option<u32>
    ensures { size_said result ≡ held_size text.now decimals }
{
    let (whole, rest) = text.split_at(leading(text, |b| b.is_ascii_digit()));
    if whole.is_empty() {
        return None;
    }
    let n = with_digits(0, whole);
    match rest {
        [] => Some(with_zeros(n, decimals)),
        [b'.', fraction @ ..] => with_fraction(n, fraction, decimals),
        _ => None,
    }
}

// A size with its sign, if it fits.
fn signed(minus: bool, size: Option<u32>) -> Result<i32, NumberError>
    ensures { number_said result ≡ in32_bits minus (size_said size) }
{
    let z = i64::from(size.ok_or(NumberError::NotANumber)?);
    i32::try_from(if minus { -z } else { z }).map_err(|_| NumberError::DoesNotFit)
}

// The whole number that a text is. Whether it is a number at all is known before its size is looked at.
pub fn whole_number(text: &[u8], decimals: u8) -> Result<i32, NumberError>
    ensures { number_said result ≡ whole_number text.now decimals }
{
    if 9 < decimals {
        return Err(NumberError::NotANumber);
    }
    match text {
        [] => Err(NumberError::NotANumber),
        [b'-', digits @ ..] => signed(true, size_of(digits, decimals)),
        _ => signed(false, size_of(text, decimals)),
    }
}
