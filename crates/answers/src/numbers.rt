// Numbers put behind the letters of a text. By hand: `write!` promises its letters only where it does not fail, and no clause rules that out.
ghost use Rattle.std.specs.Prelude.{◌≡◌, ◌/◌};
ghost use Rattle.answers.specs.Texts.{with_byte, with_bytes};
ghost use Rattle.laws.specs.Decimals.{digit, decimal_of};
ghost use Rattle.answers.specs.Numbers.{decimal_signed, two_digits, hex_digit, hex_of};

use crate::Text;

fn digit(n: u64) -> u8
    ensures { result ≡ digit n }
{
    b'0' + (n % 10) as u8
}

// The last hexadecimal digit.
fn hex_digit(n: u8) -> u8
    ensures { result ≡ hex_digit n }
{
    let d = n % 16;
    if d < 10 { b'0' + d } else { b'a' + (d - 10) }
}

impl Text {
    // In decimal, with no zero in front.
    fn put_number(&mut self, n: u64)
        ensures { self.new ≡ with_bytes self.old (decimal_of n) }
    {
        if n >= 10 {
            self.put_number(n / 10);
        }
        self.put(digit(n));
    }

    // The same, by value.
    pub(crate) fn number(mut self, n: u64) -> Text
        ensures { result ≡ with_bytes self (decimal_of n) }
    {
        self.put_number(n);
        self
    }

    // With a minus sign where it is negative.
    pub(crate) fn signed(mut self, z: i64) -> Text
        ensures { result ≡ with_bytes self (decimal_signed z) }
    {
        if z < 0 {
            self.put(b'-');
        }
        self.number(z.unsigned_abs())
    }

    // The last two decimal digits.
    pub(crate) fn two_digits(mut self, n: u64) -> Text
        ensures { result ≡ with_bytes self (two_digits n) }
    {
        self.put(digit(n / 10));
        self.put(digit(n));
        self
    }

    // Two hexadecimal digits.
    fn put_hex(&mut self, byte: u8)
        ensures { self.new ≡ with_byte (with_byte self.old (hex_digit (byte / 16))) (hex_digit byte) }
    {
        self.put(hex_digit(byte / 16));
        self.put(hex_digit(byte));
    }

    pub(crate) fn hex(mut self, bytes: &[u8]) -> Text
        ensures { result ≡ with_bytes self (hex_of bytes.now) }
    {
        for byte in bytes {
            self.put_hex(*byte);
        }
        self
    }
}
