// Dates, times and numbers, as a person writes them.
ghost use Rattle.std.specs.Prelude.{◌≡◌, ◌∷◌, ◌++◌, ◌/◌, ◌^◌, ◌≤◌, length, replicate};
ghost use Rattle.calendar.specs.Moments.{moment_of};
ghost use Rattle.laws.specs.Decimals.{digit, last_digits, decimal_of};
ghost use Rattle.readout.specs.Numbers.{sign_text, pointed};
ghost use Rattle.display.specs.Numbers.{whole_shown, fraction_shown, padding_of, number_shown, date_shown, time_shown};
ghost use Rattle.display.specs.Steps.{puts_of};

use crate::fields::Value;
use crate::formats::Form;
use crate::screen::Screen;

fn digit(n: u64) -> u8
    ensures { result ≡ digit n }
{
    b'0' + (n % 10) as u8
}

// How many digits a number has, with no zero in front.
#[tactic(auto, unfolding(laws::specs::Decimals::decimal_of, laws::specs::Decimals::decimal_in))]
fn digits_of(n: u64) -> usize
    ensures { result ≡ length (decimal_of n) }
{
    if n == 0 { 1 } else { n.ilog10() as usize + 1 }
}

// A number over ten to the k, rounded down.
fn over_tens(n: u64, k: u8) -> u64
    ensures { result ≡ n / 10 ^ k }
{
    match 10u64.checked_pow(u32::from(k)) {
        Some(tens) => n / tens,
        None => 0,
    }
}

impl Form {
    // The number before the point.
    fn whole_of(self, size: u64) -> u64
        ensures { result ≡ whole_shown self size }
    {
        if self.shifted {
            over_tens(size, self.decimals)
        } else {
            size
        }
    }

    // The point counts, too.
    #[tactic(auto, using(crate::proofs::Numerals::no_point, crate::proofs::Numerals::a_point))]
    fn point_bytes(self, size: u64) -> usize
        ensures { (result ≡ length (pointed (fraction_shown self size))) × (result ≤ 256) }
    {
        if self.decimals == 0 {
            0
        } else {
            1 + self.decimals as usize
        }
    }

    // How much is missing to the width.
    fn padding(self, value: Value) -> usize
        ensures { result ≡ padding_of self value }
    {
        let digits = digits_of(self.whole_of(value.size));
        let length = usize::from(value.minus) + digits + self.point_bytes(value.size);
        (self.width as usize).saturating_sub(length)
    }
}

impl Screen {
    // The last k digits of a number.
    #[tactic(auto, using(crate::proofs::Screens::one_more), unfolding(crate::specs::Steps::puts_of, laws::specs::Decimals::last_digits))]
    fn put_last(self, k: usize, n: u64) -> Screen
        ensures { result ≡ puts_of self (last_digits k n) }
    {
        if k == 0 {
            return self;
        }
        self.put_last(k - 1, n / 10).put(digit(n))
    }

    // The same character so many times.
    #[tactic(auto, using(crate::proofs::Screens::same_turn, crate::proofs::Screens::same_done))]
    fn put_same(self, byte: u8, count: usize) -> Screen
        ensures { result ≡ puts_of self (replicate count byte) }
    {
        let mut next = self;
        for _ in 0..count {
            next = next.put(byte);
        }
        next
    }

    #[tactic(auto, unfolding(crate::specs::Steps::puts_of))]
    fn put_sign(self, minus: bool) -> Screen
        ensures { result ≡ puts_of self (sign_text minus) }
    {
        if minus { self.put(b'-') } else { self }
    }

    // Nothing without decimals; else a point, and with u the last digits of the value, without it zeros.
    #[tactic(auto, using(crate::proofs::Numerals::nothing, crate::proofs::Numerals::something), unfolding(crate::specs::Steps::puts_of))]
    fn put_point(self, form: Form, size: u64) -> Screen
        ensures { result ≡ puts_of self (pointed (fraction_shown form size)) }
    {
        let decimals = form.decimals as usize;
        if decimals == 0 {
            return self;
        }
        if form.shifted {
            return self.put(b'.').put_last(decimals, size);
        }
        self.put(b'.').put_same(b'0', decimals)
    }

    // The digits of a number, and the point with those behind it.
    #[tactic(auto, using(crate::proofs::Screens::puts_split, laws::proofs::Digits::decimal_last))]
    fn put_digits(self, form: Form, size: u64) -> Screen
        ensures { result ≡ puts_of self (decimal_of (whole_shown form size) ++ pointed (fraction_shown form size)) }
    {
        let whole = form.whole_of(size);
        self.put_last(digits_of(whole), whole).put_point(form, size)
    }

    // Blanks before the sign, or zeros after it.
    #[tactic(auto, using(crate::proofs::Screens::puts_split), unfolding(crate::specs::Numbers::number_shown))]
    pub(crate) fn put_number(self, form: Form, value: Value) -> Screen
        ensures { result ≡ puts_of self (number_shown form value) }
    {
        let pad = form.padding(value);
        let signed = if form.zeros {
            self.put_sign(value.minus).put_same(b'0', pad)
        } else {
            self.put_same(b' ', pad).put_sign(value.minus)
        };
        signed.put_digits(form, value.size)
    }

    // Two digits, two digits and some more, with a mark between them: 03.03.1973 or 09:46:40.
    #[tactic(auto, using(crate::proofs::Screens::puts_split), unfolding(crate::specs::Steps::puts_of))]
    fn put_parts(self, mark: u8, first: u8, second: u8, digits: usize, last: u16) -> Screen
        ensures { result ≡ puts_of self (last_digits 2 first ++ (mark ∷ last_digits 2 second ++ (mark ∷ last_digits digits last))) }
    {
        self.put_last(2, first as u64)
            .put(mark)
            .put_last(2, second as u64)
            .put(mark)
            .put_last(digits, last as u64)
    }

    // Date and time differ in what they read of the moment alone; what puts it is put_parts.
    #[tactic(auto, unfolding(crate::specs::Steps::puts_of))]
    pub(crate) fn put_date(self, clock: u32) -> Screen
        ensures { result ≡ puts_of self (date_shown (moment_of clock)) }
    {
        match calendar::moment_of(clock) {
            Some(m) => self.put_parts(b'.', m.day, m.month, 4, m.year),
            None => self,
        }
    }

    #[tactic(auto, unfolding(crate::specs::Steps::puts_of))]
    pub(crate) fn put_time(self, clock: u32) -> Screen
        ensures { result ≡ puts_of self (time_shown (moment_of clock)) }
    {
        match calendar::moment_of(clock) {
            Some(m) => self.put_parts(b':', m.hour, m.minute, 2, u16::from(m.second)),
            None => self,
        }
    }
}
