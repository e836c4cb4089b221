// The entries of the image as bytes, and back. Numbers have the least significant byte first.
#![tactic(auto, unfolding(crate::specs::Entries::input_bytes, crate::specs::Entries::input_of, crate::specs::Entries::coefficient_bytes, crate::specs::Entries::coefficient_of, crate::specs::Entries::slot_bytes, crate::specs::Entries::slot_of, crate::specs::Entries::window_bytes, crate::specs::Entries::window_of, crate::specs::Entries::date_in, crate::specs::Entries::season_bytes, crate::specs::Entries::season_of, crate::specs::Entries::holiday_bytes, crate::specs::Entries::holiday_of, crate::specs::Entries::rule_bytes, crate::specs::Entries::rule_of, crate::specs::Entries::register_bytes, crate::specs::Entries::register_in, laws::specs::Bytes::bytes_of, laws::specs::Bytes::le))]

ghost use Rattle.std.specs.Prelude.{◌≡◌, List, ℕ, length, take};
ghost use Rattle.laws.specs.Bytes.{bytes_of, le};
ghost use Rattle.image.specs.Entries.{input_bytes, input_of, coefficient_bytes, coefficient_of, slot_bytes, slot_of, window_bytes, window_of, season_bytes, season_of, holiday_bytes, holiday_of, rule_bytes, rule_of, register_bytes, register_in};
ghost use Rattle.image.specs.Widths.{number_wide, number_starts, input_wide, input_starts, coefficient_wide, coefficient_starts, slot_wide, slot_starts, window_wide, window_starts, season_wide, season_starts, holiday_wide, holiday_starts, rule_wide, rule_starts, register_wide, register_starts};

use crate::{Input, Register, Slot};
use tariff::{Date, Holiday, Rule, Season, Window};

// An entry of a section, S bytes.
pub(crate) trait Entry<const S: usize>: Copy {
    // The entry that bytes start with, and the bytes of an entry.
    ghost dec: { List ℕ → Self };

    ghost enc: { Self → List ℕ };

    fn from_bytes(bytes: &[u8; S]) -> Self
        ensures { result ≡ dec bytes.now };

    fn to_bytes(self) -> [u8; S]
        ensures { result ≡ enc self };

    // What stands behind the entry makes no difference to it, and each has as many bytes.
    ghost starts: { (b : List ℕ) → dec (take S b) ≡ dec b };

    ghost wide: { (x : Self) → length (enc x) ≡ S };
}

impl Entry<1> for u8 {
    ghost dec = { le 1 };

    ghost enc = { bytes_of 1 };

    ghost starts = { number_starts 1 };

    ghost wide = { number_wide 1 };

    fn from_bytes(bytes: &[u8; 1]) -> u8 {
        bytes[0]
    }

    fn to_bytes(self) -> [u8; 1] {
        [self]
    }
}

impl Entry<2> for u16 {
    ghost dec = { le 2 };

    ghost enc = { bytes_of 2 };

    ghost starts = { number_starts 2 };

    ghost wide = { number_wide 2 };

    fn from_bytes(bytes: &[u8; 2]) -> u16 {
        u16::from_le_bytes(*bytes)
    }

    fn to_bytes(self) -> [u8; 2] {
        self.to_le_bytes()
    }
}

impl Entry<1> for i8 {
    ghost dec = { coefficient_of };

    ghost enc = { coefficient_bytes };

    ghost starts = { coefficient_starts };

    ghost wide = { coefficient_wide };

    fn from_bytes(bytes: &[u8; 1]) -> i8 {
        bytes[0].cast_signed()
    }

    fn to_bytes(self) -> [u8; 1] {
        [self.cast_unsigned()]
    }
}

impl Entry<7> for Input {
    ghost dec = { input_of 1 };

    ghost enc = { input_bytes 1 };

    ghost starts = { input_starts };

    ghost wide = { input_wide 1 };

    fn from_bytes(bytes: &[u8; 7]) -> Input {
        let [kind, shortest, longest, n0, n1, d0, d1] = *bytes;
        Input {
            kind,
            shortest,
            longest,
            numerator: u16::from_le_bytes([n0, n1]),
            denominator: u16::from_le_bytes([d0, d1]),
        }
    }

    fn to_bytes(self) -> [u8; 7] {
        let [n0, n1] = self.numerator.to_le_bytes();
        let [d0, d1] = self.denominator.to_le_bytes();
        [self.kind, self.shortest, self.longest, n0, n1, d0, d1]
    }
}

impl Entry<2> for Slot {
    ghost dec = { slot_of };

    ghost enc = { slot_bytes };

    ghost starts = { slot_starts };

    ghost wide = { slot_wide };

    fn from_bytes(bytes: &[u8; 2]) -> Slot {
        let [level, index] = *bytes;
        Slot { level, index }
    }

    fn to_bytes(self) -> [u8; 2] {
        [self.level, self.index]
    }
}

impl Entry<4> for Window {
    ghost dec = { window_of };

    ghost enc = { window_bytes };

    ghost starts = { window_starts };

    ghost wide = { window_wide };

    fn from_bytes(bytes: &[u8; 4]) -> Window {
        let [f0, f1, e0, e1] = *bytes;
        Window {
            first: u16::from_le_bytes([f0, f1]),
            end: u16::from_le_bytes([e0, e1]),
        }
    }

    fn to_bytes(self) -> [u8; 4] {
        let [f0, f1] = self.first.to_le_bytes();
        let [e0, e1] = self.end.to_le_bytes();
        [f0, f1, e0, e1]
    }
}

impl Entry<4> for Season {
    ghost dec = { season_of };

    ghost enc = { season_bytes };

    ghost starts = { season_starts };

    ghost wide = { season_wide };

    fn from_bytes(bytes: &[u8; 4]) -> Season {
        Season {
            first: Date {
                day: bytes[0],
                month: bytes[1],
            },
            second: Date {
                day: bytes[2],
                month: bytes[3],
            },
        }
    }

    fn to_bytes(self) -> [u8; 4] {
        let Season { first, second } = self;
        [first.day, first.month, second.day, second.month]
    }
}

impl Entry<4> for Holiday {
    ghost dec = { holiday_of };

    ghost enc = { holiday_bytes };

    ghost starts = { holiday_starts };

    ghost wide = { holiday_wide };

    fn from_bytes(bytes: &[u8; 4]) -> Holiday {
        let [day, month, y0, y1] = *bytes;
        Holiday {
            day,
            month,
            year: u16::from_le_bytes([y0, y1]),
        }
    }

    fn to_bytes(self) -> [u8; 4] {
        let [y0, y1] = self.year.to_le_bytes();
        [self.day, self.month, y0, y1]
    }
}

impl Entry<2> for Rule {
    ghost dec = { rule_of };

    ghost enc = { rule_bytes };

    ghost starts = { rule_starts };

    ghost wide = { rule_wide };

    fn from_bytes(bytes: &[u8; 2]) -> Rule {
        let [season, week] = *bytes;
        Rule { season, week }
    }

    fn to_bytes(self) -> [u8; 2] {
        [self.season, self.week]
    }
}

impl Entry<2> for Register {
    ghost dec = { register_in };

    ghost enc = { register_bytes };

    ghost starts = { register_starts };

    ghost wide = { register_wide };

    fn from_bytes(bytes: &[u8; 2]) -> Register {
        let [sum, rule] = *bytes;
        Register { sum, rule }
    }

    fn to_bytes(self) -> [u8; 2] {
        [self.sum, self.rule]
    }
}
