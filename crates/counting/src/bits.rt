// The bits of a mask, one after another.
ghost use Rattle.std.specs.Iterator.{at_most};
ghost use Rattle.counting.specs.Bits.{NextBit};

// The places of the bits that are on, the lowest first.
#[derive(Clone, Copy)]
pub struct Bits(pub u16);

impl Iterator for Bits {
    type Item = usize;

    ghost next_gives = { λ s i t. NextBit s.0 i t.0 };

    ghost remaining = { λ s. at_most s.0 };

    fn next(&mut self) -> Option<usize> {
        let lower = self.0.checked_sub(1)?;
        let place = self.0.trailing_zeros() as usize;
        self.0 &= lower;
        Some(place)
    }
}
