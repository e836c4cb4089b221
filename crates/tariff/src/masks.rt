// Masks: the bits of a number of 32 bits.
ghost use Rattle.std.specs.Prelude.{◌≡◌, false, get_or, min};
ghost use Rattle.laws.specs.Masks.{bit_at, or_bit, mask_of};

// Whether a bit of a mask is on; no mask has a bit past 31.
pub fn bit_at(mask: u32, place: usize) -> bool
    ensures { result ≡ bit_at mask place }
{
    if place >= 32 {
        return false;
    }
    (mask >> place) % 2 == 1
}

// A mask with one bit more on, if it is to be; no mask has a bit past 31.
#[tactic(auto, using(laws::proofs::Masks::shl_is), unfolding(laws::specs::Masks::or_bit))]
pub fn with_bit(mask: u32, place: usize, on: bool) -> u32
    ensures { result ≡ or_bit mask place on }
{
    if place >= 32 {
        return mask;
    }
    if on {
        return (1u32 << place) | mask;
    }
    mask
}

// The mask of the places that are on; no mask has a bit past 31.
pub fn mask_of<const N: usize>(bits: [bool; N]) -> u32
    ensures { result ≡ mask_of (min N 32) (λ i. get_or bits.entry i false) }
{
    let mut mask = 0;
    for (i, on) in bits.iter().enumerate() {
        mask = with_bit(mask, i, *on);
    }
    mask
}
