// The numbers of a line.
ghost use Rattle.std.specs.Prelude.{◌≡◌, ◌≤◌, IfSome};
ghost use Rattle.lines.specs.Numbers.{whole_of, signed_of};

// A number of at most `most`. It is refused as soon as it is larger.
pub(crate) fn read_number(w: &[u8], most: u32) -> Option<u32>
    ensures value { result ≡ whole_of most w.now }
    ensures bound { IfSome result (λ n. n ≤ most) }
{
    if w.is_empty() {
        return None;
    }
    let mut value = 0u64;
    for b in w {
        if !b.is_ascii_digit() {
            return None;
        }
        value = value * 10 + u64::from(*b - b'0');
        if u64::from(most) < value {
            return None;
        }
    }
    Some(value as u32)
}

// A number that may have a minus sign.
pub(crate) fn read_signed(w: &[u8]) -> Option<i32>
    ensures { result ≡ signed_of w.now }
{
    if let [b'-', rest @ ..] = w {
        let n = read_number(rest, 2147483648)?;
        return Some(-i64::from(n) as i32);
    }
    let n = read_number(w, 2147483647)?;
    Some(n as i32)
}
