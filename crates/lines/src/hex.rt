// HEX: bytes in hexadecimal.
ghost use Rattle.std.specs.Prelude.{◌≡◌, ◌≤◌, IfSome, unwrap_or, get_or};
ghost use Rattle.lines.specs.Hex.{hex_digit_of, is_hex, bytes_of_hex};

use arrayvec::ArrayVec;

// The number of a hexadecimal digit.
fn digit_of(b: u8) -> Option<u8>
    ensures value { result ≡ hex_digit_of b }
    ensures bound { IfSome result (λ d. d ≤ 15) }
{
    match b {
        b'0'..=b'9' => Some(b - b'0'),
        b'A'..=b'F' => Some(b - b'A' + 10),
        b'a'..=b'f' => Some(b - b'a' + 10),
        _ => None,
    }
}

// The same; 0 of another letter.
fn value_of(b: u8) -> u8
    ensures value { result ≡ unwrap_or (hex_digit_of b) 0 }
    ensures bound { result ≤ 15 }
{
    digit_of(b).unwrap_or(0)
}

// Whether a word is HEX.
pub(crate) fn is_hex(w: &[u8]) -> bool
    ensures { result ≡ is_hex w.now }
{
    w == b"-".as_slice()
        || !w.is_empty() && w.len() % 2 == 0 && w.iter().all(|b| digit_of(*b).is_some())
}

// The bytes of a word that is HEX; none of another. No line has more than 128.
pub(crate) fn bytes_of(w: &[u8]) -> ArrayVec<u8, 128>
    ensures { result.items ≡ bytes_of_hex w.now }
{
    let mut bytes = ArrayVec::new();
    if is_hex(w) {
        let (pairs, _) = w.as_chunks::<2>();
        for [high, low] in &pairs[..pairs.len().min(128)] {
            bytes.push(value_of(*high) * 16 + value_of(*low));
        }
    }
    bytes
}
