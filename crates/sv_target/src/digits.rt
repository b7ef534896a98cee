//! The bytes of a session's cookie, in digits of `0-9a-f`, two each.

ghost use Rattle.std.specs.Prelude.{◌≡◌, unwrap_or};
ghost use Rattle.sv_target.specs.Digits as spec;

/// The bytes that a session's cookie spells.
pub const BYTES: usize = 26;

/// The value of each byte as a digit, and 16 of one that is none, as a digit in upper case.
static VALUES: [u8; 256] = [
    16, 16, 16, 16, 16, 16, 16, 16, 16, 16, 16, 16, 16, 16, 16, 16, 16, 16, 16, 16, 16, 16, 16, 16,
    16, 16, 16, 16, 16, 16, 16, 16, 16, 16, 16, 16, 16, 16, 16, 16, 16, 16, 16, 16, 16, 16, 16, 16,
    0, 1, 2, 3, 4, 5, 6, 7, 8, 9, 16, 16, 16, 16, 16, 16, 16, 16, 16, 16, 16, 16, 16, 16, 16, 16,
    16, 16, 16, 16, 16, 16, 16, 16, 16, 16, 16, 16, 16, 16, 16, 16, 16, 16, 16, 16, 16, 16, 16, 10,
    11, 12, 13, 14, 15, 16, 16, 16, 16, 16, 16, 16, 16, 16, 16, 16, 16, 16, 16, 16, 16, 16, 16, 16,
    16, 16, 16, 16, 16, 16, 16, 16, 16, 16, 16, 16, 16, 16, 16, 16, 16, 16, 16, 16, 16, 16, 16, 16,
    16, 16, 16, 16, 16, 16, 16, 16, 16, 16, 16, 16, 16, 16, 16, 16, 16, 16, 16, 16, 16, 16, 16, 16,
    16, 16, 16, 16, 16, 16, 16, 16, 16, 16, 16, 16, 16, 16, 16, 16, 16, 16, 16, 16, 16, 16, 16, 16,
    16, 16, 16, 16, 16, 16, 16, 16, 16, 16, 16, 16, 16, 16, 16, 16, 16, 16, 16, 16, 16, 16, 16, 16,
    16, 16, 16, 16, 16, 16, 16, 16, 16, 16, 16, 16, 16, 16, 16, 16, 16, 16, 16, 16, 16, 16, 16, 16,
    16, 16, 16, 16, 16, 16, 16, 16, 16, 16, 16, 16, 16, 16,
];

/// The value of a digit, and 16 of what is none.
fn value_of(byte: u8) -> u8
    ensures { result ≡ unwrap_or (spec.digit_value byte) 16 }
{
    VALUES[byte as usize]
}

/// The byte of two digits.
fn byte_of(high: u8, low: u8) -> Option<u8>
    ensures { result ≡ spec.byte_of high low }
{
    let first = value_of(high);
    let second = value_of(low);
    if first > 15 {
        return None;
    }
    if second > 15 {
        return None;
    }
    Some(first * 16 + second)
}

/// The bytes that 52 digits spell; none of any other text.
#[tactic(auto, unfolding(crate::specs::Digits::spelled_bytes))]
pub fn spelled_bytes(text: &[u8]) -> Option<[u8; BYTES]>
    ensures { result ≡ spec.spelled_bytes text.now }
{
    if text.len() != 2 * BYTES {
        return None;
    }
    let mut bytes = [0; BYTES];
    let mut left = text;
    'bytes: for place in 0..BYTES {
        let [high, low, rest @ ..] = left else {
            return None;
        };
        bytes[place] = byte_of(*high, *low)?;
        left = rest;
    }
    Some(bytes)
}
