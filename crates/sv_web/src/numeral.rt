//! Numbers that are written in decimal digits.

ghost use Rattle.std.specs.Prelude.{◌≡◌};
ghost use Rattle.sv_web.specs.Numeral.{number_in, starts_with_plus};

/// A sign stands first, which `parse` would take.
fn starts_with_plus(word: &str) -> bool
    ensures { result ≡ starts_with_plus word.now }
{
    !word.is_empty() && word.as_bytes()[0] == b'+'
}

/// The number that a text of decimal digits alone is, where it fits; leading zeros are taken, and no sign.
pub fn read_u64(word: &str) -> Option<u64>
    ensures { result ≡ number_in 64 word.now }
{
    if starts_with_plus(word) {
        return None;
    }
    word.parse::<u64>().ok()
}

/// The number that a text of decimal digits alone is, where it fits; leading zeros are taken, and no sign.
pub fn read_u16(word: &str) -> Option<u16>
    ensures { result ≡ number_in 16 word.now }
{
    if starts_with_plus(word) {
        return None;
    }
    word.parse::<u16>().ok()
}

/// The number that a text of decimal digits alone is, where it fits; leading zeros are taken, and no sign.
pub fn read_u8(word: &str) -> Option<u8>
    ensures { result ≡ number_in 8 word.now }
{
    if starts_with_plus(word) {
        return None;
    }
    word.parse::<u8>().ok()
}
