//! Names of fields and cookies, compared.

ghost use Rattle.std.specs.Prelude.{◌≡◌, bytes_eq};

/// Whether two names are the same, byte by byte: most are of another length, and the others are short.
#[inline(always)]
pub fn is_same(name: &[u8], other: &[u8]) -> bool
    ensures { result ≡ bytes_eq name.now other.now }
{
    if name.len() != other.len() {
        return false;
    }
    let mut left = name;
    let mut right = other;
    while let [byte, left_tail @ ..] = left {
        let [other_byte, right_tail @ ..] = right else {
            return false;
        };
        if *byte != *other_byte {
            return false;
        }
        left = left_tail;
        right = right_tail;
    }
    right.is_empty()
}
