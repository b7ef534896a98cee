//! A binary search in entries that rise by the texts of their patterns.

ghost use Rattle.std.specs.Prelude.{◌≡◌, ◌++◌, IfOk, IfErr, IsTrue};
ghost use Rattle.std.specs.FinMap.{is_sorted};
ghost use Rattle.sv_mapping.specs.Search.{text_cmp, IsPlaceOf, IsGapFor};

use crate::pattern::Pattern;
use std::cmp::Ordering;

/// The place of the pattern that is `front` followed by `back`, or the place where it would go in.
pub(crate) fn search(entries: &[(Pattern, usize)], front: &str, back: &str) -> Result<usize, usize>
    requires { IsTrue (is_sorted text_cmp entries.now) }
    ensures found { IfOk result (IsPlaceOf entries.now (front.now ++ back.now)) }
    ensures absent { IfErr result (IsGapFor entries.now (front.now ++ back.now)) }
{
    let (front, back) = (front.as_bytes(), back.as_bytes());
    entries.binary_search_by(|(pattern, _)| compare_joined(
        pattern.as_str().as_bytes(),
        front,
        back,
    ))
}

/// Compares two texts byte by byte: most differ in the first few.
fn compare(text: &[u8], other: &[u8]) -> Ordering
    ensures { result ≡ text_cmp text.now other.now }
{
    let mut left = text;
    let mut right = other;
    while let [other_byte, right_tail @ ..] = right {
        let [byte, left_tail @ ..] = left else {
            return Ordering::Less;
        };
        if *byte != *other_byte {
            return byte.cmp(other_byte);
        }
        left = left_tail;
        right = right_tail;
    }
    match left {
        [] => Ordering::Equal,
        [_, ..] => Ordering::Greater,
    }
}

/// Compares a text with `front` followed by `back`, by their bytes.
fn compare_joined(text: &[u8], front: &[u8], back: &[u8]) -> Ordering
    ensures { result ≡ text_cmp text.now (front.now ++ back.now) }
{
    let mut left = text;
    let mut right = front;
    while let [other_byte, right_tail @ ..] = right {
        let [byte, left_tail @ ..] = left else {
            return Ordering::Less;
        };
        if *byte != *other_byte {
            return byte.cmp(other_byte);
        }
        left = left_tail;
        right = right_tail;
    }
    compare(left, back)
}
