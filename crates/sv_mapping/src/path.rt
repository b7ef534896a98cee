//! Texts of paths: what a path lies below, and its extension.

ghost use Rattle.std.specs.Prelude.{◌≡◌};
ghost use Rattle.std.specs.Option.{option_map};
ghost use Rattle.sv_mapping.specs.Path as spec;

/// What stands after `front` in a text that begins with it, byte by byte: most fronts are short.
fn stripped<'a>(front: &[u8], text: &'a [u8]) -> Option<&'a [u8]>
    ensures { option_map (λ x. x.now) result ≡ spec.stripped front.now text.now }
{
    let mut left = front;
    let mut rest = text;
    while let [byte, left_tail @ ..] = left {
        let [other_byte, rest_tail @ ..] = rest else {
            return None;
        };
        if *byte != *other_byte {
            return None;
        }
        left = left_tail;
        rest = rest_tail;
    }
    Some(rest)
}

/// Whether a path is `front`, or lies below it.
pub fn is_at_or_below(front: &str, path: &str) -> bool
    ensures { result ≡ spec.is_at_or_below front.now path.now }
{
    match stripped(front.as_bytes(), path.as_bytes()) {
        Some(rest) => rest.is_empty() || rest[0] == b'/',
        None => false,
    }
}

/// What stands after the last `/` of a path, or the whole path where it has none.
fn last_segment(path: &str) -> &str
    ensures { result.now ≡ spec.last_segment path.now }
{
    match path.rfind('/') {
        Some(slash) => &path[slash + 1..],
        None => path,
    }
}

/// What stands after the last `.` of a path's last segment.
pub(crate) fn extension_of(path: &str) -> Option<&str>
    ensures { option_map (λ x. x.now) result ≡ spec.extension_of path.now }
{
    let segment = last_segment(path);
    let dot = segment.rfind('.')?;
    Some(&segment[dot + 1..])
}
