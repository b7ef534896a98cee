//! A text as the value of a key.

use std::fmt;

/// A text as the value of a key in logfmt: between quotes, with a backslash before each quote and backslash, and a question mark
/// in the place of what has no picture. So no text ends its line or its value.
#[derive(Clone, Copy)]
pub struct Quoted<'a>(pub &'a str);

fn write_sign<W: fmt::Write>(f: &mut fmt::Formatter<W>, sign: char) -> fmt::Result {
    match sign {
        '"' => f.write_str("\\\""),
        '\\' => f.write_str("\\\\"),
        _ if sign.is_control() => f.write_str("?"),
        _ => f.write_char(sign),
    }
}

impl fmt::Display for Quoted<'_> {
    fn fmt<W: fmt::Write>(&self, f: &mut fmt::Formatter<W>) -> fmt::Result {
        f.write_str("\"")?;
        for sign in self.0.chars() {
            write_sign(f, sign)?;
        }
        f.write_str("\"")
    }
}
