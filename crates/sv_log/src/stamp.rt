//! A moment as a line of the log begins with it.

use httpdate::HttpDate;
use std::{fmt, str};

/// A moment in whole seconds since 1970, shown in UTC as RFC 3339 has it (section 5.6), such as `1994-11-06T08:49:37Z`. After the year
/// 9999 it is the number of seconds.
#[derive(Clone, Copy)]
pub struct Stamp(pub u64);

/// The number of a month, of which these are the first three letters in English (RFC 9110, section 5.6.7).
fn month_of(name: &str) -> &'static str {
    match name {
        "Jan" => "01",
        "Feb" => "02",
        "Mar" => "03",
        "Apr" => "04",
        "May" => "05",
        "Jun" => "06",
        "Jul" => "07",
        "Aug" => "08",
        "Sep" => "09",
        "Oct" => "10",
        "Nov" => "11",
        _ => "12",
    }
}

/// A part of a date's text.
fn part(text: &[u8; 29], from: usize, to: usize) -> &str {
    match text.get(from..to) {
        Some(bytes) => str::from_utf8(bytes).unwrap_or(""),
        None => "",
    }
}

impl fmt::Display for Stamp {
    fn fmt<W: fmt::Write>(&self, f: &mut fmt::Formatter<W>) -> fmt::Result {
        let Ok(date) = HttpDate::from_unix_secs(self.0) else {
            let seconds = self.0;
            return write!(f, "{seconds}");
        };
        // Such as `Sun, 06 Nov 1994 08:49:37 GMT`.
        let text = date.to_bytes();
        let (year, month) = (part(&text, 12, 16), month_of(part(&text, 8, 11)));
        let (day, time) = (part(&text, 5, 7), part(&text, 17, 25));
        write!(f, "{year}-{month}-{day}T{time}Z")
    }
}
