//! The parts of a row.

use crate::fault::RowFault;

/// A row's name, and the parts after its first bar. A row without a bar is its own part.
pub fn named(row: &str) -> (&str, &str) {
    row.split_once('|').unwrap_or((row, row))
}

/// The first part, and the parts after it.
pub fn first(parts: &str) -> (&str, &str) {
    parts.split_once('|').unwrap_or((parts, ""))
}

/// The first word of a part, and what stands after its blank.
pub fn first_word(part: &str) -> (&str, &str) {
    part.split_once(' ').unwrap_or((part, ""))
}

/// A name, and a value after an equals sign.
pub fn pair(part: &str) -> (&str, &str) {
    part.split_once('=').unwrap_or((part, ""))
}

/// The number that a part is.
pub fn number(part: &str) -> Result<u64, RowFault> {
    match part.parse::<u64>() {
        Ok(number) => Ok(number),
        Err(_) => Err(RowFault::Part),
    }
}

/// The number below 256 that a part is.
pub fn small(part: &str) -> Result<u8, RowFault> {
    match part.parse::<u8>() {
        Ok(number) => Ok(number),
        Err(_) => Err(RowFault::Part),
    }
}

/// The length, the count or the place in a list that a part is.
pub fn size(part: &str) -> Result<usize, RowFault> {
    match part.parse::<usize>() {
        Ok(size) => Ok(size),
        Err(_) => Err(RowFault::Part),
    }
}

/// The interval that a part is.
pub fn interval(part: &str) -> Result<i32, RowFault> {
    match part.parse::<i32>() {
        Ok(number) => Ok(number),
        Err(_) => Err(RowFault::Part),
    }
}

/// The status that a part is.
pub fn status(part: &str) -> Result<u16, RowFault> {
    match part.parse::<u16>() {
        Ok(number) => Ok(number),
        Err(_) => Err(RowFault::Part),
    }
}
