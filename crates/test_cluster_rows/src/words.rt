//! The words of a line.

use crate::fault::RowFault;
use sv_model::Key;

/// The first word of a text, and what stands after the blank.
pub fn word(text: &str) -> (&str, &str) {
    match text.split_once(' ') {
        Some((word, rest)) => (word, rest),
        None => (text, ""),
    }
}

/// The first line of a text, and the lines after it.
pub fn line(text: &str) -> (&str, &str) {
    match text.split_once('\n') {
        Some((line, rest)) => (line, rest),
        None => (text, ""),
    }
}

/// The number that a word is.
pub fn number(word: &str) -> Result<u64, RowFault> {
    match word.parse::<u64>() {
        Ok(number) => Ok(number),
        Err(_) => Err(RowFault::Word),
    }
}

/// The number below 256 that a word is.
pub fn small(word: &str) -> Result<u8, RowFault> {
    match word.parse::<u8>() {
        Ok(number) => Ok(number),
        Err(_) => Err(RowFault::Word),
    }
}

/// The place in a list that a word is.
pub fn place(word: &str) -> Result<usize, RowFault> {
    match word.parse::<usize>() {
        Ok(place) => Ok(place),
        Err(_) => Err(RowFault::Word),
    }
}

/// The session whose home and serial stand in a word with a point between them.
pub fn key(word: &str) -> Result<Key, RowFault> {
    match word.split_once('.') {
        Some((home, serial)) => Ok(Key {
            home: small(home)?,
            serial: number(serial)?,
        }),
        None => Err(RowFault::Word),
    }
}

/// Whether a stop comes after the record of the step that it cuts.
pub fn is_kept(word: &str) -> Result<bool, RowFault> {
    match word {
        "kept" => Ok(true),
        "lost" => Ok(false),
        _ => Err(RowFault::Word),
    }
}
