//! Bytes in a line: what can't stand there, or couldn't be seen, is spelled after a backslash.

use crate::digits::{digit, push_digits};
use crate::fault::RowFault;
use std::alloc::{AllocError, Global};

/// How far an escape has been read.
#[derive(Clone, Copy)]
enum Seen {
    Nothing,
    Backslash,
    Hexadecimal,
    Digit(u8),
}

/// The byte that a letter after a backslash stands for.
fn named_byte(letter: u8) -> u8 {
    match letter {
        b'r' => b'\r',
        b'n' => b'\n',
        b't' => b'\t',
        b'0' => 0,
        _ => letter,
    }
}

/// The byte that is whole after another one, and how far an escape has been read then.
fn step(seen: Seen, byte: u8) -> (Option<u8>, Seen) {
    match seen {
        Seen::Nothing if byte == b'\\' => (None, Seen::Backslash),
        Seen::Nothing => (Some(byte), Seen::Nothing),
        Seen::Backslash if byte == b'x' => (None, Seen::Hexadecimal),
        Seen::Backslash => (Some(named_byte(byte)), Seen::Nothing),
        Seen::Hexadecimal => (None, Seen::Digit(digit(byte).unwrap_or(0))),
        Seen::Digit(high) => (Some(high << 4 | digit(byte).unwrap_or(0)), Seen::Nothing),
    }
}

/// Adds the bytes that a part spells.
pub fn push_bytes(bytes: &mut Vec<u8>, part: &str) -> Result<(), AllocError> {
    let mut seen = Seen::Nothing;
    for byte in part.bytes() {
        let (whole, next) = step(seen, byte);
        if let Some(whole) = whole {
            bytes.push(whole)?;
        }
        seen = next;
    }
    Ok(())
}

/// The bytes that a part spells.
pub fn bytes_of(alloc: Global, part: &str) -> Result<Vec<u8>, AllocError> {
    let mut bytes = Vec::new(alloc);
    push_bytes(&mut bytes, part)?;
    Ok(bytes)
}

/// The text that a part spells.
pub fn text_of(alloc: Global, part: &str) -> Result<String, RowFault> {
    let bytes = bytes_of(alloc, part)?;
    match str::from_utf8(&bytes) {
        Ok(text) => Ok(String::from_str(alloc, text)?),
        Err(_) => Err(RowFault::Part),
    }
}

fn push_byte(text: &mut String, byte: u8) -> Result<(), AllocError> {
    match byte {
        b'\r' => text.push_str("\\r")?,
        b'\n' => text.push_str("\\n")?,
        b'\t' => text.push_str("\\t")?,
        0 => text.push_str("\\0")?,
        b'\\' => text.push_str("\\\\")?,
        b' '..=b'~' => text.push(char::from(byte))?,
        _ => {
            text.push_str("\\x")?;
            push_digits(text, byte)?;
        }
    }
    Ok(())
}

/// Adds the spelling of bytes.
pub fn push_shown(text: &mut String, bytes: &[u8]) -> Result<(), AllocError> {
    for byte in bytes {
        push_byte(text, *byte)?;
    }
    Ok(())
}

/// The spelling of bytes.
pub fn shown(alloc: Global, bytes: &[u8]) -> Result<String, AllocError> {
    let mut text = String::new(alloc);
    push_shown(&mut text, bytes)?;
    Ok(text)
}

/// The spelling of bytes; of more than 100 the last one, after how many they are.
pub fn shown_briefly(alloc: Global, bytes: &[u8]) -> Result<String, AllocError> {
    match bytes.last() {
        Some(last) if bytes.len() > 100 => {
            format!(in alloc; "{} bytes, the last {}", bytes.len(), char::from(*last))
        }
        _ => shown(alloc, bytes),
    }
}

/// Adds a name and a value with a bar between them, between angle brackets.
pub fn push_pair(text: &mut String, name: &[u8], value: &[u8]) -> Result<(), AllocError> {
    text.push_str("<")?;
    push_shown(text, name)?;
    text.push_str("|")?;
    push_shown(text, value)?;
    text.push_str(">")?;
    Ok(())
}
