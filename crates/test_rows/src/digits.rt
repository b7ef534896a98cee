//! Bytes in hexadecimal.

use std::alloc::{AllocError, Global};

/// A hexadecimal digit's number.
pub fn digit(byte: u8) -> Option<u8> {
    match byte {
        b'0'..=b'9' => Some(byte - b'0'),
        b'a'..=b'f' => Some(byte - b'a' + 10),
        _ => None,
    }
}

/// The bytes that the digits of a text say, two for a byte. Spaces between them count for nothing.
pub fn bytes_of_digits(alloc: Global, text: &str) -> Result<Vec<u8>, AllocError> {
    let mut bytes = Vec::new(alloc);
    let mut high = None;
    for byte in text.bytes() {
        match (digit(byte), high) {
            (None, _) => {}
            (Some(number), None) => high = Some(number),
            (Some(number), Some(first)) => {
                bytes.push(first << 4 | number)?;
                high = None;
            }
        }
    }
    Ok(bytes)
}

/// The digit of a number below 16.
fn letter(number: u8) -> char {
    match number {
        0..=9 => char::from(b'0' + number),
        10..=15 => char::from(b'a' + (number - 10)),
        _ => '?',
    }
}

/// Adds a byte's two digits.
pub fn push_digits(text: &mut String, byte: u8) -> Result<(), AllocError> {
    text.push(letter(byte >> 4))?;
    text.push(letter(byte & 15))?;
    Ok(())
}

/// The digits of bytes.
pub fn digits_of(alloc: Global, bytes: &[u8]) -> Result<String, AllocError> {
    let mut text = String::new(alloc);
    for byte in bytes {
        push_digits(&mut text, *byte)?;
    }
    Ok(text)
}
