//! Bytes in hexadecimal.

use crate::fault::RowFault;
use crate::words::place;
use hex::FromHexError;
use std::alloc::Global;

impl From<FromHexError> for RowFault {
    fn from(_: FromHexError) -> Self {
        RowFault::Word
    }
}

/// Adds the bytes of digits, so many times.
fn push_times(bytes: &mut Vec<u8>, more: &[u8], count: usize) -> Result<(), RowFault> {
    for _ in 0..count {
        bytes.extend_from_slice(more)?;
    }
    Ok(())
}

/// Adds the bytes that a word says: two digits a byte; after a star how many times they are to stand there.
fn push_word(alloc: Global, bytes: &mut Vec<u8>, word: &str) -> Result<(), RowFault> {
    match word.split_once('*') {
        Some((digits, count)) => {
            let more = hex::decode(alloc, digits)?;
            push_times(bytes, more.as_slice(), place(count)?)
        }
        None => {
            let more = hex::decode(alloc, word)?;
            push_times(bytes, more.as_slice(), 1)
        }
    }
}

/// The bytes that words say.
pub fn bytes(alloc: Global, words: &str) -> Result<Vec<u8>, RowFault> {
    let mut bytes = Vec::new(alloc);
    for word in words.split_whitespace() {
        push_word(alloc, &mut bytes, word)?;
    }
    Ok(bytes)
}
