//! How each test compares what it has found.

use std::alloc::AllocError;
use std::process::Abort;

/// In the row of this name, what was found is what was wanted.
pub fn expect(rt: &impl Abort, name: &str, found: &str, wanted: &str) {
    assert_eq!(rt; found, wanted, "{name}");
}

/// Adds a character for each byte, the one of its number.
pub fn push_bytes(text: &mut String, bytes: &[u8]) -> Result<(), AllocError> {
    for byte in bytes {
        text.push(char::from(*byte))?;
    }
    Ok(())
}
