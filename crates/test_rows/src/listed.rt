//! Texts in a list.

use std::alloc::AllocError;

/// Adds a text to a list, after a comma from the second one on.
pub fn push_listed(list: &mut String, text: &str) -> Result<(), AllocError> {
    if !list.is_empty() {
        list.push_str(", ")?;
    }
    list.push_str(text)?;
    Ok(())
}
