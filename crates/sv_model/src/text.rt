//! A text that contracts see as its bytes.

ghost use Rattle.std.specs.Prelude.{◌≡◌, ℕ, List, [], string_bytes, IfOk, IsUtf8};

use std::alloc::{AllocError, Global};
use std::marker::Model;

/// A text in UTF-8.
///
/// It is made from a `String` and gives it back without taking memory.
#[derive(Drop)]
pub struct Text {
    text: String,
}

impl Model for Text {
    ghost use Rattle.std.specs.Prelude.{ℕ, List, string_bytes};

    ghost Value = { List ℕ };

    ghost view = { λ t. string_bytes t.text };
}

impl Text {
    /// The empty text.
    pub fn new(alloc: Global) -> Self
        ensures { result ≡ [] }
    {
        Text {
            text: String::new(alloc),
        }
    }

    /// A `String` as a text.
    pub fn from_string(text: String) -> Self
        ensures { result ≡ string_bytes text }
    {
        Text { text }
    }

    /// A copy of a text.
    pub fn from_str(alloc: Global, text: &str) -> Result<Self, AllocError>
        ensures { IfOk result (λ t. t ≡ text.now) }
    {
        let text = String::from_str(alloc, text)?;
        Ok(Text { text })
    }

    /// An equal text in memory of its own.
    pub fn copy(&self, alloc: Global) -> Result<Self, AllocError>
        ensures { IfOk result (λ copy. copy ≡ self.now) }
    {
        Text::from_str(alloc, self.as_str())
    }

    /// The text in place.
    pub fn as_str(&self) -> &str
        ensures { result.now ≡ self.now }
    {
        self.text.as_str()
    }

    /// The text as a `String`.
    pub fn into_string(self) -> String
        ensures { string_bytes result ≡ self }
    {
        let Text { text } = self;
        text
    }
}
