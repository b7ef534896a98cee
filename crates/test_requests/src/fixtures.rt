//! What tests are made of, for which memory is ample.

ghost use Rattle.std.specs.Prelude.{◌≡◌, ◌++◌, ◌∷◌, []};

use std::alloc::Global;
use std::process::Abort;

/// A text of its own.
pub fn text(rt: &impl Abort, alloc: Global, text: &str) -> String {
    String::from_str(alloc, text).expect(rt, "memory")
}

/// Puts a text after another.
pub fn add(rt: &impl Abort, text: &mut String, more: &str) {
    text.push_str(more).expect(rt, "memory");
}

/// Puts bytes after others.
pub fn add_bytes(rt: &impl Abort, bytes: &mut Vec<u8>, more: &[u8]) {
    bytes.extend_from_slice(more).expect(rt, "memory");
}

/// Puts an item after those of a list.
pub fn push<T>(rt: &impl Abort, list: &mut Vec<T>, item: T)
    ensures { list.new.items ≡ list.old.items ++ item ∷ [] }
{
    list.push(item).expect(rt, "memory");
}
