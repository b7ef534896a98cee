//! Four bytes for each context of an application, by which nodes find that they don't have the same ones.

use crate::served::ServedFiles;
use sv_config::Context;
use sv_record::CONTEXTS_LEN;

/// The FNV-1a hash of 32 bits (Fowler, Noll and Vo): where it begins, and by what it is multiplied.
const OFFSET: u32 = 2_166_136_261;

const PRIME: u32 = 16_777_619;

/// What a hash of bytes becomes with more of them.
fn added(hash: u32, bytes: &[u8]) -> u32 {
    let mut hash = hash;
    for byte in bytes {
        hash = (hash ^ u32::from(*byte)).wrapping_mul(PRIME);
    }
    hash
}

/// What it becomes with a text and the number of its bytes, so that no two lists of texts are the same bytes.
fn with_text(hash: u32, text: &[u8]) -> u32 {
    added(added(hash, &text.len().to_be_bytes()), text)
}

/// What it becomes with the files of a path.
fn with_served(hash: u32, served: &ServedFiles) -> u32 {
    let mut hash = with_text(hash, served.path.as_bytes());
    if let Some(cache) = &served.cache {
        hash = with_text(hash, cache.as_bytes());
    }
    for file in &served.files {
        hash = with_text(hash, file.name.as_bytes());
        hash = with_text(hash, file.bytes.as_slice());
    }
    hash
}

/// The hash of a context's path, and of the files that it serves, with a 1 for each byte that is 0: zeros stand for no context.
fn sum_of(path: &[u8], number: usize, files: &[ServedFiles]) -> [u8; 4] {
    let mut hash = added(OFFSET, path);
    for served in files {
        if served.context == number {
            hash = with_served(hash, served);
        }
    }
    let [a, b, c, d] = hash.to_be_bytes();
    [a.max(1), b.max(1), c.max(1), d.max(1)]
}

/// The sums of contexts, in their order, with the files that they serve.
pub fn summed(contexts: &[Context], files: &[ServedFiles]) -> [u8; CONTEXTS_LEN] {
    let mut sums = [0; CONTEXTS_LEN];
    let mut place: usize = 0;
    for (number, context) in contexts.iter().enumerate() {
        for byte in sum_of(context.path.as_bytes(), number, files) {
            if let Some(sum) = sums.get_mut(place) {
                *sum = byte;
            }
            place = place.saturating_add(1);
        }
    }
    sums
}
