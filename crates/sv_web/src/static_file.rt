//! A file that is answered as it is, with its entity tag (RFC 9110, section 8.8.3).

ghost use Rattle.std.specs.Prelude.{◌≡◌, IfOk, string_bytes};
ghost use Rattle.http_header.specs.FieldValue.{plain_value};
ghost use Rattle.sv_web.specs.Tag as spec;

use http_header::HeaderValue;
use sha2::{Digest, Sha256};
use std::alloc::{AllocError, Global};

/// A file that is answered as it is.
#[derive(Drop)]
pub struct StaticFile {
    /// Its path below the folder that is served, or its name: segments with `/` between them.
    pub name: String,
    pub bytes: Vec<u8>,
    /// Its entity tag (section 8.8.3), a strong one.
    pub etag: HeaderValue,
    ghost tagged: { etag ≡ plain_value (spec.tag_of bytes.items) },
}

/// The tag of bytes, between quotes.
#[tactic(auto, unfolding(crate::specs::Tag::tag_of))]
fn tag_of(alloc: Global, bytes: &[u8]) -> Result<Vec<u8>, AllocError>
    ensures { IfOk result (λ tag. tag.items ≡ spec.tag_of bytes.now) }
{
    let digest = hex::encode(alloc, &Sha256::digest(bytes))?;
    let mut tag = Vec::from_slice(alloc, b"\"")?;
    tag.extend_from_slice(digest.as_bytes())?;
    tag.extend_from_slice(b"\"")?;
    Ok(tag)
}

impl StaticFile {
    /// A file of these bytes, with their tag.
    pub fn new(alloc: Global, name: String, bytes: Vec<u8>) -> Result<StaticFile, AllocError>
        ensures name { IfOk result (λ file. string_bytes file.name ≡ string_bytes name) }
        ensures bytes { IfOk result (λ file. file.bytes.items ≡ bytes.items) }
    {
        let tag = tag_of(alloc, bytes.as_slice())?;
        match HeaderValue::from_vec(tag) {
            Ok(etag) => Ok(StaticFile { name, bytes, etag }),
            Err(_) => Err(AllocError),
        }
    }
}
