//! A mark of what a request asks.

ghost use Rattle.std.specs.Prelude.{◌≡◌, ◌++◌, ℕ, List, take, IfOk, option_map};
ghost use Rattle.sha2.specs.Hashers.{Holds256};
ghost use Rattle.sha2.specs.Sha256.{sha256};
ghost use Rattle.sv_once.specs.Asked as spec;

use sha2::{Digest, Sha256};
use std::alloc::{AllocError, Global};
use sv_model::{Request, Sequence};

/// The bytes of a mark.
const MARK_BYTES: usize = 16;

/// Adds a text after its length.
fn add_part(hasher: &mut Sha256, text: &[u8])
    ensures { (m : List ℕ) → Holds256 hasher.old m → Holds256 hasher.new (m ++ spec.part text.now) }
{
    hasher.update(&(text.len() as u64).to_be_bytes());
    hasher.update(text);
}

/// Adds the query, or that there is none.
fn add_query(hasher: &mut Sha256, request: &Request)
    ensures { (m : List ℕ) → Holds256 hasher.old m → Holds256 hasher.new (m ++ spec.query_part request.now.query) }
{
    match &request.query {
        Some(query) => {
            hasher.update(b"\x01");
            add_part(hasher, query.as_str().as_bytes());
        }
        None => hasher.update(b"\x00"),
    }
}

/// The SHA-256 of what is asked.
#[tactic(auto, unfolding(crate::specs::Asked::content_of))]
fn digest_of(request: &Request) -> [u8; 32]
    ensures { result ≡ sha256 (spec.content_of request.now) }
{
    let mut hasher = Sha256::new();
    add_part(&mut hasher, request.method.as_str().as_bytes());
    add_part(&mut hasher, request.raw_path.as_str().as_bytes());
    add_query(&mut hasher, request);
    hasher.update(request.body.as_slice());
    hasher.finalize()
}

/// A mark of the method, the path, the query and the body of a request: the first 16 bytes of their SHA-256.
#[tactic(auto, unfolding(crate::specs::Asked::mark_of))]
pub fn mark_of(alloc: Global, request: &Request) -> Result<Sequence<u8>, AllocError>
    ensures { IfOk result (λ mark. mark ≡ spec.mark_of request.now) }
{
    let digest = digest_of(request);
    Ok(Sequence::from_vec(Vec::from_slice(alloc, &digest[..MARK_BYTES])?))
}
