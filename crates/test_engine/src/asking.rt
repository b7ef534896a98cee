//! Requests to the engine of tests.

ghost use Rattle.std.specs.Prelude.{◌≡◌, false, [], IfOk, IsTrue};
ghost use Rattle.sv_model.specs.Method.{is_head};

use http::Method;
use std::alloc::{AllocError, Global};
use sv_model::{Request, Sequence, Text};

fn request_by(alloc: Global, method: Method, body: &[u8]) -> Result<Request, AllocError>
    ensures { IfOk result (λ request. (request.method ≡ method) × (request.body ≡ body.now)) }
{
    let mut bytes = Sequence::new(alloc);
    bytes.extend_from_slice(body)?;
    Ok(Request {
        method,
        raw_path: Text::from_str(alloc, "/count")?,
        path: Text::from_str(alloc, "/count")?,
        query: None,
        fields: Sequence::new(alloc),
        cookies: Sequence::new(alloc),
        params: Sequence::new(alloc),
        body: bytes,
        close: false,
    })
}

/// A request that is counted: by two bytes the body names a session by its home and its serial.
pub fn request(alloc: Global, body: &[u8]) -> Result<Request, AllocError>
    ensures body { IfOk result (λ request. request.body ≡ body.now) }
    ensures method { IfOk result (λ request. is_head request.method ≡ false) }
{
    request_by(alloc, Method::GET, body)
}

/// A request that touches no session.
pub fn hello(alloc: Global) -> Result<Request, AllocError>
    ensures body { IfOk result (λ request. request.body ≡ []) }
    ensures method { IfOk result (λ request. IsTrue (is_head request.method)) }
{
    request_by(alloc, Method::HEAD, &[])
}
