//! Methods that change how a response is sent.

ghost use Rattle.std.specs.Prelude.{◌≡◌};
ghost use Rattle.sv_model.specs.Method.{is_head};

use http::Method;

/// The response has no body (RFC 9110, section 9.3.2). Methods are compared with case.
pub fn is_head(method: &Method) -> bool
    ensures { result ≡ is_head method.now }
{
    method.as_str() == "HEAD"
}
