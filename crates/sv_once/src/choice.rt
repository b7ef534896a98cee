//! The key by which a request may be sent again.

ghost use Rattle.std.specs.Prelude.{◌≡◌, codes, option_map};
ghost use Rattle.sv_once.specs.Asked as spec;

use sv_model::{Field, Param, Request, Text};

/// The bytes of a key, at most.
pub const KEY_LIMIT: usize = 64;

/// What the sessions of a context remember.
#[derive(Drop)]
pub struct Choice {
    /// How many answers, the last ones; 16 at most.
    pub answers: u8,
    /// The parameter that has the key of a request; without it the field has the key.
    pub parameter: Option<Text>,
}

/// The method is to change nothing (RFC 9110, section 9.2.1).
pub fn is_safe(method: &str) -> bool
    ensures { result ≡ spec.is_safe method.now }
{
    method == "GET" || (method == "HEAD" || (method == "OPTIONS" || method == "TRACE"))
}

/// A key has 1 to 64 bytes.
pub fn is_key(key: &[u8]) -> bool
    ensures { result ≡ spec.is_key key.now }
{
    !key.is_empty() && key.len() <= KEY_LIMIT
}

/// The value of the first field of a name.
fn field_value<'a>(name: &str, fields: &'a [Field]) -> Option<&'a [u8]>
    ensures { option_map (λ value. value.now) result ≡ spec.field_value name.now fields.now }
{
    match fields.iter().find(|field| field.name.as_str() == name) {
        Some(field) => Some(field.value.as_bytes()),
        None => None,
    }
}

/// The value of the first parameter of a name.
fn param_value<'a>(name: &str, params: &'a [Param]) -> Option<&'a [u8]>
    ensures { option_map (λ value. value.now) result ≡ spec.param_value name.now params.now }
{
    match params.iter().find(|param| param.name.as_str() == name) {
        Some(param) => Some(param.value.as_str().as_bytes()),
        None => None,
    }
}

impl Choice {
    fn param_key<'a>(&self, params: &'a [Param]) -> Option<&'a [u8]>
        ensures { option_map (λ key. key.now) result ≡ spec.param_key self.now.parameter params.now }
    {
        match &self.parameter {
            Some(name) => param_value(name.as_str(), params),
            None => None,
        }
    }

    /// The key of a request: the value of the parameter that is chosen, or else of its field `Idempotency-Key`, since a front server
    /// gives that to each request anew. A request whose method is to change nothing has none. Whether it has the length of a key isn't
    /// asked here.
    #[tactic(auto, unfolding(crate::specs::Asked::key_of))]
    pub fn key_of<'a>(&self, request: &'a Request) -> Option<&'a [u8]>
        ensures { option_map (λ key. key.now) result ≡ spec.key_of self.now request.now }
    {
        if is_safe(request.method.as_str()) {
            return None;
        }
        match self.param_key(request.params.as_slice()) {
            Some(key) => Some(key),
            None => field_value("idempotency-key", request.fields.as_slice()),
        }
    }
}
