//! What a request asks (Jakarta Servlet 6.0, section 3.1).

ghost use Rattle.std.specs.Prelude.{◌≡◌, option_copied, IfOk};
ghost use Rattle.std.specs.List.{find};
ghost use Rattle.sv_web.specs.Request as spec;

use http::Method;
use std::alloc::{AllocError, Global};
use sv_model::{Cookie, Field, Param, Text};
use sv_servlet::Setting;

/// Whether the method is POST (RFC 9110, section 9.3.3).
pub fn is_post(method: &Method) -> bool
    ensures { result ≡ spec.is_post method.now }
{
    method.as_str() == "POST"
}

/// The first header field of a name in lower case.
fn first_field<'a>(fields: &'a [Field], name: &str) -> Option<&'a Field>
    ensures { option_copied result ≡ find (spec.is_of name.now) fields.now }
{
    fields.iter().find(|field| field.name.as_str() == name)
}

/// The value of the first header field of a name in lower case (`getHeader`).
pub fn field<'a>(fields: &'a [Field], name: &str) -> Option<&'a [u8]>
    ensures { option_copied result ≡ spec.field fields.now name.now }
{
    match first_field(fields, name) {
        Some(field) => Some(field.value.as_bytes()),
        None => None,
    }
}

/// The first cookie of a name.
fn first_cookie<'a>(cookies: &'a [Cookie], name: &str) -> Option<&'a Cookie>
    ensures { option_copied result ≡ find (spec.is_cookie_of name.now) cookies.now }
{
    cookies
        .iter()
        .find(|cookie| cookie.name.as_slice() == name.as_bytes())
}

/// The value of the first cookie of a name, as it was sent. A client sends the one of the longest path first (RFC 6265, section 5.4).
pub fn cookie<'a>(cookies: &'a [Cookie], name: &str) -> Option<&'a [u8]>
    ensures { option_copied result ≡ spec.cookie cookies.now name.now }
{
    match first_cookie(cookies, name) {
        Some(cookie) => Some(cookie.value.as_slice()),
        None => None,
    }
}

/// The first setting of a name.
fn first_setting<'a>(settings: &'a [Setting], name: &str) -> Option<&'a Setting>
    ensures { option_copied result ≡ find (spec.is_setting_of name.now) settings.now }
{
    settings
        .iter()
        .find(|setting| setting.name.as_str() == name)
}

/// The value of the context's setting of a name (`getInitParameter`, section 4.3).
pub fn setting<'a>(settings: &'a [Setting], name: &str) -> Option<&'a str>
    ensures { option_copied result ≡ spec.setting settings.now name.now }
{
    match first_setting(settings, name) {
        Some(setting) => Some(setting.value.as_str()),
        None => None,
    }
}

/// The first parameter of a name.
fn first<'a>(params: &'a [Param], name: &str) -> Option<&'a Param>
    ensures { option_copied result ≡ find (spec.has_name name.now) params.now }
{
    params.iter().find(|param| param.name.as_str() == name)
}

/// The value of the first parameter of a name (`getParameter`).
pub fn parameter<'a>(params: &'a [Param], name: &str) -> Option<&'a str>
    ensures { option_copied result ≡ spec.parameter params.now name.now }
{
    match first(params, name) {
        Some(param) => Some(param.value.as_str()),
        None => None,
    }
}

/// The value of the first parameter of a name, or another text where there is none.
pub fn parameter_or(
    alloc: Global,
    params: &[Param],
    name: &str,
    other: &str,
) -> Result<Text, AllocError>
    ensures { IfOk result (λ text. text ≡ spec.parameter_or params.now name.now other.now) }
{
    Text::from_str(alloc, parameter(params, name).unwrap_or(other))
}
