//! Cookies that a reply sets (RFC 6265, section 4.1).

ghost use Rattle.std.specs.Prelude.{◌≡◌, ◌++◌, codes, decimal, IfOk, OnOk, option_map};
ghost use Rattle.std.specs.List.{list_all};
ghost use Rattle.http_header.specs.Token.{is_token_byte};
ghost use Rattle.sv_servlet.specs.Reply.{Answers, addition_result};
ghost use Rattle.sv_web.specs.Cookies as spec;
ghost use Rattle.sv_web.specs.Cookies.{SetsCookie};

use crate::header::visible_value;
use crate::same_site::SameSite;
use http_header::{HeaderName, HeaderValue, is_token_char};
use std::alloc::{AllocError, Global};
use std::marker::Model;
use sv_model::Field;
use sv_servlet::{Reply, ReplyFault};

/// A cookie to be set: its name, its value and its attributes.
#[derive(Drop)]
pub struct SetCookie<'a> {
    /// A token.
    pub name: &'a str,
    /// Visible ASCII without `"`, `,`, `;` and `\`; it may stand in quotes.
    pub value: &'a str,
    /// The paths for which it is sent; none: those beside that of the request. Without `;`.
    pub path: Option<&'a str>,
    /// For how many seconds a client keeps it, where it is to be forgotten 0; none: until the client ends.
    pub max_age: Option<u32>,
    /// It is sent by https alone.
    pub is_secure: bool,
    /// It is hidden from scripts.
    pub is_http_only: bool,
    pub same_site: Option<SameSite>,
}

impl<'a> Model for SetCookie<'a> {
    ghost use Rattle.std.specs.Option.{option_map};
    ghost use Rattle.sv_web.specs.SentCookie.{SentCookie};

    ghost Value = { SentCookie };

    ghost view = { λ c. record {
      name = c.name.now;
      value = c.value.now;
      path = option_map (λ t. t.now) c.path;
      max_age = c.max_age;
      is_secure = c.is_secure;
      is_http_only = c.is_http_only;
      same_site = c.same_site;
    } };
}

/// Each byte is one of a token.
fn are_token_bytes(name: &[u8]) -> bool
    ensures { result ≡ list_all is_token_byte name.now }
{
    name.iter().all(|byte| is_token_char(*byte))
}

fn is_name(name: &[u8]) -> bool
    ensures { result ≡ spec.is_name name.now }
{
    !name.is_empty() && are_token_bytes(name)
}

/// A byte of a cookie's value.
fn is_octet(byte: u8) -> bool
    ensures { result ≡ spec.is_octet byte }
{
    matches!(byte, b'!' | b'#'..=b'+' | b'-'..=b':' | b'<'..=b'[' | b']'..=b'~')
}

fn is_quoted(value: &[u8]) -> bool
    ensures { result ≡ spec.is_quoted value.now }
{
    value.len() >= 2 && value[0] == b'"' && value[value.len() - 1] == b'"'
}

/// What stands in quotes, or all.
fn unquoted(value: &[u8]) -> &[u8]
    ensures { result.now ≡ spec.unquoted value.now }
{
    if is_quoted(value) {
        &value[1..value.len() - 1]
    } else {
        value
    }
}

fn is_value(value: &[u8]) -> bool
    ensures { result ≡ spec.is_value value.now }
{
    unquoted(value).iter().all(|byte| is_octet(*byte))
}

fn is_path_byte(byte: u8) -> bool
    ensures { result ≡ spec.is_path_byte byte }
{
    byte >= 32 && byte <= 126 && byte != b';'
}

fn is_path(path: &[u8]) -> bool
    ensures { result ≡ spec.is_path path.now }
{
    path.iter().all(|byte| is_path_byte(*byte))
}

/// Adds the paths for which a cookie is sent.
fn push_path(text: &mut Vec<u8>, path: Option<&str>) -> Result<(), AllocError>
    ensures { OnOk result (text.new.items ≡ text.old.items ++ spec.path_part (option_map (λ t. t.now) path.entry)) }
{
    if let Some(path) = path {
        text.extend_from_slice(b"; Path=")?;
        text.extend_from_slice(path.as_bytes())?;
    }
    Ok(())
}

/// Adds for how many seconds a cookie is kept.
fn push_max_age(alloc: Global, text: &mut Vec<u8>, seconds: u32) -> Result<(), AllocError>
    ensures { OnOk result (text.new.items ≡ text.old.items ++ (codes "; Max-Age=" ++ decimal seconds)) }
{
    let digits = format!(in alloc; "{seconds}")?;
    text.extend_from_slice(b"; Max-Age=")?;
    text.extend_from_slice(digits.as_bytes())?;
    Ok(())
}

/// The same, or that it is to be forgotten.
fn push_seconds(alloc: Global, text: &mut Vec<u8>, seconds: u32) -> Result<(), AllocError>
    ensures { OnOk result (text.new.items ≡ text.old.items ++ spec.age_text seconds) }
{
    if seconds == 0 {
        text.extend_from_slice(b"; Expires=Thu, 01 Jan 1970 00:00:00 GMT")
    } else {
        push_max_age(alloc, text, seconds)
    }
}

/// Adds for how long a cookie is kept.
fn push_age(alloc: Global, text: &mut Vec<u8>, max_age: Option<u32>) -> Result<(), AllocError>
    ensures { OnOk result (text.new.items ≡ text.old.items ++ spec.age_part max_age) }
{
    match max_age {
        Some(seconds) => push_seconds(alloc, text, seconds),
        None => Ok(()),
    }
}

/// The attribute of the requests with which a cookie is sent.
fn site_part(same_site: Option<SameSite>) -> &'static [u8]
    ensures { result.now ≡ spec.site_part same_site }
{
    match same_site {
        Some(SameSite::Strict) => b"; SameSite=Strict".as_slice(),
        Some(SameSite::Lax) => b"; SameSite=Lax".as_slice(),
        Some(SameSite::None) => b"; SameSite=None".as_slice(),
        None => b"".as_slice(),
    }
}

/// A text where it applies.
fn part_if(is: bool, part: &'static [u8]) -> &'static [u8]
    ensures { result.now ≡ spec.part_if is part.now }
{
    if is { part } else { b"".as_slice() }
}

impl<'a> SetCookie<'a> {
    /// A cookie without attributes.
    pub fn new(name: &'a str, value: &'a str) -> SetCookie<'a>
        ensures { result ≡ spec.bare name.now value.now }
    {
        SetCookie {
            name,
            value,
            path: None,
            max_age: None,
            is_secure: false,
            is_http_only: false,
            same_site: None,
        }
    }

    /// Each part is as the grammar has it.
    fn is_cookie(&self) -> bool
        ensures { result ≡ spec.is_cookie self.now }
    {
        is_name(self.name.as_bytes())
            && is_value(self.value.as_bytes())
            && match self.path {
                Some(path) => is_path(path.as_bytes()),
                None => true,
            }
    }

    /// The cookie with its attributes, as it is sent.
    #[tactic(auto, unfolding(crate::specs::Cookies::cookie_text))]
    fn text(&self, alloc: Global) -> Result<Vec<u8>, AllocError>
        ensures { IfOk result (λ text. text.items ≡ spec.cookie_text self.now) }
    {
        let mut text = Vec::from_slice(alloc, self.name.as_bytes())?;
        text.extend_from_slice(b"=")?;
        text.extend_from_slice(self.value.as_bytes())?;
        push_path(&mut text, self.path)?;
        push_age(alloc, &mut text, self.max_age)?;
        text.extend_from_slice(part_if(self.is_secure, b"; Secure"))?;
        text.extend_from_slice(part_if(self.is_http_only, b"; HttpOnly"))?;
        text.extend_from_slice(site_part(self.same_site))?;
        Ok(text)
    }
}

/// Adds the field of a cookie.
fn add_cookie(reply: &mut Reply, value: HeaderValue) -> Result<(), ReplyFault>
    ensures { Answers reply.old (addition_result reply.old (spec.cookie_field value)) result reply.new }
{
    let name = HeaderName::from_static("set-cookie");
    reply.add(Field { name, value })
}

/// Sets a cookie (`addCookie`): adds a field `set-cookie` after those that there are.
///
/// BadHeader where a part isn't as RFC 6265, section 4.1.1 has it; Reserved for `JSESSIONID`, by which the container names the session.
/// Any other cookie is added as [`Reply::add`] adds a field: while the reply is held nothing is.
pub fn set_cookie(
    alloc: Global,
    reply: &mut Reply,
    cookie: &SetCookie<'_>,
) -> Result<(), ReplyFault>
    ensures { SetsCookie reply.old (spec.cookie_result reply.old cookie.now) result reply.new }
{
    if !cookie.is_cookie() {
        return Err(ReplyFault::BadHeader);
    }
    if cookie.name == "JSESSIONID" {
        return Err(ReplyFault::Reserved);
    }
    let text = cookie.text(alloc)?;
    let Some(value) = visible_value(alloc, text.as_slice())? else {
        return Err(ReplyFault::BadHeader);
    };
    add_cookie(reply, value)
}
