//! Paths of the own context, and redirects to them.

ghost use Rattle.std.specs.Prelude.{◌≡◌, IsTrue, Some};
ghost use Rattle.sv_web.specs.Exchange.{Completes};
ghost use Rattle.sv_servlet.specs.Reply.{Answers, field_result};
ghost use Rattle.sv_web.specs.Place as spec;

use crate::cutting::begins_with;
use crate::exchange::Exchange;
use crate::header::visible_value;
use crate::refusal::Refusal;
use http_header::{HeaderName, HeaderValue};
use sv_model::Field;
use sv_servlet::{Next, Reply, ReplyFault};

/// A byte of a path or a query (RFC 3986, sections 3.3 and 3.4).
fn is_path_byte(byte: u8) -> bool
    ensures { result ≡ spec.is_path_byte byte }
{
    matches!(
        byte,
        b'0'..=b'9' | b'A'..=b'Z' | b'a'..=b'z' | b'!' | b'$'..=b'/' | b':' | b';' | b'=' | b'?' | b'@' | b'_' | b'~'
    )
}

/// A segment begins that is empty, or with a dot, also with an escaped one.
fn is_apart(text: &[u8]) -> bool
    ensures { result ≡ spec.is_apart text.now }
{
    begins_with(text, b"/")
        || begins_with(text, b".")
        || begins_with(text, b"%2e")
        || begins_with(text, b"%2E")
}

fn fits(byte: u8, rest: &[u8]) -> bool
    ensures { result ≡ spec.fits byte rest.now }
{
    is_path_byte(byte) && !(byte == b'/' && is_apart(rest))
}

/// Each byte is one of a path, and no segment is apart.
#[tactic(auto, unfolding(crate::specs::Place::is_within))]
fn is_within(text: &[u8]) -> bool
    ensures { result ≡ spec.is_within text.now }
{
    let mut rest = text;
    while let [byte, tail @ ..] = rest {
        if !fits(*byte, tail) {
            return false;
        }
        rest = tail;
    }
    true
}

/// A path that leads nowhere but into the context, however a client reads it.
pub fn is_own_path(path: &str) -> bool
    ensures { result ≡ spec.is_own_path path.now }
{
    let path = path.as_bytes();
    begins_with(path, b"/") && is_within(path)
}

/// The field that names an address.
fn location(value: HeaderValue) -> Field
    ensures { result ≡ spec.location value }
{
    let name = HeaderName::from_static("location");
    Field { name, value }
}

/// Sets the address on which a client is sent.
fn set_location(reply: &mut Reply, value: HeaderValue) -> Result<(), ReplyFault>
    ensures { Answers reply.old (field_result reply.old (spec.location value)) result reply.new }
{
    reply.set(location(value))
}

/// Sends a client on to the address that is a field's value.
fn send_by(web: &mut Exchange<'_>, value: HeaderValue) -> Result<Next, Refusal>
    ensures { Completes (spec.sent_by (Some value)) web.old web.new result }
{
    set_location(web.reply, value)?;
    web.reply.status(303)?;
    Ok(Next::Done)
}

/// Sends a client on to a path of the context, where it asks by GET: the status 303 (RFC 9110, section 15.4.4), and as `location` the
/// path after that of the context.
///
/// What a client chooses is tested by [`is_own_path`] before, so that it leads nowhere else.
#[tactic(auto, unfolding(crate::specs::Place::sent_to))]
pub fn send_to(web: &mut Exchange<'_>, path: &str) -> Result<Next, Refusal>
    requires { IsTrue (spec.is_own_path path.now) }
    ensures { Completes (spec.sent_to web.old.call.now path.now) web.old web.new result }
{
    let call = web.call;
    let mut to = Vec::from_slice(web.alloc, call.context_path.as_bytes())?;
    to.extend_from_slice(path.as_bytes())?;
    let Some(value) = visible_value(web.alloc, to.as_slice())? else {
        return Err(Refusal::Fault(ReplyFault::BadHeader.name()));
    };
    send_by(web, value)
}
