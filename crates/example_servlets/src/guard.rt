//! A filter that guards the pages.

ghost use Rattle.std.specs.Prelude.{◌≡◌, IfOk};
ghost use Rattle.sv_servlet.specs.Servlet.{lent};
ghost use Rattle.sv_servlet.specs.Reply.{Answers, field_result};
ghost use Rattle.sv_web.specs.Refusal.{DoesAfter, DoesBefore};
ghost use Rattle.example_servlets.specs.Guard as spec;

use crate::visits::count;
use std::alloc::{AllocError, Global};
use sv_model::{Field, Text};
use sv_servlet::{Before, Call, Reply, ReplyFault};
use sv_session::SessionEdit;
use sv_web::{HttpFilter, Refusal, field, has_session, is_post, set_header};

/// Sets the fields by which a browser guards its user, and refuses a form that a page of another site has sent.
///
/// What a browser says of where a form comes from is believed: by `Sec-Fetch-Site` where it is there, else by `Origin` against
/// `Host`. A request with neither comes from no page.
///
/// A request of a session is counted as a page that the session is shown, by this node; and no cache keeps that page (RFC 9111, section
/// 5.2.2.5).
#[derive(Clone, Copy)]
pub struct Guard {
    /// The number of the node that it runs on.
    pub node: u8,
}

/// Only what the shop itself serves is loaded, and its forms lead to nowhere else (Content Security Policy, level 3).
const POLICY: &str =
    "default-src 'none'; style-src 'self'; img-src 'self'; form-action 'self'; base-uri 'self'; frame-ancestors 'none'";

/// The origin begins with a scheme, and goes on as a host.
fn is_at(origin: &[u8], scheme: &str, host: &[u8]) -> bool
    ensures { result ≡ spec.is_at origin.now scheme.now host.now }
{
    let scheme = scheme.as_bytes();
    origin.len() >= scheme.len()
        && &origin[..scheme.len()] == scheme
        && &origin[scheme.len()..] == host
}

/// The origin is another than the host that is asked.
fn is_elsewhere(fields: &[Field], origin: &[u8]) -> bool
    ensures { result ≡ spec.is_elsewhere fields.now origin.now }
{
    match field(fields, "host") {
        Some(host) => !(is_at(origin, "http://", host) || is_at(origin, "https://", host)),
        None => true,
    }
}

/// The request comes from a page of another site.
fn is_foreign(fields: &[Field]) -> bool
    ensures { result ≡ spec.is_foreign fields.now }
{
    if let Some(site) = field(fields, "sec-fetch-site") {
        return !(site == "same-origin".as_bytes() || site == "none".as_bytes());
    }
    match field(fields, "origin") {
        Some(origin) => is_elsewhere(fields, origin),
        None => false,
    }
}

/// Lets a request through, or refuses a form of another site.
fn admit(alloc: Global, call: &Call<'_>) -> Result<Before, AllocError>
    ensures { IfOk result (λ before. before ≡ spec.admitted call.now) }
{
    if is_post(call.method) && is_foreign(call.fields) {
        let text = Text::from_str(alloc, "This form was sent by a page of another site.")?;
        return Ok(Before::SendError { code: 403, text });
    }
    Ok(Before::Pass)
}

/// Says what may be loaded, and where forms may lead.
#[tactic(auto, unfolding(crate::specs::Guard::policy))]
fn set_policy(reply: &mut Reply) -> Result<(), ReplyFault>
    ensures { Answers reply.old (field_result reply.old spec.policy) result reply.new }
{
    set_header(reply, "content-security-policy", POLICY)
}

/// Says that a content type is what it says (Fetch Standard, `X-Content-Type-Options`).
#[tactic(auto, unfolding(crate::specs::Guard::no_sniffing))]
fn set_no_sniffing(reply: &mut Reply) -> Result<(), ReplyFault>
    ensures { Answers reply.old (field_result reply.old spec.no_sniffing) result reply.new }
{
    set_header(reply, "x-content-type-options", "nosniff")
}

/// Says that no cache is to keep the page.
#[tactic(auto, unfolding(crate::specs::Guard::no_store))]
fn set_no_store(reply: &mut Reply) -> Result<(), ReplyFault>
    ensures { Answers reply.old (field_result reply.old spec.no_store) result reply.new }
{
    set_header(reply, "cache-control", "no-store")
}

/// Sets the fields that every answer has, and lets a request through, or refuses it.
#[tactic(auto, unfolding(crate::specs::Guard::guarded))]
fn set_guards(
    alloc: Global,
    call: &Call<'_>,
    edit: &SessionEdit,
    reply: &mut Reply,
) -> Result<Before, Refusal>
    ensures { DoesBefore (spec.guarded call.now) (lent edit.entry.now reply.old) (lent edit.entry.now reply.new) result }
{
    set_policy(reply)?;
    set_no_sniffing(reply)?;
    Ok(admit(alloc, call)?)
}

/// Keeps the page out of caches, where the field fits.
#[tactic(auto, unfolding(crate::specs::Guard::unstored))]
fn keep_from_caches(edit: &SessionEdit, reply: &mut Reply) -> Result<(), AllocError>
    ensures { DoesAfter spec.unstored (lent edit.entry.now reply.old) (lent edit.entry.now reply.new) result }
{
    match set_no_store(reply) {
        Err(ReplyFault::Memory) => Err(AllocError),
        _ => Ok(()),
    }
}

impl HttpFilter for Guard {
    ghost use Rattle.example_servlets.specs.Guard.{guarding};

    ghost work = { λ g. guarding g.node };

    fn before(
        &mut self,
        alloc: Global,
        call: &Call<'_>,
        edit: &mut SessionEdit,
        reply: &mut Reply,
    ) -> Result<Before, Refusal> {
        if has_session(edit) {
            count(edit, self.node)?;
        }
        set_guards(alloc, call, edit, reply)
    }

    fn after(
        &mut self,
        _alloc: Global,
        _call: &Call<'_>,
        edit: &mut SessionEdit,
        reply: &mut Reply,
    ) -> Result<(), AllocError> {
        if has_session(edit) {
            return keep_from_caches(edit, reply);
        }
        Ok(())
    }
}
