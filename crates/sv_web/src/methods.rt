//! A servlet that answers by the method of a request (RFC 9110, section 9.3).

ghost use Rattle.std.specs.Prelude.{◌≡◌, IsTrue};
ghost use Rattle.http_header.specs.FieldValue.{is_visible_text};
ghost use Rattle.sv_web.specs.Exchange.{Completes};
ghost use Rattle.sv_web.specs.Methods as spec;
ghost use Rattle.sv_web.specs.Methods.{allow_of, allow_text, by_verb, method_work, some_or_not_allowed};

use crate::exchange::Exchange;
use crate::handler::{Absent, Deletes, Gets, Handler, Posts, Puts};
use crate::header::set_header;
use crate::http_servlet::HttpServlet;
use crate::refusal::Refusal;
use http::Method;
use std::alloc::Global;
use sv_model::Text;
use sv_servlet::{Call, Next, Reply};
use sv_session::SessionEdit;

/// What a method asks.
#[derive(Clone, Copy)]
enum Verb {
    Get,
    Post,
    Put,
    Delete,
    Options,
    Other,
}

fn verb_of(method: &Method) -> Verb
    ensures { result ≡ spec.verb_of method.now }
{
    let method = method.as_str();
    if method == "GET" || method == "HEAD" {
        Verb::Get
    } else if method == "POST" {
        Verb::Post
    } else if method == "PUT" {
        Verb::Put
    } else if method == "DELETE" {
        Verb::Delete
    } else if method == "OPTIONS" {
        Verb::Options
    } else {
        Verb::Other
    }
}

/// A servlet that answers each method by what is written for it.
///
/// HEAD is answered as GET is, and OPTIONS by the field `allow` (RFC 9110, section 10.2.1), which lists what is written. Every other
/// method is the error 405, with the same field.
#[derive(Clone, Copy, Drop)]
pub struct Methods<G, P, U, D> {
    get: G,
    post: P,
    put: U,
    delete: D,
}

impl Methods<Absent, Absent, Absent, Absent> {
    /// A servlet of which no method is written.
    pub fn new() -> Methods<Absent, Absent, Absent, Absent> {
        Methods {
            get: Absent,
            post: Absent,
            put: Absent,
            delete: Absent,
        }
    }
}

impl<P, U, D> Methods<Absent, P, U, D> {
    /// GET, and HEAD is answered by an object.
    pub fn get<T>(self, object: T) -> Methods<Gets<T>, P, U, D>
        ensures get { result.get.object ≡ object }
        ensures post { result.post ≡ self.post }
        ensures put { result.put ≡ self.put }
        ensures delete { result.delete ≡ self.delete }
    {
        let Methods {
            get: Absent,
            post,
            put,
            delete,
        } = self;
        Methods {
            get: Gets { object },
            post,
            put,
            delete,
        }
    }
}

impl<G, U, D> Methods<G, Absent, U, D> {
    /// POST is answered by an object.
    pub fn post<T>(self, object: T) -> Methods<G, Posts<T>, U, D>
        ensures post { result.post.object ≡ object }
        ensures get { result.get ≡ self.get }
        ensures put { result.put ≡ self.put }
        ensures delete { result.delete ≡ self.delete }
    {
        let Methods {
            get,
            post: Absent,
            put,
            delete,
        } = self;
        Methods {
            get,
            post: Posts { object },
            put,
            delete,
        }
    }
}

impl<G, P, D> Methods<G, P, Absent, D> {
    /// PUT is answered by an object.
    pub fn put<T>(self, object: T) -> Methods<G, P, Puts<T>, D>
        ensures put { result.put.object ≡ object }
        ensures get { result.get ≡ self.get }
        ensures post { result.post ≡ self.post }
        ensures delete { result.delete ≡ self.delete }
    {
        let Methods {
            get,
            post,
            put: Absent,
            delete,
        } = self;
        Methods {
            get,
            post,
            put: Puts { object },
            delete,
        }
    }
}

impl<G, P, U> Methods<G, P, U, Absent> {
    /// DELETE is answered by an object.
    pub fn delete<T>(self, object: T) -> Methods<G, P, U, Deletes<T>>
        ensures delete { result.delete.object ≡ object }
        ensures get { result.get ≡ self.get }
        ensures post { result.post ≡ self.post }
        ensures put { result.put ≡ self.put }
    {
        let Methods {
            get,
            post,
            put,
            delete: Absent,
        } = self;
        Methods {
            get,
            post,
            put,
            delete: Deletes { object },
        }
    }
}

/// The field `allow` of the methods that are written.
#[tactic(auto, unfolding(crate::specs::Methods::allow_of))]
fn allow(get: bool, post: bool, put: bool, delete: bool) -> &'static str
    ensures text { result.now ≡ allow_of get post put delete }
    ensures visible { IsTrue (is_visible_text result.now) }
{
    match (get, post, put, delete) {
        (true, true, true, true) => "GET, HEAD, POST, PUT, DELETE, OPTIONS",
        (true, true, true, false) => "GET, HEAD, POST, PUT, OPTIONS",
        (true, true, false, true) => "GET, HEAD, POST, DELETE, OPTIONS",
        (true, true, false, false) => "GET, HEAD, POST, OPTIONS",
        (true, false, true, true) => "GET, HEAD, PUT, DELETE, OPTIONS",
        (true, false, true, false) => "GET, HEAD, PUT, OPTIONS",
        (true, false, false, true) => "GET, HEAD, DELETE, OPTIONS",
        (true, false, false, false) => "GET, HEAD, OPTIONS",
        (false, true, true, true) => "POST, PUT, DELETE, OPTIONS",
        (false, true, true, false) => "POST, PUT, OPTIONS",
        (false, true, false, true) => "POST, DELETE, OPTIONS",
        (false, true, false, false) => "POST, OPTIONS",
        (false, false, true, true) => "PUT, DELETE, OPTIONS",
        (false, false, true, false) => "PUT, OPTIONS",
        (false, false, false, true) => "DELETE, OPTIONS",
        (false, false, false, false) => "OPTIONS",
    }
}

/// The error 405 (RFC 9110, section 15.5.6).
fn refuse(web: &mut Exchange<'_>, allow: &'static str) -> Result<Next, Refusal>
    requires { IsTrue (is_visible_text allow.now) }
    ensures { Completes (spec.not_allowed allow.now) web.old web.new result }
{
    set_header(web.reply, "allow", allow)?;
    let text = Text::from_str(web.alloc, "")?;
    Ok(Next::SendError { code: 405, text })
}

/// What is answered to OPTIONS (RFC 9110, section 9.3.7).
fn list(web: &mut Exchange<'_>, allow: &'static str) -> Result<Next, Refusal>
    requires { IsTrue (is_visible_text allow.now) }
    ensures { Completes (spec.options allow.now) web.old web.new result }
{
    web.reply.status(204)?;
    set_header(web.reply, "allow", allow)?;
    Ok(Next::Done)
}

/// Answers a request of a method by what is written for it.
fn answer<H: Handler>(
    handler: &mut H,
    web: &mut Exchange<'_>,
    allow: &'static str,
) -> Result<Next, Refusal>
    requires { IsTrue (is_visible_text allow.now) }
    ensures same { H.handles handler.new ≡ H.handles handler.old }
    ensures work { Completes (some_or_not_allowed (H.handles handler.old) allow.now web.old.call.now) web.old web.new result }
{
    if handler.is_written() {
        return handler.handle(web);
    }
    refuse(web, allow)
}

impl<G: Handler, P: Handler, U: Handler, D: Handler> Methods<G, P, U, D> {
    /// The field `allow`.
    fn allow(&self) -> &'static str
        ensures text { result.now ≡ allow_text (method_work (G.handles self.now.get) (P.handles self.now.post) (U.handles self.now.put) (D.handles self.now.delete)) }
        ensures visible { IsTrue (is_visible_text result.now) }
    {
        let (get, post) = (self.get.is_written(), self.post.is_written());
        let (put, delete) = (self.put.is_written(), self.delete.is_written());
        allow(get, post, put, delete)
    }

    /// Answers a request by what it asks.
    fn answer(&mut self, verb: Verb, web: &mut Exchange<'_>) -> Result<Next, Refusal>
        ensures same { method_work (G.handles self.new.get) (P.handles self.new.post) (U.handles self.new.put) (D.handles self.new.delete)
            ≡ method_work (G.handles self.old.get) (P.handles self.old.post) (U.handles self.old.put) (D.handles self.old.delete) }
        ensures work { Completes (by_verb (method_work (G.handles self.old.get) (P.handles self.old.post) (U.handles self.old.put) (D.handles self.old.delete))
            verb web.old.call.now) web.old web.new result }
    {
        let allow = self.allow();
        match verb {
            Verb::Get => answer(&mut self.get, web, allow),
            Verb::Post => answer(&mut self.post, web, allow),
            Verb::Put => answer(&mut self.put, web, allow),
            Verb::Delete => answer(&mut self.delete, web, allow),
            Verb::Options => list(web, allow),
            Verb::Other => refuse(web, allow),
        }
    }
}

impl<G: Handler, P: Handler, U: Handler, D: Handler> HttpServlet for Methods<G, P, U, D> {
    ghost use Rattle.sv_web.specs.Methods.{by_method, method_work};

    ghost work = { λ m. by_method (method_work (G.handles m.get) (P.handles m.post) (U.handles m.put) (D.handles m.delete)) };

    fn serve(
        &mut self,
        alloc: Global,
        call: &Call<'_>,
        edit: &mut SessionEdit,
        reply: &mut Reply,
    ) -> Result<Next, Refusal> {
        let verb = verb_of(call.method);
        let mut web = Exchange {
            alloc,
            call,
            edit,
            reply,
        };
        self.answer(verb, &mut web)
    }
}
