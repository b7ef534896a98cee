//! The samples, each called as a dispatch does: after a refusal what it was lent is made anew.

ghost use Rattle.std.specs.Prelude.{◌≡◌};
ghost use Rattle.sv_servlet.specs.declared.servlet.Phase.TheVariants.{Ready, New};

use crate::again::{Refusals, Unshown, done};
use crate::given;
use http::Method;
use std::alloc::{AllocError, Global};
use sv_model::Param;
use sv_samples::{Count, Faulty, Forwarder, Gate, Hello, Includer, Login, Renew, Snoop, Stamp};
use sv_servlet::{Call, Filter, GenericServlet, Reply, RequestAttributes, Servlet};
use sv_session::SessionEdit;
use sv_web::{HttpServlet, Web};

type Shown = Result<String, Unshown>;

/// A call for `/a` of the context `/shop`.
fn call<'a>(
    method: &'a Method,
    params: &'a [Param],
    attributes: &'a RequestAttributes,
) -> Call<'a> {
    Call {
        method,
        request_uri: "/shop/a",
        context_path: "/shop",
        servlet_path: "/a",
        path_info: None,
        query: Some("user=ann"),
        params,
        fields: &[],
        cookies: &[],
        body: b"",
        settings: &[],
        attributes,
        resume: 0,
    }
}

/// The reply's body, and how many events there are.
fn told(alloc: Global, edit: SessionEdit, reply: Reply) -> Result<String, AllocError> {
    let events = edit.finish().events.len();
    let replied = reply.finish();
    format!(in alloc;
        "{} {events} {:?}",
        replied.status.as_u16(),
        replied.body.as_slice()
    )
}

/// A servlet serves a request of a session; the reply's body, and how many events there are.
fn serve<S: Servlet>(
    alloc: Global,
    servlet: &mut S,
    params: &[Param],
    attributes: &RequestAttributes,
) -> Result<String, AllocError>
    requires { S.servlet_phase servlet.old ≡ Ready }
    ensures { S.servlet_phase servlet.new ≡ Ready }
{
    let held = Some((given::KEY, given::session(alloc)?));
    let fresh = (given::KEY, given::SECRET);
    let mut edit = SessionEdit::begin(alloc, held, 0, 600, given::NOW, fresh);
    let mut reply = Reply::new(alloc);
    let method = Method::GET;
    match servlet.service(&call(&method, params, attributes), &mut edit, &mut reply) {
        Ok(_) => told(alloc, edit, reply),
        Err(AllocError) => Err(AllocError),
    }
}

/// The same, once more where memory is refused.
fn serve_again<S: Servlet>(
    alloc: Global,
    refusals: &mut Refusals,
    servlet: &mut S,
    params: &[Param],
) -> Result<String, AllocError>
    requires { S.servlet_phase servlet.old ≡ Ready }
{
    let attributes = RequestAttributes::new(alloc);
    match serve(alloc, servlet, params, &attributes) {
        Ok(first) => Ok(first),
        Err(AllocError) => {
            refusals.add();
            serve(alloc, servlet, params, &attributes)
        }
    }
}

/// A servlet that was just made serves twice.
fn served<S: HttpServlet>(alloc: Global, refusals: &mut Refusals, sample: S) -> Shown {
    let mut servlet = GenericServlet::new(Web::new(alloc, sample));
    if servlet.init().is_err() {
        return Err(Unshown::Other);
    }
    let params = given::params(alloc)?;
    done(serve_again(alloc, refusals, &mut servlet, params.as_slice()))
}

/// A filter comes before a servlet and after it.
fn around<F: Filter>(
    filter: &mut F,
    call: &Call<'_>,
    edit: &mut SessionEdit,
    reply: &mut Reply,
) -> Result<(), AllocError>
    requires { F.filter_phase filter.old ≡ Ready }
    ensures { F.filter_phase filter.new ≡ Ready }
{
    filter.before(call, edit, reply)?;
    filter.after(call, edit, reply)
}

/// The reply's body.
fn body_text(alloc: Global, reply: Reply) -> Result<String, AllocError> {
    format!(in alloc; "{:?}", reply.finish().body.as_slice())
}

/// The same with a reply of its own, whose body it is.
fn filter<F: Filter>(
    alloc: Global,
    filter: &mut F,
    attributes: &RequestAttributes,
) -> Result<String, AllocError>
    requires { F.filter_phase filter.old ≡ Ready }
    ensures { F.filter_phase filter.new ≡ Ready }
{
    let fresh = (given::KEY, given::SECRET);
    let mut edit = SessionEdit::begin(alloc, None, 0, 600, given::NOW, fresh);
    let mut reply = Reply::new(alloc);
    let method = Method::GET;
    match around(
        filter,
        &call(&method, &[], attributes),
        &mut edit,
        &mut reply,
    ) {
        Ok(()) => body_text(alloc, reply),
        Err(AllocError) => Err(AllocError),
    }
}

fn filtered<F: Filter>(alloc: Global, refusals: &mut Refusals, mut object: F) -> Shown
    requires { F.filter_phase object ≡ New }
{
    let attributes = RequestAttributes::new(alloc);
    if object.init().is_err() {
        return Err(Unshown::Other);
    }
    match filter(alloc, &mut object, &attributes) {
        Ok(text) => Ok(text),
        Err(AllocError) => {
            refusals.add();
            done(filter(alloc, &mut object, &attributes))
        }
    }
}

fn stamp(alloc: Global, refusals: &mut Refusals) -> Shown {
    if let Ok(stamp) = Stamp::new(alloc, "stamp-b") {
        return filtered(alloc, refusals, stamp);
    }
    refusals.add();
    filtered(alloc, refusals, Stamp::new(alloc, "stamp-b")?)
}

fn of_dispatching(alloc: Global, refusals: &mut Refusals, name: &str) -> Shown {
    match name {
        "includer" => served(alloc, refusals, Includer),
        "forwarder" => served(alloc, refusals, Forwarder),
        "faulty" => served(alloc, refusals, Faulty),
        "stamp" => stamp(alloc, refusals),
        _ => filtered(alloc, refusals, Gate::new(alloc)),
    }
}

/// The case of a sample.
pub fn tried(alloc: Global, refusals: &mut Refusals, name: &str) -> Shown {
    match name {
        "hello" => served(alloc, refusals, Hello),
        "count" => served(alloc, refusals, Count),
        "snoop" => served(alloc, refusals, Snoop),
        "login" => served(alloc, refusals, Login),
        "renew" => served(alloc, refusals, Renew),
        _ => of_dispatching(alloc, refusals, name),
    }
}
