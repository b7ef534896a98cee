//! A container that is started and serves: a dispatch with its filter, and that of an error page.

ghost use Rattle.std.specs.Prelude.{IfOk, IfSome};
ghost use Rattle.sv_container.specs.Life.{AreNamedNew};

use crate::again::{Refusals, Unshown, done};
use crate::{given, shown};
use http::Method;
use std::alloc::{AllocError, Global};
use sv_config::Deployment;
use sv_container::{Container, Named, NotStarted, StartFault};
use sv_model::{Cookie, Copied, Engine, Fate, Key, Outcome, Request, Secret, Session};
use sv_samples::{Faulty, Stamp, Tally};
use sv_servlet::{Filter, GenericFilter, GenericServlet, Listener, Servlet};
use sv_target::{SESSION_COOKIE, cookie_text};
use sv_web::Web;

type Shown = Result<String, Unshown>;

type Erring = GenericServlet<Web<Faulty>>;

type Shop = Container<Erring, GenericFilter<Web<Stamp>>, Tally>;

const FRESH: (Key, Secret) = (Key { home: 0, serial: 2 }, Secret([2; 16]));

/// A servlet that sends an error, a filter round it, and an error page that shows it.
const DESCRIPTOR: &str = r#"[[context]]
path = "/shop"
servlet = [{ name = "faulty", patterns = ["/faulty", "/oops"] }]
filter = [{ name = "stamp-b" }]
filter-mapping = [{ filter = "stamp-b", pattern = "/*", dispatch = ["REQUEST", "ERROR"] }]
listener = [{ name = "tally" }]
error-page = [{ path = "/oops" }]
"#;

/// The same where sessions remember what was answered, by a parameter that the request has.
const REMEMBERING: &str = r#"[[context]]
path = "/shop"
servlet = [{ name = "faulty", patterns = ["/faulty", "/oops"] }]
filter = [{ name = "stamp-b" }]
filter-mapping = [{ filter = "stamp-b", pattern = "/*", dispatch = ["REQUEST", "ERROR"] }]
listener = [{ name = "tally" }]
error-page = [{ path = "/oops" }]
once = { answers = 2, parameter = "user" }
"#;

fn servlets(alloc: Global) -> Result<Vec<Named<Erring>>, AllocError>
    ensures { IfOk result (λ all. AreNamedNew ⟦<Erring as Servlet>⟧.servlet_phase all.items) }
{
    let name = String::from_str(alloc, "faulty")?;
    let mut all = Vec::new(alloc);
    all.push(Named {
        context: 0,
        name,
        object: GenericServlet::new(Web::new(alloc, Faulty)),
    })?;
    Ok(all)
}

fn filters(alloc: Global) -> Result<Vec<Named<GenericFilter<Web<Stamp>>>>, AllocError>
    ensures { IfOk result (λ all. AreNamedNew ⟦<GenericFilter<Web<Stamp>> as Filter>⟧.filter_phase all.items) }
{
    let name = String::from_str(alloc, "stamp-b")?;
    let object = Stamp::new(alloc, "stamp-b")?;
    let mut all = Vec::new(alloc);
    all.push(Named {
        context: 0,
        name,
        object,
    })?;
    Ok(all)
}

fn listeners(alloc: Global) -> Result<Vec<Named<Tally>>, AllocError> {
    let name = String::from_str(alloc, "tally")?;
    let mut all = Vec::new(alloc);
    all.push(Named {
        context: 0,
        name,
        object: Tally::new(),
    })?;
    Ok(all)
}

/// Whether what comes back of a start was refused memory, with all its objects.
fn is_refused<S: Servlet, F: Filter, L: Listener>(back: NotStarted<S, F, L>) -> bool {
    let count = back.servlets.len() + back.filters.len() + back.listeners.len();
    back.fault == StartFault::Memory && count == 3
}

/// Starts the container; where memory is refused to the start, its objects come back.
fn try_start(alloc: Global, descriptor: &str) -> Result<Option<Shop>, Unshown>
    ensures { IfOk result (λ found. IfSome found (λ c. ⟦<Shop as Engine>⟧.valid c)) }
{
    let servlets = servlets(alloc)?;
    let filters = filters(alloc)?;
    let listeners = listeners(alloc)?;
    let deployment = done(Deployment::from_toml(alloc, descriptor))?;
    match Container::start(alloc, deployment, servlets, filters, listeners) {
        Ok(container) => Ok(Some(container)),
        Err(back) => if is_refused(back) {
            Ok(None)
        } else {
            Err(Unshown::Other)
        },
    }
}

/// The container, started once more where memory was refused to its start.
fn started(alloc: Global, refusals: &mut Refusals, descriptor: &str) -> Result<Shop, Unshown>
    ensures { IfOk result (λ c. ⟦<Shop as Engine>⟧.valid c) }
{
    if let Some(container) = try_start(alloc, descriptor)? {
        return Ok(container);
    }
    refusals.add();
    match try_start(alloc, descriptor)? {
        Some(container) => Ok(container),
        None => Err(Unshown::Other),
    }
}

pub fn start(alloc: Global, refusals: &mut Refusals) -> Shown {
    let stopped = started(alloc, refusals, DESCRIPTOR)?.shutdown();
    done(format!(in alloc; "{stopped:?}"))
}

fn outcome_text(alloc: Global, outcome: &Outcome) -> Result<String, AllocError> {
    let response = &outcome.response;
    let text = shown::response(alloc, response)?;
    format!(in alloc;
        "{} {text}{}",
        response.status.as_u16(),
        outcome.events.len()
    )
}

/// Serves a request with a session.
fn serve(
    alloc: Global,
    shop: &mut Shop,
    request: &Request,
    session: &Session,
) -> Result<Outcome, Unshown>
    requires { ⟦<Shop as Engine>⟧.valid shop.old }
    ensures { ⟦<Shop as Engine>⟧.valid shop.new }
{
    done(shop.serve(request, Some((given::KEY, session)), given::NOW, FRESH))
}

/// The same, once more where memory is refused.
fn serve_twice(
    alloc: Global,
    refusals: &mut Refusals,
    shop: &mut Shop,
    request: &Request,
    session: &Session,
) -> Result<Outcome, Unshown>
    requires { ⟦<Shop as Engine>⟧.valid shop.old }
    ensures { ⟦<Shop as Engine>⟧.valid shop.new }
{
    match serve(alloc, shop, request, session) {
        Err(Unshown::Memory) => {
            refusals.add();
            serve(alloc, shop, request, session)
        }
        answer => answer,
    }
}

pub fn serve_again(alloc: Global, refusals: &mut Refusals) -> Shown {
    let mut shop = started(alloc, refusals, DESCRIPTOR)?;
    let request = given::request(alloc, "/shop/faulty")?;
    let session = given::session(alloc)?;
    let outcome = serve_twice(alloc, refusals, &mut shop, &request, &session)?;
    done(outcome_text(alloc, &outcome))
}

/// A POST that names the session, and whose parameter is its key.
fn keyed_request(alloc: Global) -> Result<Request, AllocError> {
    let mut request = given::request(alloc, "/shop/faulty")?;
    request.method = Method::POST;
    let name = given::bytes(alloc, SESSION_COOKIE.as_bytes())?;
    let value = given::bytes(alloc, cookie_text(0, given::KEY, given::SECRET).as_slice())?;
    request.cookies.push(Cookie { name, value })?;
    Ok(request)
}

/// The session that is kept after a request.
fn kept(alloc: Global, outcome: &Outcome) -> Result<Session, Unshown> {
    match &outcome.fate {
        Fate::Kept(session) => Ok(session.copy(alloc)?),
        _ => Err(Unshown::Other),
    }
}

/// What an answer says, and how much its session holds.
fn kept_text(alloc: Global, outcome: &Outcome, session: &Session) -> Result<String, AllocError> {
    let text = shown::response(alloc, &outcome.response)?;
    let status = outcome.response.status.as_u16();
    let size = session.attributes.size();
    format!(in alloc; "{status} {text}{size}")
}

/// Serves a request that has a key, and remembers its answer.
fn serve_keyed(
    alloc: Global,
    refusals: &mut Refusals,
    shop: &mut Shop,
    session: &Session,
) -> Result<Outcome, Unshown>
    requires { ⟦<Shop as Engine>⟧.valid shop.old }
    ensures { ⟦<Shop as Engine>⟧.valid shop.new }
{
    let request = keyed_request(alloc)?;
    serve_twice(alloc, refusals, shop, &request, session)
}

/// Serves it twice: the second time it is answered from memory.
fn serve_both(
    alloc: Global,
    refusals: &mut Refusals,
    shop: &mut Shop,
    session: &Session,
) -> Result<Outcome, Unshown>
    requires { ⟦<Shop as Engine>⟧.valid shop.old }
{
    let outcome = serve_keyed(alloc, refusals, shop, session)?;
    let session = kept(alloc, &outcome)?;
    serve_keyed(alloc, refusals, shop, &session)
}

/// What an answer says, and how much its session holds.
fn told(alloc: Global, outcome: &Outcome) -> Shown {
    let session = kept(alloc, outcome)?;
    done(kept_text(alloc, outcome, &session))
}

pub fn serve_once(alloc: Global, refusals: &mut Refusals) -> Shown {
    let session = given::session(alloc)?;
    let mut shop = started(alloc, refusals, REMEMBERING)?;
    let outcome = serve_keyed(alloc, refusals, &mut shop, &session)?;
    told(alloc, &outcome)
}

pub fn serve_recalled(alloc: Global, refusals: &mut Refusals) -> Shown {
    let session = given::session(alloc)?;
    let mut shop = started(alloc, refusals, REMEMBERING)?;
    let outcome = serve_both(alloc, refusals, &mut shop, &session)?;
    told(alloc, &outcome)
}
