//! A dispatch by itself: a servlet includes a path that nothing serves, with a filter round both. After a refusal what was lent is
//! dropped, and the objects serve another request as they would have served the first.

ghost use Rattle.std.specs.Prelude.{◌≡◌, ◌∷◌, [], IfOk};
ghost use Rattle.sv_dispatch.specs.Stages.{IsSound, table_of};
ghost use Rattle.sv_servlet.specs.declared.servlet.Phase.TheVariants.{New, Ready};
ghost use Rattle.test_memory.specs.Stages.{IsOne};

use crate::again::{Refusals, Unshown, done};
use crate::cases::carrying::Carrying;
use crate::given;
use http::Method;
use std::alloc::{AllocError, Global};
use sv_dispatch::{Ended, Hosted, Stage, run};
use sv_mapping::{Dispatcher, Dispatchers, FilterMapping, FilterTarget, Mappings, Pattern};
use sv_model::{Param, Sequence, Text};
use sv_samples::{Includer, Stamp};
use sv_servlet::{Call, Filter, GenericFilter, GenericServlet, Reply, RequestAttributes, Servlet};
use sv_session::SessionEdit;
use sv_web::Web;

type Shown = Result<String, Unshown>;

/// Requests, and what they include.
const KINDS: [Dispatcher; 2] = [Dispatcher::Request, Dispatcher::Include];

/// A servlet, initialised.
fn ready<S: Servlet>(servlet: S) -> Result<S, Unshown>
    requires { S.servlet_phase servlet ≡ New }
    ensures { IfOk result (λ s. S.servlet_phase s ≡ Ready) }
{
    let mut servlet = servlet;
    match servlet.init() {
        Ok(()) => Ok(servlet),
        Err(_) => Err(Unshown::Other),
    }
}

/// A filter, initialised.
fn ready_filter<F: Filter>(filter: F) -> Result<F, Unshown>
    requires { F.filter_phase filter ≡ New }
    ensures { IfOk result (λ f. F.filter_phase f ≡ Ready) }
{
    let mut filter = filter;
    match filter.init() {
        Ok(()) => Ok(filter),
        Err(_) => Err(Unshown::Other),
    }
}

/// A list of one.
fn listed<T: Drop>(alloc: Global, item: T) -> Result<Vec<T>, AllocError>
    ensures { IfOk result (λ all. all.items ≡ item ∷ []) }
{
    let mut all = Vec::new(alloc);
    all.push(item)?;
    Ok(all)
}

/// A list of one object, which may be called.
fn hosted<O: Drop>(alloc: Global, name: &str, object: O) -> Result<Vec<Hosted<O>>, AllocError>
    ensures { IfOk result (λ all. IsOne object all.items) }
{
    let name = Text::from_str(alloc, name)?;
    listed(
        alloc,
        Hosted {
            name,
            object,
            is_ready: true,
        },
    )
}

/// The servlet at `/a`.
fn patterns(alloc: Global) -> Result<Mappings, Unshown> {
    let pattern = done(Pattern::read(alloc, "/a"))?;
    let mut patterns = Mappings::new(alloc);
    done(patterns.add(pattern, 0))?;
    Ok(patterns)
}

/// The filter on each path.
fn mapping(alloc: Global) -> Result<FilterMapping, Unshown>
    ensures { IfOk result (λ m. m.filter ≡ 0) }
{
    let pattern = done(Pattern::read(alloc, "/*"))?;
    Ok(FilterMapping {
        filter: 0,
        target: FilterTarget::Pattern(pattern),
        dispatchers: Dispatchers::of(&KINDS),
    })
}

/// What a request is lent: no session, and an empty reply.
fn lent(alloc: Global) -> (SessionEdit, Reply) {
    let fresh = (given::KEY, given::SECRET);
    (
        SessionEdit::begin(alloc, None, 0, 600, given::NOW, fresh),
        Reply::new(alloc),
    )
}

/// A servlet, and a filter round it.
fn stage<S: Servlet, F: Filter>(
    alloc: Global,
    servlet: S,
    filter: F,
) -> Result<Stage<S, F>, Unshown>
    requires servlet { S.servlet_phase servlet ≡ Ready }
    requires filter { F.filter_phase filter ≡ Ready }
    ensures { IfOk result (λ s. IsSound (table_of S.Servlet F.Filter s)) }
{
    let servlets = hosted(alloc, "includer", servlet)?;
    let filters = hosted(alloc, "stamp-b", filter)?;
    let patterns = patterns(alloc)?;
    let mapping = mapping(alloc)?;
    let chains = listed(alloc, mapping)?;
    let (edit, reply) = lent(alloc);
    Ok(Stage {
        servlets,
        filters,
        patterns,
        chains,
        pages: Vec::new(alloc),
        edit,
        reply,
    })
}

/// What is included: a path with a query.
fn params(alloc: Global) -> Result<Sequence<Param>, AllocError> {
    let name = given::text(alloc, "path")?;
    let value = given::text(alloc, "/none?user=ann")?;
    let mut params = Sequence::new(alloc);
    params.push(Param { name, value })?;
    Ok(params)
}

/// A call for `/a` of the context `/shop`.
fn call<'a>(
    method: &'a Method,
    params: &'a [Param],
    attributes: &'a RequestAttributes,
) -> Call<'a> {
    Call {
        method,
        request_uri: "/shop/a",
        context_path: "/shop",
        servlet_path: "/a",
        path_info: None,
        query: None,
        params,
        fields: &[],
        cookies: &[],
        body: b"",
        settings: &[],
        attributes,
        resume: 0,
    }
}

/// Dispatches a request for `/a`, with another edit and another reply.
fn dispatch<S: Servlet, F: Filter>(
    alloc: Global,
    stage: &mut Stage<S, F>,
    params: &[Param],
) -> Result<Ended, AllocError>
    requires { IsSound (table_of S.Servlet F.Filter stage.old) }
    ensures { IsSound (table_of S.Servlet F.Filter stage.new) }
{
    let (edit, reply) = lent(alloc);
    stage.edit = edit;
    stage.reply = reply;
    let method = Method::GET;
    let attributes = RequestAttributes::new(alloc);
    run(alloc, stage, call(&method, params, &attributes))
}

/// How it ended, and the reply.
fn shown(alloc: Global, ended: Ended, reply: Reply) -> Result<String, AllocError> {
    let replied = reply.finish();
    format!(in alloc;
        "{ended:?} {} {:?}",
        replied.status.as_u16(),
        replied.body.as_slice()
    )
}

/// The same, once more where memory is refused.
fn dispatch_again<S: Servlet, F: Filter>(
    alloc: Global,
    refusals: &mut Refusals,
    stage: &mut Stage<S, F>,
) -> Result<Ended, AllocError>
    requires { IsSound (table_of S.Servlet F.Filter stage.old) }
{
    let params = params(alloc)?;
    match dispatch(alloc, stage, params.as_slice()) {
        Ok(ended) => Ok(ended),
        Err(AllocError) => {
            refusals.add();
            dispatch(alloc, stage, params.as_slice())
        }
    }
}

/// A stage's reply; all else of it is dropped.
fn reply_of<S: Servlet, F: Filter>(stage: Stage<S, F>) -> Reply {
    stage.reply
}

/// A request on a stage: how it ended, and the reply.
fn tried<S: Servlet, F: Filter>(alloc: Global, refusals: &mut Refusals, stage: Stage<S, F>) -> Shown
    requires { IsSound (table_of S.Servlet F.Filter stage) }
{
    let mut stage = stage;
    match dispatch_again(alloc, refusals, &mut stage) {
        Ok(ended) => done(shown(alloc, ended, reply_of(stage))),
        Err(AllocError) => Err(Unshown::Memory),
    }
}

/// The same with a filter round the servlet that includes.
fn filtered<F: Filter>(alloc: Global, refusals: &mut Refusals, filter: F) -> Shown
    requires { F.filter_phase filter ≡ New }
{
    let filter = ready_filter(filter)?;
    let servlet = ready(GenericServlet::new(Web::new(alloc, Includer)))?;
    match stage(alloc, servlet, filter) {
        Ok(stage) => tried(alloc, refusals, stage),
        Err(why) => Err(why),
    }
}

/// The calls grow by the chains of filters, by those that have passed, by the text that is written, by the dispatch that waits for
/// the one that it includes, and by the latter's path, parameters and attributes.
pub fn dispatched(alloc: Global, refusals: &mut Refusals) -> Shown {
    filtered(alloc, refusals, Stamp::new(alloc, "stamp-b")?)
}

/// Here also by the attribute with which the filter passes, and by the attributes that have it.
pub fn carried(alloc: Global, refusals: &mut Refusals) -> Shown {
    filtered(
        alloc,
        refusals,
        GenericFilter::new(Web::new(alloc, Carrying)),
    )
}
