//! Applications before their objects are put into them: all that takes memory.

ghost use Rattle.std.specs.Prelude.{◌≡◌, [], IfOk, All, length, map, min, option_copied, option_map, string_bytes};
ghost use Rattle.std.specs.Vec.{vec_capacity};
ghost use Rattle.sv_container.specs.Deployment as spec;

use crate::application::{Application, idle_edit, idle_reply};
use crate::set_cookie::SessionCookie;
use std::alloc::{AllocError, Global};
use sv_config::{Context, CookieConfig, Once};
use sv_dispatch::{ErrorPage, Hosted, PageFor, Stage};
use sv_model::{Sequence, Text};
use sv_once::Choice;
use sv_servlet::Setting;
use sv_target::SESSION_COOKIE;

/// The applications of a deployment, with the context path of each by its number.
#[derive(Drop)]
pub struct Prepared<S, F> {
    pub paths: Vec<String>,
    pub applications: Vec<Application<S, F>>,
}

/// What a page is for.
fn page_for(alloc: Global, choice: &sv_config::PageFor) -> Result<PageFor, AllocError>
    ensures { IfOk result (λ copy. copy ≡ spec.page_for choice.now) }
{
    match choice {
        sv_config::PageFor::Status(status) => Ok(PageFor::Status(*status)),
        sv_config::PageFor::Fault(name) => Ok(PageFor::Fault(Text::from_str(
            alloc,
            name.as_str(),
        )?)),
        sv_config::PageFor::Default => Ok(PageFor::Default),
    }
}

#[tactic(auto, unfolding(crate::specs::Deployment::page_of))]
fn page_of(alloc: Global, page: &sv_config::ErrorPage) -> Result<ErrorPage, AllocError>
    ensures { IfOk result (λ copy. copy ≡ spec.page_of page.now) }
{
    Ok(ErrorPage {
        page_for: page_for(alloc, &page.choice)?,
        path: Text::from_str(alloc, page.path.as_str())?,
    })
}

/// The error pages of a context.
fn pages_of(alloc: Global, pages: &[sv_config::ErrorPage]) -> Result<Vec<ErrorPage>, AllocError>
    ensures { IfOk result (λ copies. copies.items ≡ map spec.page_of pages.now) }
{
    let mut copies = Vec::new(alloc);
    for page in pages {
        copies.push(page_of(alloc, page)?)?;
    }
    Ok(copies)
}

/// The number of a context as sessions and events have it; a context that has none is never in service.
fn number_of(place: usize) -> u8
    ensures { result ≡ min place 255 }
{
    place.min(255) as u8
}

/// What the sessions of a context remember.
fn choice_of(once: Option<Once>) -> Option<Choice>
    ensures { result ≡ option_map spec.choice_of once }
{
    let Once { answers, parameter } = once?;
    Some(Choice {
        answers,
        parameter: parameter.map(Text::from_string),
    })
}

/// The name of the cookie of a context's sessions.
fn cookie_name(alloc: Global, name: Option<&str>) -> Result<Text, AllocError>
    ensures { IfOk result (λ t. t ≡ spec.cookie_name (option_copied name.entry)) }
{
    match name {
        Some(name) => Text::from_str(alloc, name),
        None => Text::from_str(alloc, SESSION_COOKIE),
    }
}

/// The cookie of a context's sessions.
fn cookie_of(alloc: Global, cookie: &CookieConfig) -> Result<SessionCookie, AllocError>
    ensures { IfOk result (λ c. c ≡ spec.cookie_of cookie.now) }
{
    let name = cookie.name.as_ref().map(|name| name.as_str());
    Ok(SessionCookie {
        name: cookie_name(alloc, name)?,
        secure: cookie.secure,
        same_site: cookie.same_site,
    })
}

#[tactic(auto, unfolding(crate::specs::Deployment::setting_of))]
fn setting_of(alloc: Global, setting: &sv_config::Setting) -> Result<Setting, AllocError>
    ensures { IfOk result (λ copy. copy ≡ spec.setting_of setting.now) }
{
    Ok(Setting {
        name: Text::from_str(alloc, setting.name.as_str())?,
        value: Text::from_str(alloc, setting.value.as_str())?,
    })
}

/// What the descriptor gives the servlets and filters of a context.
fn settings_of(alloc: Global, settings: &[sv_config::Setting]) -> Result<Vec<Setting>, AllocError>
    ensures { IfOk result (λ copies. copies.items ≡ map spec.setting_of settings.now) }
{
    let mut copies = Vec::new(alloc);
    for setting in settings {
        copies.push(setting_of(alloc, setting)?)?;
    }
    Ok(copies)
}

/// What a context says in texts.
#[derive(Drop)]
struct Texts {
    path: Text,
    cookie: SessionCookie,
    settings: Vec<Setting>,
    pages: Vec<ErrorPage>,
}

fn texts_of(alloc: Global, context: &Context) -> Result<Texts, AllocError>
    ensures path { IfOk result (λ t. t.path ≡ string_bytes context.now.path) }
    ensures cookie { IfOk result (λ t. t.cookie ≡ spec.cookie_of context.now.cookie) }
    ensures settings { IfOk result (λ t. t.settings.items ≡ map spec.setting_of context.now.settings.items) }
    ensures pages { IfOk result (λ t. t.pages.items ≡ map spec.page_of context.now.error_pages.items) }
{
    let path = Text::from_str(alloc, context.path.as_str())?;
    let cookie = cookie_of(alloc, &context.cookie)?;
    let settings = settings_of(alloc, context.settings.as_slice())?;
    let pages = pages_of(alloc, context.error_pages.as_slice())?;
    Ok(Texts {
        path,
        cookie,
        settings,
        pages,
    })
}

/// Room for the servlets and the filters of a context.
fn room_for<S: Drop, F: Drop>(
    alloc: Global,
    context: &Context,
) -> Result<(Vec<Hosted<S>>, Vec<Hosted<F>>), AllocError>
    ensures servlets { IfOk result (λ r. vec_capacity r.0 ≡ length context.now.servlets.items) }
    ensures filters { IfOk result (λ r. vec_capacity r.1 ≡ length context.now.filters.items) }
    ensures no_servlets { IfOk result (λ r. r.0.items ≡ []) }
    ensures no_filters { IfOk result (λ r. r.1.items ≡ []) }
{
    let servlets = Vec::with_capacity(alloc, context.servlets.len())?;
    let filters = Vec::with_capacity(alloc, context.filters.len())?;
    Ok((servlets, filters))
}

/// An application with room for its objects, which is not in service yet.
fn prepare_one<S: Drop, F: Drop>(
    alloc: Global,
    place: usize,
    context: Context,
) -> Result<Application<S, F>, AllocError>
    ensures frame { IfOk result (λ a. spec.frame_of a ≡ spec.frame_of_context place context) }
    ensures empty { IfOk result (spec.IsEmpty) }
{
    let texts = texts_of(alloc, &context)?;
    let (servlets, filters) = room_for(alloc, &context)?;
    let Texts {
        path,
        cookie,
        settings,
        pages,
    } = texts;
    let Context {
        path: _,
        interval,
        servlets: _,
        mappings,
        filters: _,
        filter_mappings,
        listeners: _,
        error_pages: _,
        once,
        cookie: _,
        settings: _,
        files: _,
    } = context;
    Ok(Application {
        number: number_of(place),
        path,
        cookie,
        interval,
        is_in_service: false,
        once: choice_of(once),
        settings: Sequence::from_vec(settings),
        stage: Stage {
            servlets,
            filters,
            patterns: mappings,
            chains: filter_mappings,
            pages,
            edit: idle_edit(alloc),
            reply: idle_reply(alloc),
        },
    })
}

/// A copy of a context path.
#[tactic(auto, unfolding(crate::specs::Deployment::path_of))]
fn path_of(alloc: Global, context: &Context) -> Result<String, AllocError>
    ensures { IfOk result (λ path. string_bytes path ≡ spec.path_of context.now) }
{
    String::from_str(alloc, context.path.as_str())
}

/// The context paths, by the numbers of the contexts.
fn paths_of(alloc: Global, contexts: &[Context]) -> Result<Vec<String>, AllocError>
    ensures { IfOk result (λ paths. map string_bytes paths.items ≡ map spec.path_of contexts.now) }
{
    let mut paths = Vec::new(alloc);
    for context in contexts {
        paths.push(path_of(alloc, context)?)?;
    }
    Ok(paths)
}

/// The applications of contexts, with room for their objects.
pub fn prepare<S: Drop, F: Drop>(
    alloc: Global,
    contexts: Vec<Context>,
) -> Result<Prepared<S, F>, AllocError>
    ensures paths { IfOk result (λ p. map string_bytes p.paths.items ≡ map spec.path_of contexts.items) }
    ensures frames { IfOk result (λ p. map spec.frame_of p.applications.items ≡ spec.frames_from 0 contexts.items) }
    ensures empty { IfOk result (λ p. All spec.IsEmpty p.applications.items) }
{
    let paths = paths_of(alloc, contexts.as_slice())?;
    let mut applications = Vec::new(alloc);
    for context in contexts {
        let place = applications.len();
        applications.push(prepare_one(alloc, place, context)?)?;
    }
    Ok(Prepared {
        paths,
        applications,
    })
}
