//! A web application: the objects of a context, and what leads to them.

ghost use Rattle.std.specs.Prelude.{◌≡◌, length};
ghost use Rattle.std.specs.List.{list_all};
ghost use Rattle.sv_container.specs.Application.{can_serve, names_filter};
ghost use Rattle.sv_container.specs.SetCookie.{is_sendable};

use crate::set_cookie::SessionCookie;
use std::alloc::Global;
use sv_dispatch::{Hosted, Stage};
use sv_mapping::FilterMapping;
use sv_model::{Key, Secret, Sequence, Text};
use sv_once::Choice;
use sv_servlet::{Reply, Setting};
use sv_session::SessionEdit;

/// A web application.
#[derive(Drop)]
pub struct Application<S, F> {
    /// The number of its context in sessions, their cookies and events.
    pub number: u8,
    /// The context path, empty for the context at the root.
    pub path: Text,
    /// The cookie that names its sessions.
    pub cookie: SessionCookie,
    /// The seconds after which a session that is made expires; 0 and less never.
    pub interval: i32,
    /// Its requests are served; those of an application out of service are for nobody.
    pub is_in_service: bool,
    /// What its sessions remember of requests that may be sent again; none where they remember nothing.
    pub once: Option<Choice>,
    /// The initialization parameters of its context.
    pub settings: Sequence<Setting>,
    /// Its objects with what leads to them. Between requests the edit and the reply are nobody's.
    pub stage: Stage<S, F>,
}

/// The edit of no request.
pub fn idle_edit(alloc: Global) -> SessionEdit {
    SessionEdit::begin(
        alloc,
        None,
        0,
        0,
        0,
        (Key { home: 0, serial: 0 }, Secret([0; 16])),
    )
}

/// The reply to no request.
pub fn idle_reply(alloc: Global) -> Reply {
    Reply::new(alloc)
}

/// The text can stand in the value of a field.
fn is_sendable(path: &str) -> bool
    ensures { result ≡ is_sendable path.now }
{
    path.as_bytes()
        .iter()
        .all(|byte| 32 <= *byte && *byte != 127)
}

/// No object has failed.
fn are_ready<O>(all: &[Hosted<O>]) -> bool
    ensures { result ≡ list_all (λ h. h.is_ready) all.now }
{
    all.iter().all(|hosted| hosted.is_ready)
}

/// Each mapping names one of so many filters.
fn name_filters(mappings: &[FilterMapping], count: usize) -> bool
    ensures { result ≡ list_all (names_filter count) mappings.now }
{
    mappings.iter().all(|mapping| mapping.filter < count)
}

impl<S, F> Application<S, F> {
    /// Its requests can be served.
    #[tactic(auto, unfolding(crate::specs::Application::can_serve))]
    pub fn can_serve(&self) -> bool
        ensures { result ≡ can_serve self.now.number self.now.path self.now.cookie.name (list_all (λ h.
            h.is_ready) self.now.stage.filters.items) (length self.now.stage.filters.items) self.now.stage.chains.items }
    {
        self.number < 16
            && (is_sendable(self.path.as_str())
                && (is_sendable(self.cookie.name.as_str())
                    && (are_ready(self.stage.filters.as_slice())
                        && name_filters(self.stage.chains.as_slice(), self.stage.filters.len()))))
    }
}
