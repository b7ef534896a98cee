//! What an application answers to a request: the dispatch, and the response that comes of it.

ghost use Rattle.std.specs.Prelude.{◌≡◌, IfOk, IsTrue, None, Some, false, is_some, option_map, true};
ghost use Rattle.sv_dispatch.specs.Pages.{joined_path, ran, served as served_by_table};
ghost use Rattle.sv_dispatch.specs.MappedPath.{mapped_path_of};
ghost use Rattle.sv_dispatch.specs.Stages.{lent_of};
ghost use Rattle.sv_container.specs.Application.{IsSoundApp, app_of};
ghost use Rattle.sv_container.specs.Recalling.{refused as refused_page};
ghost use Rattle.sv_container.specs.Serving.{Recalls, answered, answered_by, asked, plain_parts, remembering_with, replied, served_apart, served_by, served_in, unserved};
ghost use Rattle.sv_container.specs.SetCookie.{is_sendable};
ghost use Rattle.sv_container.specs.declared.recall.Refusal.TheVariants.{Full};
ghost use Rattle.sv_session.specs.Edit.{begun, fate_of};
ghost use Rattle.sv_container.specs.Admission as spec;
ghost use Rattle.sv_target.specs.SessionCookie.{session_cookie};

use crate::admission::{Admission, Arrival, admit};
use crate::application::{Application, idle_edit, idle_reply};
use crate::outcome::{outcome_of, unserved_of};
use crate::recall::{Recall, Refusal, recall_chosen, refused};
use crate::remember::remember_chosen;
use crate::set_cookie::{announced, with_cookie};
use std::alloc::{AllocError, Global};
use std::mem;
use sv_dispatch::{Ended, run_at};
use sv_mapping::Mappings;
use sv_model::{
    EngineFault, Fate, Key, Outcome, Request, Response, Secret, Sequence, Session, is_head,
    plain_page,
};
use sv_servlet::{Call, Filter, Replied, Reply, RequestAttributes, Servlet};
use sv_session::{Edited, SessionEdit};
use sv_target::session_cookie;

/// The servlet of a path within a context, with the servlet path and the path info; without a servlet, as the default one sees them.
fn shown<'a>(patterns: &Mappings, path: &'a str) -> (Option<usize>, &'a str, Option<&'a str>)
    ensures servlet { result.0 ≡ (mapped_path_of patterns.now path.now).servlet }
    ensures servlet_path { result.1.now ≡ (mapped_path_of patterns.now path.now).servlet_path }
    ensures path_info { option_map (λ t. t.now) result.2 ≡ (mapped_path_of patterns.now path.now).path_info }
    ensures whole { joined_path result.1.now (option_map (λ t. t.now) result.2) ≡ path.now }
{
    match patterns.find(path) {
        Some(found) => (
            Some(found.servlet),
            found.servlet_path(path),
            found.path_info(path),
        ),
        None => (None, path, None),
    }
}

/// The reply as the response, or the plain page of its status after its fields.
#[inline(always)]
fn replied(
    alloc: Global,
    request: &Request,
    ended: Ended,
    reply: Reply,
) -> Result<Response, AllocError>
    ensures { IfOk result (λ response. response ≡ replied request.now ended reply) }
{
    let head_only = is_head(&request.method);
    let Replied {
        status,
        fields,
        body,
    } = reply.finish();
    match ended {
        Ended::Normal | Ended::ErrorPage(_) => Ok(Response {
            status,
            fields,
            body,
            head_only,
            close: request.close,
        }),
        Ended::Plain(_) => plain_page(alloc, status, fields, head_only, request.close),
    }
}

/// The fate of a session that stays as it came.
fn fate_of(held: Option<(Key, Session)>) -> Fate
    ensures { result ≡ fate_of held }
{
    match held {
        Some((_, session)) => Fate::Kept(session),
        None => Fate::Untouched,
    }
}

impl<S: Servlet, F: Filter> Application<S, F> {
    /// Dispatches a request for a path within the context.
    #[inline(always)]
    fn dispatch(
        &mut self,
        alloc: Global,
        request: &Request,
        path: &str,
    ) -> Result<Ended, AllocError>
        requires sound { IsSoundApp (app_of S.Servlet F.Filter self.old) }
        requires serving { self.old.is_in_service ≡ true }
        ensures same { app_of S.Servlet F.Filter self.new ≡ app_of S.Servlet F.Filter self.old }
        ensures ran { IfOk result (λ ended. ran ended (lent_of self.new.stage) ≡ served_by_table (app_of S.Servlet F.Filter self.old).table
            (asked (app_of S.Servlet F.Filter self.old) request.now path.now) (lent_of self.old.stage)) }
    {
        let (servlet, servlet_path, path_info) = shown(&self.stage.patterns, path);
        let attributes = RequestAttributes::new(alloc);
        let call = Call {
            method: &request.method,
            request_uri: request.raw_path.as_str(),
            context_path: self.path.as_str(),
            servlet_path,
            path_info,
            query: request.query.as_ref().map(|query| query.as_str()),
            params: request.params.as_slice(),
            fields: request.fields.as_slice(),
            cookies: request.cookies.as_slice(),
            body: request.body.as_slice(),
            settings: self.settings.as_slice(),
            attributes: &attributes,
            resume: 0,
        };
        run_at(alloc, &mut self.stage, call, path, servlet)
    }

    /// The response to a request, and the edit after it; edits stand, whatever follows.
    #[inline(always)]
    #[tactic(auto, unfolding(crate::specs::Serving::answered_by))]
    fn answer(
        &mut self,
        alloc: Global,
        request: &Request,
        path: &str,
        edit: SessionEdit,
    ) -> Result<(Response, SessionEdit), AllocError>
        requires sound { IsSoundApp (app_of S.Servlet F.Filter self.old) }
        requires serving { self.old.is_in_service ≡ true }
        ensures same { app_of S.Servlet F.Filter self.new ≡ app_of S.Servlet F.Filter self.old }
        ensures answer { IfOk result (λ r. answered r.0 r.1 ≡ answered_by (app_of S.Servlet F.Filter self.old) request.now path.now edit) }
    {
        self.stage.edit = edit;
        self.stage.reply = Reply::new(alloc);
        let ended = self.dispatch(alloc, request, path);
        let edit = mem::replace(&mut self.stage.edit, idle_edit(alloc));
        let reply = mem::replace(&mut self.stage.reply, idle_reply(alloc));
        let response = replied(alloc, request, ended?, reply)?;
        Ok((response, edit))
    }

    /// The edit of a request, with the session that is held.
    fn begin(
        &self,
        alloc: Global,
        held: Option<(Key, Session)>,
        now: u64,
        fresh: (Key, Secret),
    ) -> SessionEdit
        ensures { result ≡ begun held self.now.number self.now.interval now fresh }
    {
        SessionEdit::begin(alloc, held, self.number, self.interval, now, fresh)
    }

    /// What comes of a request that was served, with what its edit leaves.
    #[inline(always)]
    fn plain_outcome(
        &self,
        alloc: Global,
        joined: Option<Key>,
        expired: Option<Key>,
        fresh: (Key, Secret),
        response: Response,
        edited: Edited,
    ) -> Result<Outcome, AllocError>
        requires path { IsTrue (is_sendable self.now.path) }
        requires name { IsTrue (is_sendable self.now.cookie.name) }
        ensures { IfOk result (λ o. o ≡ plain_parts (app_of S.Servlet F.Filter self.now) joined expired fresh response edited) }
    {
        let announced = announced(joined, fresh, &edited);
        let response = with_cookie(
            alloc,
            &self.cookie,
            self.number,
            self.path.as_str(),
            announced,
            response,
        )?;
        outcome_of(self.number, expired, response, edited)
    }

    /// What an edit leaves, with what its sessions are to remember, where they remember anything; false where they have no room for that.
    #[inline(always)]
    fn remember(
        &self,
        alloc: Global,
        request: &Request,
        arrival: &Arrival,
        memory: Sequence<u8>,
        key: Key,
        response: &Response,
        edited: &mut Edited,
    ) -> Result<bool, AllocError>
        ensures kept { IfOk result (λ kept. kept ≡ true → remembering_with self.now.once self.now.number request.now arrival.now.is_away
            arrival.now.secret memory key response.now edited.old ≡ Some edited.new) }
        ensures full { IfOk result (λ kept. kept ≡ false → remembering_with self.now.once self.now.number request.now arrival.now.is_away
            arrival.now.secret memory key response.now edited.old ≡ None) }
    {
        match self.once.as_ref() {
            Some(choice) => remember_chosen(
                alloc,
                choice,
                self.number,
                request,
                arrival,
                memory,
                key,
                response,
                edited,
            ),
            None => Ok(true),
        }
    }

    /// Serves a request for a path within the context, with the session that is held, apart from what that remembers.
    #[inline(always)]
    fn serve_new(
        &mut self,
        alloc: Global,
        request: &Request,
        path: &str,
        handed: Option<(Key, &Session)>,
        arrival: Arrival,
        admission: Admission,
        memory: Sequence<u8>,
        now: u64,
        fresh: (Key, Secret),
    ) -> Result<Outcome, AllocError>
        requires sound { IsSoundApp (app_of S.Servlet F.Filter self.old) }
        requires serving { self.old.is_in_service ≡ true }
        ensures same { app_of S.Servlet F.Filter self.new ≡ app_of S.Servlet F.Filter self.old }
        ensures outcome { IfOk result (λ o. o ≡ served_apart (app_of S.Servlet F.Filter self.old) request.now path.now
            arrival admission memory (spec.admission self.old.once self.old.number request.now (session_cookie self.old.cookie.name request.now.cookies self.old.number)
            (option_map (λ s. (s.0, s.1.now)) handed.entry) now) now fresh) }
    {
        let (expired, held) = admission.into_parts();
        let edit = self.begin(alloc, held, now, fresh);
        let (response, edit) = self.answer(alloc, request, path, edit)?;
        let mut edited = edit.finish();
        if self.remember(
            alloc,
            request,
            &arrival,
            memory,
            fresh.0,
            &response,
            &mut edited,
        )? {
            self.plain_outcome(alloc, arrival.joined, expired, fresh, response, edited)
        } else {
            self.unserved_full(alloc, request, handed, now)
        }
    }

    /// What comes of a request that is answered and not served.
    #[inline(never)]
    fn unserved(
        &self,
        alloc: Global,
        admission: Admission,
        response: Response,
    ) -> Result<Outcome, AllocError>
        requires sound { IsSoundApp (app_of S.Servlet F.Filter self.now) }
        requires serving { self.now.is_in_service ≡ true }
        ensures { IfOk result (λ o. o ≡ unserved (app_of S.Servlet F.Filter self.now) admission response) }
    {
        let renamed = admission.renamed();
        let (expired, held) = admission.into_parts();
        let response = with_cookie(
            alloc,
            &self.cookie,
            self.number,
            self.path.as_str(),
            renamed,
            response,
        )?;
        unserved_of(alloc, self.number, expired, response, fate_of(held))
    }

    /// What becomes of the session that is handed in with a request.
    #[inline(always)]
    fn admit(
        &self,
        alloc: Global,
        request: &Request,
        handed: Option<(Key, &Session)>,
        now: u64,
    ) -> Result<Admission, AllocError>
        ensures { IfOk result (λ a. a ≡ spec.admission self.now.once self.now.number request.now (session_cookie self.now.cookie.name request.now.cookies self.now.number)
            (option_map (λ s. (s.0, s.1.now)) handed.entry) now) }
    {
        let named = session_cookie(
            self.cookie.name_bytes(),
            request.cookies.as_slice(),
            self.number,
        );
        admit(
            alloc,
            self.once.as_ref(),
            self.number,
            request,
            named,
            handed,
            now,
        )
    }

    /// What comes of a request whose session has no room for what it is to remember.
    #[inline(never)]
    fn unserved_full(
        &self,
        alloc: Global,
        request: &Request,
        handed: Option<(Key, &Session)>,
        now: u64,
    ) -> Result<Outcome, AllocError>
        requires sound { IsSoundApp (app_of S.Servlet F.Filter self.now) }
        requires serving { self.now.is_in_service ≡ true }
        ensures { IfOk result (λ o. o ≡ unserved (app_of S.Servlet F.Filter self.now)
            (spec.admission self.now.once self.now.number request.now (session_cookie self.now.cookie.name request.now.cookies self.now.number)
            (option_map (λ s. (s.0, s.1.now)) handed.entry) now) (refused_page Full request.now)) }
    {
        let admission = self.admit(alloc, request, handed, now)?;
        let page = refused(alloc, Refusal::Full, request)?;
        self.unserved(alloc, admission, page)
    }

    /// What the session that is held remembers of the request, where sessions remember anything; else that nothing is.
    #[inline(always)]
    #[tactic(auto, unfolding(crate::specs::Recalling::recalled))]
    fn recall(
        &self,
        alloc: Global,
        request: &Request,
        admission: &mut Admission,
    ) -> Result<Recall, AllocError>
        ensures { IfOk result (λ r. Recalls self.now.once request.now admission.old admission.new r) }
    {
        match self.once.as_ref() {
            Some(choice) => recall_chosen(alloc, choice, request, admission),
            None => Ok(Recall::New(Sequence::new(alloc))),
        }
    }

    /// Serves a request for a path within the context, with what became of the session that was handed in, where sessions remember
    /// nothing.
    #[inline(always)]
    fn serve_plain(
        &mut self,
        alloc: Global,
        request: &Request,
        path: &str,
        admission: Admission,
        now: u64,
        fresh: (Key, Secret),
    ) -> Result<Outcome, AllocError>
        requires sound { IsSoundApp (app_of S.Servlet F.Filter self.old) }
        requires serving { self.old.is_in_service ≡ true }
        requires plain { is_some self.old.once ≡ false }
        ensures same { app_of S.Servlet F.Filter self.new ≡ app_of S.Servlet F.Filter self.old }
        ensures outcome { IfOk result (λ o. o ≡ served_in (app_of S.Servlet F.Filter self.old) request.now path.now admission now fresh) }
    {
        let joined = admission.joined();
        let (expired, held) = admission.into_parts();
        let edit = self.begin(alloc, held, now, fresh);
        let (response, edit) = self.answer(alloc, request, path, edit)?;
        let edited = edit.finish();
        self.plain_outcome(alloc, joined, expired, fresh, response, edited)
    }

    /// Serves a request for a path within the context, with what became of the session that was handed in, unless its session remembers
    /// it.
    #[tactic(auto, unfolding(crate::specs::Serving::served_in, crate::specs::Serving::served_new))]
    fn serve_unknown(
        &mut self,
        alloc: Global,
        request: &Request,
        path: &str,
        handed: Option<(Key, &Session)>,
        admission: Admission,
        now: u64,
        fresh: (Key, Secret),
    ) -> Result<Outcome, AllocError>
        requires sound { IsSoundApp (app_of S.Servlet F.Filter self.old) }
        requires serving { self.old.is_in_service ≡ true }
        requires admitted { admission ≡ spec.admission self.old.once self.old.number request.now (session_cookie self.old.cookie.name request.now.cookies self.old.number)
            (option_map (λ s. (s.0, s.1.now)) handed) now }
        ensures same { app_of S.Servlet F.Filter self.new ≡ app_of S.Servlet F.Filter self.old }
        ensures outcome { IfOk result (λ o. o ≡ served_in (app_of S.Servlet F.Filter self.old) request.now path.now admission now fresh) }
    {
        let mut admission = admission;
        let arrival = admission.arrival();
        match self.recall(alloc, request, &mut admission)? {
            Recall::Known(response) => self.unserved(alloc, admission, response),
            Recall::New(memory) => self.serve_new(
                alloc, request, path, handed, arrival, admission, memory, now, fresh,
            ),
        }
    }

    /// Serves a request for a path within the context, with the session that is handed in, where sessions remember what was answered: one
    /// that its session remembers is answered from its memory.
    // Apart, and with the result of the engine's call, so that a request of a context whose sessions remember nothing has no room cleared for what
    // is made here.
    #[inline(never)]
    pub fn serve_once(
        &mut self,
        alloc: Global,
        request: &Request,
        path: &str,
        handed: Option<(Key, &Session)>,
        now: u64,
        fresh: (Key, Secret),
    ) -> Result<Outcome, EngineFault>
        requires sound { IsSoundApp (app_of S.Servlet F.Filter self.old) }
        requires serving { self.old.is_in_service ≡ true }
        ensures same { app_of S.Servlet F.Filter self.new ≡ app_of S.Servlet F.Filter self.old }
        ensures outcome { IfOk result (λ o. o ≡ served_by (Some (app_of S.Servlet F.Filter self.old)) request.now path.now
            (option_map (λ s. (s.0, s.1.now)) handed.entry) now fresh) }
    {
        let admission = self.admit(alloc, request, handed, now)?;
        Ok(self.serve_unknown(alloc, request, path, handed, admission, now, fresh)?)
    }

    /// The same where sessions remember nothing.
    pub fn serve(
        &mut self,
        alloc: Global,
        request: &Request,
        path: &str,
        handed: Option<(Key, &Session)>,
        now: u64,
        fresh: (Key, Secret),
    ) -> Result<Outcome, AllocError>
        requires sound { IsSoundApp (app_of S.Servlet F.Filter self.old) }
        requires serving { self.old.is_in_service ≡ true }
        requires plain { is_some self.old.once ≡ false }
        ensures same { app_of S.Servlet F.Filter self.new ≡ app_of S.Servlet F.Filter self.old }
        ensures outcome { IfOk result (λ o. o ≡ served_by (Some (app_of S.Servlet F.Filter self.old)) request.now path.now
            (option_map (λ s. (s.0, s.1.now)) handed.entry) now fresh) }
    {
        let admission = self.admit(alloc, request, handed, now)?;
        self.serve_plain(alloc, request, path, admission, now, fresh)
    }
}
