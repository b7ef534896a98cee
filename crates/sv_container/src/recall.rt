//! What is answered from a session's memory to a request that is sent again (the IETF's draft "The Idempotency-Key HTTP Header
//! Field").

ghost use Rattle.std.specs.Prelude.{◌≡◌, IfOk, Some, option_map};
ghost use Rattle.std.specs.Str.{bytes_eq};
ghost use Rattle.sv_once.specs.Answer.{answer_in};
ghost use Rattle.sv_once.specs.Asked.{mark_of as asked_mark};
ghost use Rattle.sv_container.specs.Recalling as spec;
ghost use Rattle.sv_container.specs.Serving.{Recalls};

use crate::admission::Admission;
use http::StatusCode;
use std::alloc::{AllocError, Global};
use std::mem;
use sv_model::{Key, Request, Response, Secret, Sequence, Session, is_head, plain_page};
use sv_once::{Choice, Entry, Memory, is_key, mark_of, memory_of, response_in};

/// Why a request that has a key is not served.
#[derive(Clone, Copy, Debug, PartialEq, Eq)]
pub enum Refusal {
    /// The key has no byte, or more than 64.
    BadKey,
    /// The key came with another request before.
    Reused,
    /// The request was served before, and its answer was too long to be kept.
    Gone,
    /// The session has no room for what it is to remember.
    Full,
}

impl Refusal {
    fn status(self) -> StatusCode
        ensures { result ≡ spec.status_of self }
    {
        match self {
            Refusal::BadKey => StatusCode::BAD_REQUEST,
            Refusal::Reused => StatusCode::UNPROCESSABLE_ENTITY,
            Refusal::Gone => StatusCode::CONFLICT,
            Refusal::Full => StatusCode::INTERNAL_SERVER_ERROR,
        }
    }

    fn text(self) -> &'static str
        ensures { result.now ≡ spec.text_of self }
    {
        match self {
            Refusal::BadKey => "The key of a request has 1 to 64 bytes.\n",
            Refusal::Reused => "The key of this request came with another request before.\n",
            Refusal::Gone => {
                "This request was done before. Its answer had more than 2048 bytes and was not kept, so it is not shown again.\n"
            }
            Refusal::Full => {
                "The session has no room to remember this request, so nothing was done.\n"
            }
        }
    }
}

/// The plain page of a refusal.
pub fn refused(alloc: Global, refusal: Refusal, request: &Request) -> Result<Response, AllocError>
    ensures { IfOk result (λ page. page ≡ spec.refused refusal request.now) }
{
    let head_only = is_head(&request.method);
    let mut page = plain_page(
        alloc,
        refusal.status(),
        Sequence::new(alloc),
        head_only,
        request.close,
    )?;
    page.body.extend_from_slice(refusal.text().as_bytes())?;
    Ok(page)
}

/// The answer that an entry keeps, or that it keeps none.
fn repeated(alloc: Global, request: &Request, answer: &[u8]) -> Result<Response, AllocError>
    ensures { IfOk result (λ r. r ≡ spec.repeated request.now (answer_in answer.now)) }
{
    match response_in(alloc, request, answer)? {
        Some(response) => Ok(response),
        None => refused(alloc, Refusal::Gone, request),
    }
}

/// The entry is that of this request.
fn is_same_ask(alloc: Global, request: &Request, entry: &Entry) -> Result<bool, AllocError>
    ensures { IfOk result (λ same. same ≡ bytes_eq entry.now.mark (asked_mark request.now)) }
{
    let mark = mark_of(alloc, request)?;
    Ok(entry.mark.as_slice() == mark.as_slice())
}

/// What is answered to a request of a key that an entry has.
fn told_again(alloc: Global, request: &Request, entry: &Entry) -> Result<Response, AllocError>
    ensures { IfOk result (λ r. Some r ≡ spec.told_again request.now (Some entry.now)) }
{
    if is_same_ask(alloc, request, entry)? {
        repeated(alloc, request, entry.answer.as_slice())
    } else {
        refused(alloc, Refusal::Reused, request)
    }
}

/// What is answered to a request of a key, if that is known.
fn recalled_key(
    alloc: Global,
    request: &Request,
    memory: &[u8],
    key: &[u8],
) -> Result<Option<Response>, AllocError>
    ensures { IfOk result (λ r. r ≡ spec.recalled_by request.now memory.now (Some key.now)) }
{
    if !is_key(key) {
        return Ok(Some(refused(alloc, Refusal::BadKey, request)?));
    }
    let memory = Memory::read(alloc, memory)?;
    match memory.known(key) {
        Some(entry) => Ok(Some(told_again(alloc, request, entry)?)),
        None => Ok(None),
    }
}

/// What is answered to a request that is not served, with the session that is held.
#[tactic(auto, unfolding(crate::specs::Recalling::recalled))]
fn recalled(
    alloc: Global,
    choice: &Choice,
    request: &Request,
    held: Option<(Key, &Session)>,
) -> Result<Option<Response>, AllocError>
    ensures { IfOk result (λ r. r ≡ spec.recalled (Some choice.now) request.now (option_map (λ h. (h.0, h.1.now)) held.entry)) }
{
    match choice.key_of(request) {
        Some(key) => recalled_key(alloc, request, held_memory(held), key),
        None => Ok(None),
    }
}

/// What a session remembers of a request.
#[derive(Drop)]
pub enum Recall {
    /// It was answered before, and is answered so again.
    Known(Response),
    /// It wasn't; with all that the session remembers, which is taken out of it while the request is served.
    New(Sequence<u8>),
}

/// What the session that is held remembers of the request.
// Apart, so that a request of a context whose sessions remember nothing has no room cleared for what is made here.
#[inline(never)]
pub fn recall_chosen(
    alloc: Global,
    choice: &Choice,
    request: &Request,
    admission: &mut Admission,
) -> Result<Recall, AllocError>
    ensures { IfOk result (λ r. Recalls (Some choice.now) request.now admission.old admission.new r) }
{
    if let Some(response) = recalled(alloc, choice, request, admission.held())? {
        return Ok(Recall::Known(response));
    }
    let (bare, memory) = mem::replace(admission, Admission::Without).into_bare(alloc);
    *admission = bare;
    Ok(Recall::New(memory))
}

/// What the session that is held remembers.
fn held_memory(held: Option<(Key, &Session)>) -> &[u8]
    ensures { result.now ≡ spec.held_memory (option_map (λ h. (h.0, h.1.now)) held.entry) }
{
    match held {
        Some((_, session)) => memory_of(session),
        None => &[],
    }
}

/// The key is known, and its request named the session by this secret and asked the same.
fn is_known_repeat(
    alloc: Global,
    request: &Request,
    secret: Secret,
    memory: &[u8],
    key: &[u8],
) -> Result<bool, AllocError>
    ensures { IfOk result (λ is. is ≡ spec.is_known_repeat request.now secret memory.now (Some key.now)) }
{
    if !is_key(key) {
        return Ok(false);
    }
    let memory = Memory::read(alloc, memory)?;
    match memory.known(key) {
        Some(entry) if entry.old.as_slice() == &secret.0[..] => is_same_ask(alloc, request, entry),
        _ => Ok(false),
    }
}

/// A request by which the session was given another secret comes again, and names the one from before.
#[tactic(auto, unfolding(crate::specs::Recalling::is_returning))]
pub fn is_returning(
    alloc: Global,
    choice: &Choice,
    context: u8,
    request: &Request,
    named: Option<(Key, Secret)>,
    session: &Session,
    now: u64,
) -> Result<bool, AllocError>
    ensures { IfOk result (λ is. is ≡ spec.is_returning choice.now context request.now named session.now now) }
{
    let Some((_, secret)) = named else {
        return Ok(false);
    };
    if session.context != context || session.is_expired(now) {
        return Ok(false);
    }
    match choice.key_of(request) {
        Some(key) => is_known_repeat(alloc, request, secret, memory_of(session), key),
        None => Ok(false),
    }
}
