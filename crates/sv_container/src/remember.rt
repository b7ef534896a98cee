//! What a session remembers after a request that was served.

ghost use Rattle.std.specs.Prelude.{◌≡◌, ◌≤◌, [], IfOk, None, Some, false, length, true};
ghost use Rattle.sv_once.specs.Entries.{IsSmall};
ghost use Rattle.sv_container.specs.Recalling as spec;
ghost use Rattle.sv_container.specs.Serving as serving;

use crate::admission::Arrival;
use crate::outcome::told;
use std::alloc::{AllocError, Global};
use std::mem;
use sv_model::{Birth, Event, Fate, Key, Request, Response, Secret, Sequence, Session};
use sv_once::{Choice, Entry, Memory, is_key, is_safe, kept_answer, mark_of, with_memory};
use sv_session::Edited;

/// A new session that takes no turned-away one's place has ended where `ends`.
fn settled_birth(context: u8, key: Key, ends: bool, edited: Edited) -> Result<Edited, AllocError>
    ensures { IfOk result (λ e. e ≡ serving.settled_birth context key ends edited) }
{
    let mut edited = edited;
    let is_alive = matches!(&edited.birth, Birth::Alive(_));
    if ends && is_alive {
        edited.events.push(told(context, Event::Destroyed(key)))?;
        edited.birth = Birth::Ended;
    }
    Ok(edited)
}

/// The secret by which a request named the session, where it gave it another one.
fn old_secret(id_changed: bool, secret: &Option<Secret>) -> &[u8]
    ensures old { result.now ≡ spec.old_secret id_changed secret.now }
    ensures short { length result.now ≤ 16 }
{
    match secret {
        Some(secret) if id_changed => &secret.0[..],
        _ => &[],
    }
}

fn copied(alloc: Global, bytes: &[u8]) -> Result<Sequence<u8>, AllocError>
    ensures { IfOk result (λ copy. copy ≡ bytes.now) }
{
    Ok(Sequence::from_vec(Vec::from_slice(alloc, bytes)?))
}

/// A request of a key that was served, with its answer.
fn entry_for(
    alloc: Global,
    request: &Request,
    key: &[u8],
    old: &[u8],
    response: &Response,
) -> Result<Entry, AllocError>
    ensures { IfOk result (λ entry. entry ≡ spec.entry_for request.now key.now old.now response.now) }
{
    Ok(Entry {
        key: copied(alloc, key)?,
        mark: mark_of(alloc, request)?,
        old: copied(alloc, old)?,
        answer: kept_answer(alloc, response)?,
    })
}

/// The memory with one answer more.
fn with_answer(
    alloc: Global,
    choice: &Choice,
    entry: Entry,
    memory: &[u8],
) -> Result<Sequence<u8>, AllocError>
    requires { IsSmall entry }
    ensures { IfOk result (λ m. m ≡ spec.memory_with choice.now entry memory.now) }
{
    let mut memory = Memory::read(alloc, memory)?;
    memory.remember(choice.answers, entry)?;
    memory.write(alloc)
}

/// What is remembered after a request that was served: of one that has a key its answer too.
#[tactic(auto, unfolding(crate::specs::Recalling::next_memory))]
fn next_memory(
    alloc: Global,
    choice: &Choice,
    request: &Request,
    old: &[u8],
    response: &Response,
    memory: Sequence<u8>,
) -> Result<Sequence<u8>, AllocError>
    requires { length old.now ≤ 16 }
    ensures { IfOk result (λ m. m ≡ spec.next_memory choice.now request.now old.now response.now memory) }
{
    match choice.key_of(request) {
        Some(key) if is_key(key) => {
            let entry = entry_for(alloc, request, key, old, response)?;
            with_answer(alloc, choice, entry, memory.as_slice())
        }
        _ => Ok(memory),
    }
}

/// A session that is kept, with what it is to remember; none where it has no room for that.
fn fate_with(
    alloc: Global,
    choice: &Choice,
    request: &Request,
    old: &[u8],
    response: &Response,
    memory: Sequence<u8>,
    fate: Fate,
) -> Result<Option<Fate>, AllocError>
    requires { length old.now ≤ 16 }
    ensures { IfOk result (λ f. f ≡ serving.fate_with (spec.next_memory choice.now request.now old.now response.now memory) fate) }
{
    match fate {
        Fate::Kept(session) => {
            let memory = next_memory(alloc, choice, request, old, response, memory)?;
            Ok(with_memory(alloc, session, memory)?.map(Fate::Kept))
        }
        fate => Ok(Some(fate)),
    }
}

/// A session that was made, with what it is to remember; none where it has no room for that.
fn birth_with(
    alloc: Global,
    choice: &Choice,
    request: &Request,
    old: &[u8],
    response: &Response,
    birth: Birth,
) -> Result<Option<Birth>, AllocError>
    requires { length old.now ≤ 16 }
    ensures { IfOk result (λ b. b ≡ serving.birth_with (spec.next_memory choice.now request.now old.now response.now []) birth) }
{
    match birth {
        Birth::Alive(session) => {
            let memory = Sequence::new(alloc);
            let memory = next_memory(alloc, choice, request, old, response, memory)?;
            Ok(with_memory(alloc, session, memory)?.map(Birth::Alive))
        }
        birth => Ok(Some(birth)),
    }
}

/// What an edit leaves, with what its sessions are to remember; none where they have no room for that.
fn edited_with(
    alloc: Global,
    choice: &Choice,
    request: &Request,
    old: &[u8],
    response: &Response,
    memory: Sequence<u8>,
    edited: Edited,
) -> Result<Option<Edited>, AllocError>
    requires { length old.now ≤ 16 }
    ensures { IfOk result (λ e. e ≡ serving.remembering_by choice.now request.now old.now response.now memory edited) }
{
    let Edited {
        fate,
        birth,
        id_changed,
        events,
    } = edited;
    let Some(fate) = fate_with(alloc, choice, request, old, response, memory, fate)? else {
        return Ok(None);
    };
    let Some(birth) = birth_with(alloc, choice, request, old, response, birth)? else {
        return Ok(None);
    };
    Ok(Some(Edited {
        fate,
        birth,
        id_changed,
        events,
    }))
}

/// What an edit leaves, as it is kept: with what its sessions are to remember, and without a session that was made in the place of
/// one that was turned away by a request that is to change nothing. None where there is no room.
fn remembering(
    alloc: Global,
    choice: &Choice,
    context: u8,
    request: &Request,
    arrival: &Arrival,
    memory: Sequence<u8>,
    key: Key,
    response: &Response,
    edited: Edited,
) -> Result<Option<Edited>, AllocError>
    ensures { IfOk result (λ e. e ≡ serving.remembering_with (Some choice.now) context request.now arrival.now.is_away arrival.now.secret memory key
        response.now edited) }
{
    let ends = arrival.is_away && is_safe(request.method.as_str());
    let edited = settled_birth(context, key, ends, edited)?;
    let old = old_secret(edited.id_changed, &arrival.secret);
    edited_with(alloc, choice, request, old, response, memory, edited)
}

/// The same in place; false where there is no room.
// Apart, so that a request of a context whose sessions remember nothing has no room cleared for what is made here.
#[inline(never)]
pub fn remember_chosen(
    alloc: Global,
    choice: &Choice,
    context: u8,
    request: &Request,
    arrival: &Arrival,
    memory: Sequence<u8>,
    key: Key,
    response: &Response,
    edited: &mut Edited,
) -> Result<bool, AllocError>
    ensures kept { IfOk result (λ kept. kept ≡ true → serving.remembering_with (Some choice.now) context request.now arrival.now.is_away
        arrival.now.secret memory key response.now edited.old ≡ Some edited.new) }
    ensures full { IfOk result (λ kept. kept ≡ false → serving.remembering_with (Some choice.now) context request.now arrival.now.is_away
        arrival.now.secret memory key response.now edited.old ≡ None) }
{
    let plain = mem::replace(edited, nothing(alloc));
    let kept = remembering(
        alloc, choice, context, request, arrival, memory, key, response, plain,
    )?;
    match kept {
        Some(kept) => {
            *edited = kept;
            Ok(true)
        }
        None => Ok(false),
    }
}

/// What an edit leaves that did nothing.
fn nothing(alloc: Global) -> Edited {
    Edited {
        fate: Fate::Untouched,
        birth: Birth::Absent,
        id_changed: false,
        events: Sequence::new(alloc),
    }
}
