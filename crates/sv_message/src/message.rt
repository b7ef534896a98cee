//! The message at the front of a stream.

ghost use Rattle.std.specs.Prelude.{◌≡◌, None, Some, IfErr, OnErr, OnOk, box_value, option_map};
ghost use Rattle.sv_message.specs.declared.fault.ReadFault.TheVariants.{Memory as MemoryFault};
ghost use Rattle.sv_message.specs.Found.{FindsMessage};
ghost use Rattle.sv_message.specs.Partial.{IsPartial, Stands};
ghost use Rattle.sv_message.specs.Steps as steps;

use crate::body::{Part, Partial, read_body};
use crate::fault::ReadFault;
use crate::framing::{Framing, framing_of};
use crate::head::{Head, read_head};
use crate::persistence::closes;
use crate::request::RawRequest;
use std::alloc::Global;
use sv_model::Sequence;

/// A message that was read.
#[derive(Drop)]
pub struct Message {
    pub request: RawRequest,
    /// The bytes of the message.
    pub len: usize,
}

/// What comes first of a body.
fn first_part(framing: Framing) -> Part
    ensures { result ≡ steps.first_part framing }
{
    match framing {
        Framing::Declared(count) => Part::Missing(count),
        Framing::Chunked => Part::Line,
    }
}

/// The request of a head, with nothing of its body.
fn headed(alloc: Global, head: Head, framing: Framing) -> Partial
    ensures { result ≡ steps.headed head framing }
{
    let close = closes(head.minor, head.fields.as_slice());
    let Head {
        len,
        method,
        target,
        minor: _,
        fields,
    } = head;
    let request = RawRequest {
        method,
        target,
        fields,
        body: Sequence::new(alloc),
        close,
    };
    Partial {
        request,
        part: first_part(framing),
        at: len,
    }
}

/// Reads the head at the front of a stream; none where more bytes can make one.
fn begin(alloc: Global, rest: &[u8]) -> Result<Option<Partial>, ReadFault>
    ensures { steps.HasStarted rest.now result }
{
    match read_head(alloc, rest)? {
        None => Ok(None),
        Some(head) => {
            let framing = framing_of(head.minor, head.fields.as_slice())?;
            Ok(Some(headed(alloc, head, framing)))
        }
    }
}

/// A request that was read to its end.
fn given(partial: Partial) -> Message
    ensures { result ≡ steps.message_of partial }
{
    let Partial {
        request,
        part: _,
        at,
    } = partial;
    Message { request, len: at }
}

/// Keeps a request in hand, apart, so that who reads one after another whole moves no room for it.
#[inline(never)]
fn keep(
    alloc: Global,
    in_hand: &mut Option<Box<Partial>>,
    partial: Partial,
) -> Result<(), ReadFault>
    requires { in_hand.old ≡ None }
    ensures ok { OnOk result (option_map box_value in_hand.new ≡ Some partial) }
    ensures err { OnErr result (in_hand.new ≡ None) }
    ensures fault { IfErr result (λ fault. fault ≡ MemoryFault) }
{
    *in_hand = Some(Box::new(alloc, partial)?);
    Ok(())
}

/// Reads the body of a request whose head was read.
fn start(
    alloc: Global,
    in_hand: &mut Option<Box<Partial>>,
    begun: Partial,
    rest: &[u8],
) -> Result<Option<Message>, ReadFault>
    requires none { in_hand.old ≡ None }
    requires begun { IsPartial rest.now begun }
    ensures finds { FindsMessage rest.now result }
    ensures leaves { steps.Leaves rest.now (option_map box_value in_hand.new) result }
{
    let mut partial = begun;
    if read_body(&mut partial, rest)? {
        return Ok(Some(given(partial)));
    }
    keep(alloc, in_hand, partial)?;
    Ok(None)
}

/// Reads on in the body of the request in hand.
#[inline(never)]
fn go_on(
    in_hand: &mut Option<Box<Partial>>,
    begun: Box<Partial>,
    rest: &[u8],
) -> Result<Option<Message>, ReadFault>
    requires none { in_hand.old ≡ None }
    requires begun { IsPartial rest.now begun.value }
    ensures finds { FindsMessage rest.now result }
    ensures leaves { steps.Leaves rest.now (option_map box_value in_hand.new) result }
    ensures resumes { steps.Resumes (Some begun.value) (option_map box_value in_hand.new) result }
{
    let mut partial = begun;
    match read_body(&mut partial, rest) {
        Ok(true) => Ok(Some(given(Box::into_inner(partial)))),
        Ok(false) => {
            *in_hand = Some(partial);
            Ok(None)
        }
        Err(fault) => {
            *in_hand = Some(partial);
            Err(fault)
        }
    }
}

/// Reads the message at the front of a stream, from where the request in hand was left; none where more bytes can make
/// one.
pub(crate) fn read_message(
    alloc: Global,
    in_hand: &mut Option<Box<Partial>>,
    rest: &[u8],
) -> Result<Option<Message>, ReadFault>
    requires { Stands rest.now (option_map box_value in_hand.old) }
    ensures finds { FindsMessage rest.now result }
    ensures leaves { steps.Leaves rest.now (option_map box_value in_hand.new) result }
    ensures resumes { steps.Resumes (option_map box_value in_hand.old) (option_map box_value in_hand.new) result }
{
    match in_hand.take() {
        Some(partial) => go_on(in_hand, partial, rest),
        None => match begin(alloc, rest)? {
            Some(partial) => start(alloc, in_hand, partial, rest),
            None => Ok(None),
        },
    }
}
