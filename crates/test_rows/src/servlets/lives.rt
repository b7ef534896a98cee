//! The life of boxed servlets. `lives` has no parts.

ghost use Rattle.std.specs.Prelude.{◌≡◌, IfOk};
ghost use Rattle.sv_servlet.specs.Reply.{cleared};
ghost use Rattle.sv_servlet.specs.Servlet.{answer, lent};
ghost use Rattle.sv_servlet.specs.declared.servlet.Next.TheVariants.{Done};
ghost use Rattle.sv_servlet.specs.declared.servlet.Phase.TheVariants.{New, Ready};

use super::{call_of, fresh_edit, reply_text, written};
use crate::fault::RowFault;
use crate::listed::push_listed;
use http::Method;
use std::alloc::{AllocError, Global};
use std::cell::RefCell;
use std::rc::Rc;
use sv_servlet::{Call, InitFault, Next, Phase, Reply, RequestAttributes, Servlet};
use sv_session::SessionEdit;

/// What a servlet lives through.
type Notes = Rc<RefCell<Vec<u8>>>;

const INIT: u8 = b'i';

const SERVICE: u8 = b's';

const DESTROY: u8 = b'd';

const DROP: u8 = b'-';

/// A servlet that notes its number and what it lives through, and answers with an empty body.
struct Noting {
    number: u8,
    notes: Notes,
    phase: Phase,
}

impl Noting {
    fn note(&self, what: u8) {
        if let Ok(mut notes) = self.notes.try_borrow_mut() {
            let _ = notes.extend_from_slice(&[self.number, what]);
        }
    }
}

impl Drop for Noting {
    fn drop(self) {
        self.note(DROP);
        let Noting {
            number: _,
            notes: _,
            phase: _,
        } = self;
    }
}

impl Servlet for Noting {
    ghost serves = { λ _ _ l. answer (lent l.edit (cleared l.reply)) Done };

    ghost servlet_phase = { λ s. s.phase };

    fn init(&mut self) -> Result<(), InitFault> {
        self.note(INIT);
        self.phase = Phase::Ready;
        Ok(())
    }

    fn service(
        &mut self,
        _call: &Call<'_>,
        _edit: &mut SessionEdit,
        reply: &mut Reply,
    ) -> Result<Next, AllocError> {
        self.note(SERVICE);
        reply.clear_body();
        Ok(Next::Done)
    }

    fn destroy(&mut self) {
        self.note(DESTROY);
        self.phase = Phase::Destroyed;
    }
}

fn is_done(next: Next) -> bool {
    matches!(&next, Next::Done)
}

/// Asks a servlet through the bound; whether it is done then.
fn ask<S: Servlet>(
    alloc: Global,
    servlet: &mut S,
    edit: &mut SessionEdit,
    reply: &mut Reply,
) -> Result<bool, AllocError>
    requires { S.servlet_phase servlet.old ≡ Ready }
    ensures { S.servlet_phase servlet.new ≡ Ready }
{
    let method = Method::GET;
    let attributes = RequestAttributes::new(alloc);
    let call = call_of(&method, None, &attributes);
    Ok(is_done(servlet.service(&call, edit, reply)?))
}

/// Whether a request is done, how many events are told of its session, and the reply.
fn answer_text(
    alloc: Global,
    is_done: bool,
    edit: SessionEdit,
    reply: Reply,
) -> Result<String, AllocError> {
    let events = edit.finish().events.len();
    let text = reply_text(alloc, reply)?;
    format!(in alloc; "done {is_done}, events {events}, {text}")
}

/// What comes of one request, with a reply that has a status and a body so far.
fn answered<S: Servlet>(
    alloc: Global,
    servlet: &mut S,
    mut reply: Reply,
) -> Result<String, AllocError>
    requires { S.servlet_phase servlet.old ≡ Ready }
    ensures { S.servlet_phase servlet.new ≡ Ready }
{
    let mut edit = fresh_edit(alloc);
    let is_done = ask(alloc, servlet, &mut edit, &mut reply)?;
    answer_text(alloc, is_done, edit, reply)
}

/// Serves one request.
fn serve<S: Servlet>(alloc: Global, servlet: &mut S, list: &mut String) -> Result<(), RowFault>
    requires { S.servlet_phase servlet.old ≡ Ready }
    ensures { S.servlet_phase servlet.new ≡ Ready }
{
    let text = answered(alloc, servlet, written(alloc)?)?;
    push_listed(list, &text)?;
    Ok(())
}

/// Two servlets are initialised, serve in turn, and are destroyed.
fn live<S: Servlet>(
    alloc: Global,
    first: &mut S,
    second: &mut S,
    list: &mut String,
) -> Result<(), RowFault>
    requires first { S.servlet_phase first.old ≡ New }
    requires second { S.servlet_phase second.old ≡ New }
{
    first.init()?;
    second.init()?;
    serve(alloc, second, list)?;
    serve(alloc, first, list)?;
    serve(alloc, second, list)?;
    second.destroy();
    first.destroy();
    Ok(())
}

/// A new servlet of a number.
fn new_noting(number: u8, notes: &Notes) -> Result<Noting, RowFault>
    ensures { IfOk result (λ servlet. servlet.phase ≡ New) }
{
    match notes.clone() {
        Ok(notes) => Ok(Noting {
            number,
            notes,
            phase: Phase::New,
        }),
        Err(_) => Err(RowFault::Call),
    }
}

/// Two servlets live in boxes, and the first one is dropped first.
fn lived(alloc: Global, notes: &Notes, list: &mut String) -> Result<(), RowFault> {
    let mut first: Box<dyn Servlet> = Box::new(alloc, new_noting(b'1', notes)?)?;
    let mut second: Box<dyn Servlet> = Box::new(alloc, new_noting(b'2', notes)?)?;
    live(alloc, &mut first, &mut second, list)?;
    drop(first);
    drop(second);
    Ok(())
}

/// After what was answered, what was noted.
fn noted(alloc: Global, text: &str, notes: &Notes) -> Result<String, RowFault> {
    match notes.try_borrow() {
        Ok(notes) => {
            let noted = str::from_utf8(notes.as_slice()).unwrap_or("?");
            Ok(format!(in alloc; "{text}; {noted}")?)
        }
        Err(_) => Err(RowFault::Call),
    }
}

/// A servlet is initialised once, serves any number of requests and is destroyed once (Jakarta Servlet 6.0,
/// section "Servlet Life Cycle"), and each call reaches the object in the box.
pub fn lives(alloc: Global) -> Result<String, RowFault> {
    let notes: Notes = Rc::new(alloc, RefCell::new(Vec::new(alloc)))?;
    let mut list = String::new(alloc);
    lived(alloc, &notes, &mut list)?;
    noted(alloc, &list, &notes)
}
