//! A servlet and a filter that do as a row of a table says.

ghost use Rattle.std.specs.Prelude.{◌≡◌, IfOk, OnOk, Ok};
ghost use Rattle.sv_servlet.specs.Filter.{verdict};
ghost use Rattle.sv_servlet.specs.Reply.{status_result, write_result};
ghost use Rattle.sv_servlet.specs.Servlet.{answer, lent};
ghost use Rattle.test_rows.specs.Scripted as spec;

use std::alloc::{AllocError, Global};
use sv_model::Text;
use sv_servlet::{Before, Call, Filter, InitFault, Next, Phase, Reply, Servlet};
use sv_session::SessionEdit;

/// What is written.
#[derive(Drop, Clone, Copy)]
pub enum Says {
    Text(&'static str),
    /// The value of an attribute of the request, or `-`.
    Attribute(&'static str),
    Uri,
}

/// What is to follow.
#[derive(Drop, Clone, Copy)]
pub enum Then {
    Ends,
    Forwards(&'static str),
    /// It is resumed with 7.
    Includes(&'static str),
    Fails(u16),
    Faults(&'static str),
    /// A filter passes, and the request has the attribute `member` with this value; a servlet ends.
    Carries(&'static str),
}

/// Sets a status, writes a text, and gives what is to follow; where it is resumed, writes `7]` if it
/// is so with 7, else `]`, and ends.
#[derive(Drop)]
pub struct Scripted {
    pub status: u16,
    pub says: Says,
    pub then: Then,
    pub phase: Phase,
    pub calls: u64,
    pub alloc: Global,
}

/// Sets the status.
fn set(reply: &mut Reply, status: u16) -> Result<(), AllocError>
    ensures { OnOk result (status_result reply.old status ≡ Ok reply.new) }
{
    match reply.status(status) {
        Ok(()) => Ok(()),
        Err(_) => Err(AllocError),
    }
}

/// Writes a text.
fn write(reply: &mut Reply, text: &str) -> Result<(), AllocError>
    ensures { OnOk result (write_result reply.old text.now ≡ Ok reply.new) }
{
    match reply.write(text.as_bytes()) {
        Ok(()) => Ok(()),
        Err(_) => Err(AllocError),
    }
}

/// What is written of a call.
fn said<'a>(says: Says, call: &'a Call<'_>) -> &'a str
    ensures { result.now ≡ spec.said says call.now }
{
    match says {
        Says::Text(text) => text,
        Says::Attribute(name) => {
            let attributes = call.attributes;
            match attributes.get(name) {
                Some(value) => value,
                None => "-",
            }
        }
        Says::Uri => call.request_uri,
    }
}

/// What is written where the servlet is resumed.
fn resumed(number: u16) -> &'static str
    ensures { result.now ≡ spec.resumed number }
{
    if number == 7 { "7]" } else { "]" }
}

/// What is to follow, with texts of its own.
fn next_of(alloc: Global, then: Then) -> Result<Next, AllocError>
    ensures { IfOk result (λ next. next ≡ spec.next_of then) }
{
    match then {
        Then::Ends | Then::Carries(_) => Ok(Next::Done),
        Then::Forwards(path) => Ok(Next::Forward(Text::from_str(alloc, path)?)),
        Then::Includes(path) => {
            let path = Text::from_str(alloc, path)?;
            Ok(Next::Include { path, resume: 7 })
        }
        Then::Fails(code) => {
            let text = Text::from_str(alloc, "why")?;
            Ok(Next::SendError { code, text })
        }
        Then::Faults(name) => Ok(Next::Fault(Text::from_str(alloc, name)?)),
    }
}

impl Servlet for Scripted {
    ghost serves = { λ s call l. spec.scripted s.status s.says s.then call l };

    ghost servlet_phase = { λ s. s.phase };

    fn init(&mut self) -> Result<(), InitFault> {
        self.phase = Phase::Ready;
        Ok(())
    }

    fn service(
        &mut self,
        call: &Call<'_>,
        _edit: &mut SessionEdit,
        reply: &mut Reply,
    ) -> Result<Next, AllocError> {
        self.calls = self.calls.saturating_add(1);
        if call.resume != 0 {
            write(reply, resumed(call.resume))?;
            return Ok(Next::Done);
        }
        set(reply, self.status)?;
        write(reply, said(self.says, call))?;
        next_of(self.alloc, self.then)
    }

    fn destroy(&mut self) {
        self.phase = Phase::Destroyed;
    }
}

/// Writes a text before and another one after; what it says of what follows is `then`'s word: an end is a pass, and a
/// forward or an include stops.
#[derive(Drop)]
pub struct Marking {
    pub before: &'static str,
    pub after: &'static str,
    pub then: Then,
    pub phase: Phase,
    pub alloc: Global,
}

/// What a filter says.
fn before_of(alloc: Global, then: Then) -> Result<Before, AllocError>
    ensures { IfOk result (λ before. before ≡ spec.before_of then) }
{
    match then {
        Then::Ends => Ok(Before::Pass),
        Then::Forwards(_) => Ok(Before::Stop),
        Then::Includes(_) => Ok(Before::Stop),
        Then::Fails(code) => {
            let text = Text::from_str(alloc, "why")?;
            Ok(Before::SendError { code, text })
        }
        Then::Faults(name) => Ok(Before::Fault(Text::from_str(alloc, name)?)),
        Then::Carries(value) => Ok(Before::PassWith {
            name: Text::from_str(alloc, "member")?,
            value: Text::from_str(alloc, value)?,
        }),
    }
}

impl Filter for Marking {
    ghost filtering = { λ f. spec.marking f.before.now f.after.now f.then };

    ghost filter_phase = { λ f. f.phase };

    fn init(&mut self) -> Result<(), InitFault> {
        self.phase = Phase::Ready;
        Ok(())
    }

    fn before(
        &mut self,
        _call: &Call<'_>,
        _edit: &mut SessionEdit,
        reply: &mut Reply,
    ) -> Result<Before, AllocError> {
        write(reply, self.before)?;
        before_of(self.alloc, self.then)
    }

    fn after(
        &mut self,
        _call: &Call<'_>,
        _edit: &mut SessionEdit,
        reply: &mut Reply,
    ) -> Result<(), AllocError> {
        write(reply, self.after)
    }

    fn destroy(&mut self) {
        self.phase = Phase::Destroyed;
    }
}
