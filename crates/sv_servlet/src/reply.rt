//! The reply that servlets and filters write (Jakarta Servlet 6.0, chapter "The Response").

ghost use Rattle.std.specs.Prelude.{◌≡◌, ◌≢◌, ◌⊎◌, true, Err, IfOk, IfErr, IsOk, bytes_eq};
ghost use Rattle.http_header.specs.FieldName.{IsFieldName};
ghost use Rattle.http_header.specs.FieldValue.{IsFieldValue, plain_value};
ghost use Rattle.http_header.specs.Token.{lowercase};
ghost use Rattle.sv_servlet.specs.Reply.{fault_name, new_reply, addition_result, Answers, HeaderAnswers, status_result, field_result};
ghost use Rattle.sv_servlet.specs.Reply.{write_result, reset_reply, cleared, held, is_reserved, is_full};
ghost use Rattle.sv_servlet.specs.declared.reply.ReplyFault.TheVariants.{Memory};

use crate::fields::{add_last, set_only};
use http::StatusCode;
use http_header::{HeaderName, HeaderNameError, HeaderValue, HeaderValueError};
use std::alloc::{AllocError, Global};
use std::marker::Model;
use sv_model::{Field, Sequence, place_of_field};
use thiserror::Error;

/// The fields of a reply, at most.
pub const FIELD_LIMIT: usize = 64;

/// The bytes of a reply's body, at most.
pub const BODY_LIMIT: usize = 262_144;

/// Why a call of a reply was refused; the reply is then as it was.
#[derive(Clone, Copy, Debug, PartialEq, Eq, Error)]
pub enum ReplyFault {
    /// Fault 1.
    #[error("the status is outside 200 to 599")]
    BadStatus,
    /// Fault 2 (RFC 9110, section 5).
    #[error("the name or the value is none of a header field")]
    BadHeader,
    /// Fault 3.
    #[error("the container sets this header field itself")]
    Reserved,
    /// Fault 4.
    #[error("the reply has 64 fields already")]
    TooMany,
    /// Fault 5.
    #[error("the body would be longer than 262144 bytes")]
    TooLong,
    /// Fault 6.
    #[error("memory was refused for the reply")]
    Memory,
}

impl ReplyFault {
    /// The fault's name, as an error page may show it.
    pub fn name(self) -> &'static str
        ensures { result.now ≡ fault_name self }
    {
        match self {
            ReplyFault::BadStatus => "BadStatus",
            ReplyFault::BadHeader => "BadHeader",
            ReplyFault::Reserved => "Reserved",
            ReplyFault::TooMany => "TooMany",
            ReplyFault::TooLong => "TooLong",
            ReplyFault::Memory => "Memory",
        }
    }
}

impl From<AllocError> for ReplyFault {
    ghost from_gives = { λ _ fault. fault ≡ Memory };

    fn from(_: AllocError) -> Self {
        ReplyFault::Memory
    }
}

/// What a reply has come to.
#[derive(Drop)]
pub struct Replied {
    pub status: StatusCode,
    pub fields: Sequence<Field>,
    pub body: Sequence<u8>,
}

/// A reply while it is written: a status, fields in the order in which they were first set, and a body.
///
/// Inside an include it is held: then its status and its fields stand still, and only the body grows.
#[derive(Drop)]
pub struct Reply {
    status: StatusCode,
    fields: Vec<Field>,
    body: Sequence<u8>,
    is_held: bool,
    alloc: Global,
}

impl Model for Reply {
    ghost use Rattle.sv_servlet.specs.ReplyState.{ReplyState};

    ghost Value = { ReplyState };

    ghost view = { λ r. record { status = r.status; fields = r.fields.items; body = r.body; is_held = r.is_held } };

    ghost use Rattle.sv_servlet.specs.ReplyState.{IsWithin};

    ghost invariant = { λ r. IsWithin r.fields.items r.body };
}

/// The name of a field, in lower case.
fn read_name(alloc: Global, name: &str) -> Result<HeaderName, ReplyFault>
    ensures ok { IfOk result (λ n. (n ≡ lowercase name.now) × IsFieldName name.now) }
    ensures fault { IfErr result (λ f. ((f ≡ Memory) × ¬ (¬ (IsFieldName name.now))) ⊎ ((f ≡ ReplyFault.BadHeader) × ¬ (IsFieldName name.now))) }
{
    match HeaderName::from_bytes(alloc, name.as_bytes()) {
        Ok(name) => Ok(name),
        Err(HeaderNameError::Invalid) => Err(ReplyFault::BadHeader),
        Err(HeaderNameError::OutOfMemory) => Err(ReplyFault::Memory),
    }
}

/// The value of a field.
fn read_value(alloc: Global, value: &str) -> Result<HeaderValue, ReplyFault>
    ensures ok { IfOk result (λ v. (v ≡ plain_value value.now) × IsFieldValue value.now) }
    ensures fault { IfErr result (λ f. ((f ≡ Memory) × ¬ (¬ (IsFieldValue value.now))) ⊎ ((f ≡ ReplyFault.BadHeader) × ¬ (IsFieldValue value.now))) }
{
    match HeaderValue::from_str(alloc, value) {
        Ok(value) => Ok(value),
        Err(HeaderValueError::Invalid) => Err(ReplyFault::BadHeader),
        Err(HeaderValueError::OutOfMemory) => Err(ReplyFault::Memory),
    }
}

/// Whether a name is a known one: most are of another length.
#[inline(always)]
fn is_named(name: &str, known: &str) -> bool
    ensures { result ≡ bytes_eq name.now known.now }
{
    name.len() == known.len() && name == known
}

/// The container sets the field of this name itself.
#[tactic(auto, unfolding(crate::specs::Reply::is_reserved, crate::specs::Reply::reserved_names))]
fn is_reserved(name: &HeaderName) -> bool
    ensures { result ≡ is_reserved name.now }
{
    let name = name.as_str();
    is_named(name, "date")
        || is_named(name, "content-length")
        || is_named(name, "connection")
        || is_named(name, "transfer-encoding")
        || is_named(name, "trailer")
        || is_named(name, "upgrade")
        || is_named(name, "keep-alive")
}

/// Another field of this name finds no place.
fn is_full(fields: &[Field], name: &HeaderName) -> bool
    ensures { result ≡ is_full fields.now name.now }
{
    place_of_field(fields, name).is_none() && fields.len() >= FIELD_LIMIT
}

impl Reply {
    /// Status 200, no fields and no body; not held.
    pub fn new(alloc: Global) -> Reply
        ensures { result ≡ new_reply }
    {
        Reply {
            status: StatusCode::OK,
            fields: Vec::new(alloc),
            body: Sequence::new(alloc),
            is_held: false,
            alloc,
        }
    }

    /// Sets the status, from 200 to 599; does nothing while held.
    pub fn status(&mut self, code: u16) -> Result<(), ReplyFault>
        ensures answer { Answers self.old (status_result self.old code) result self.new }
        ensures takes_no_memory { result ≢ Err Memory }
    {
        match StatusCode::from_u16(code) {
            _ if self.is_held => Ok(()),
            Ok(status) if code >= 200 && code <= 599 => {
                self.status = status;
                Ok(())
            }
            _ => Err(ReplyFault::BadStatus),
        }
    }

    /// Sets a field of a name and a value; does nothing while held.
    ///
    /// The name may be in any case and is kept in lower case. A name or a value that is none is told before a
    /// reserved name, and that before a 65th field. The value is kept as it is given; a receiver drops the blanks round
    /// it (RFC 9110, section 5.5).
    pub fn header(&mut self, name: &str, value: &str) -> Result<(), ReplyFault>
        ensures answer { HeaderAnswers self.old name.now value.now result self.new }
        ensures held { self.old.is_held ≡ true → IsOk result }
    {
        if self.is_held {
            return Ok(());
        }
        let name = read_name(self.alloc, name)?;
        let value = read_value(self.alloc, value)?;
        self.set(Field { name, value })
    }

    /// Sets a field: in the place of the first of its name, of which no other stays, or last. Does nothing while held.
    pub fn set(&mut self, field: Field) -> Result<(), ReplyFault>
        ensures answer { Answers self.old (field_result self.old field) result self.new }
        ensures held { self.old.is_held ≡ true → IsOk result }
    {
        if self.is_held {
            return Ok(());
        }
        if is_reserved(&field.name) {
            return Err(ReplyFault::Reserved);
        }
        if is_full(self.fields.as_slice(), &field.name) {
            return Err(ReplyFault::TooMany);
        }
        set_only(&mut self.fields, field)?;
        Ok(())
    }

    /// Adds a field after those that there are, also those of its name (`addHeader`). Does nothing while held.
    ///
    /// For a field that is defined as a list, and `set-cookie`: of any other one line is sent at most (RFC 9110, section 5.3).
    /// A reserved name is told before a 65th field.
    pub fn add(&mut self, field: Field) -> Result<(), ReplyFault>
        ensures answer { Answers self.old (addition_result self.old field) result self.new }
        ensures held { self.old.is_held ≡ true → IsOk result }
    {
        if self.is_held {
            return Ok(());
        }
        if is_reserved(&field.name) {
            return Err(ReplyFault::Reserved);
        }
        if self.fields.len() >= FIELD_LIMIT {
            return Err(ReplyFault::TooMany);
        }
        add_last(&mut self.fields, field)?;
        Ok(())
    }

    /// Adds bytes to the body, up to 262,144 in all; held or not.
    pub fn write(&mut self, text: &[u8]) -> Result<(), ReplyFault>
        ensures { Answers self.old (write_result self.old text.now) result self.new }
    {
        if text.len() > BODY_LIMIT - self.body.len() {
            return Err(ReplyFault::TooLong);
        }
        self.body.extend_from_slice(text)?;
        Ok(())
    }

    /// Goes back to status 200, no fields and no body; does nothing while held.
    pub fn reset(&mut self)
        ensures { self.new ≡ reset_reply self.old }
    {
        if !self.is_held {
            self.status = StatusCode::OK;
            self.fields = Vec::new(self.alloc);
            self.body = Sequence::new(self.alloc);
        }
    }

    /// Holds the reply, or lets it go: while held its status and its fields stand still.
    pub fn hold(&mut self, is_held: bool)
        ensures { self.new ≡ held self.old is_held }
    {
        self.is_held = is_held;
    }

    /// Empties the body, held or not; the status and the fields stay.
    pub fn clear_body(&mut self)
        ensures { self.new ≡ cleared self.old }
    {
        self.body = Sequence::new(self.alloc);
    }

    /// The status, the fields and the body.
    pub fn finish(self) -> Replied
        ensures status { result.status ≡ self.status }
        ensures fields { result.fields ≡ self.fields }
        ensures body { result.body ≡ self.body }
    {
        let Reply {
            status,
            fields,
            body,
            is_held: _,
            alloc: _,
        } = self;
        Replied {
            status,
            fields: Sequence::from_vec(fields),
            body,
        }
    }
}
