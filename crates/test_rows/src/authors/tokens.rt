//! The filter of a session's token, called as a dispatch does.
//!
//! `csrf` has a method; `none`, `made` or `kept`, for no session, for one that was just made, and for one that keeps the token `t0ken`; and
//! what the request brings, with a comma between them: `param=TOKEN`, `field=TOKEN`, `part=TOKEN` or `other=TOKEN` for a part `csrf` or
//! `other` of a form's body, and `type=TYPE` for that body's media type, which is else that of a form with parts. It gives what the filter
//! says, and the token that the session then keeps. `csrf-token` has `none`, `made` or `kept`.

use crate::authors::asked::{Asked, method_of};
use crate::authors::attributes::edit_of;
use crate::authors::cookies::bracketed;
use crate::fault::RowFault;
use crate::row::{first_word, pair};
use crate::web::fields::field_of;
use http::Method;
use std::alloc::{AllocError, Global};
use sv_model::{Field, Param, Text};
use sv_servlet::{Before, Call, Reply, RequestAttributes, Surrounds};
use sv_session::SessionEdit;
use sv_web::{Csrf, Exchange, Refusal, Web, csrf_token};

/// What a request brings.
#[derive(Drop)]
struct Brought {
    params: Vec<Param>,
    fields: Vec<Field>,
    body: String,
    media_type: String,
}

/// The media type of a form with parts.
const FORM: &str = "multipart/form-data";

fn param_of(alloc: Global, value: &str) -> Result<Param, AllocError> {
    Ok(Param {
        name: Text::from_str(alloc, "csrf")?,
        value: Text::from_str(alloc, value)?,
    })
}

impl Brought {
    fn nothing(alloc: Global) -> Result<Brought, AllocError> {
        Ok(Brought {
            params: Vec::new(alloc),
            fields: Vec::new(alloc),
            body: String::new(alloc),
            media_type: String::from_str(alloc, FORM)?,
        })
    }

    /// Adds a part to the body.
    fn push_part(&mut self, name: &str, content: &str) -> Result<(), AllocError> {
        let head = "content-disposition: form-data";
        write!(
            self.body,
            "--b0\r\n{head}; name=\"{name}\"\r\n\r\n{content}\r\n"
        )
    }

    fn push(&mut self, alloc: Global, kind: &str, token: &str) -> Result<(), RowFault> {
        match kind {
            "param" => self.params.push(param_of(alloc, token)?)?,
            "field" => self.fields.push(field_of(alloc, "x-csrf-token", token)?)?,
            "part" => self.push_part("csrf", token)?,
            "other" => self.push_part("other", token)?,
            "type" => self.media_type = String::from_str(alloc, token)?,
            "" => {}
            _ => return Err(RowFault::Part),
        }
        Ok(())
    }

    /// Ends the body, of which a field tells.
    fn end(&mut self, alloc: Global) -> Result<(), RowFault> {
        if self.body.is_empty() {
            return Ok(());
        }
        self.body.push_str("--b0--\r\n")?;
        let media_type = format!(in alloc; "{}; boundary=b0", self.media_type)?;
        self.fields
            .push(field_of(alloc, "content-type", media_type.as_str())?)?;
        Ok(())
    }
}

fn brought_by(alloc: Global, words: &str) -> Result<Brought, RowFault> {
    let mut brought = Brought::nothing(alloc)?;
    for word in words.split(',') {
        let (kind, token) = pair(word);
        brought.push(alloc, kind, token)?;
    }
    brought.end(alloc)?;
    Ok(brought)
}

/// The edit of a word.
fn edit_by(alloc: Global, word: &str) -> Result<SessionEdit, RowFault> {
    if word != "kept" {
        return edit_of(alloc, word);
    }
    let mut edit = edit_of(alloc, "made")?;
    edit.set("csrf", Some(b"t0ken"))?;
    Ok(edit)
}

/// The token that a session keeps.
fn kept(alloc: Global, edit: &SessionEdit) -> Result<String, RowFault> {
    bracketed(alloc, edit.get("csrf").unwrap_or(None))
}

fn said(alloc: Global, before: Before) -> Result<String, RowFault> {
    match before {
        Before::Pass => Ok(String::from_str(alloc, "pass")?),
        Before::SendError { code, text } => Ok(format!(in alloc;
            "error {code} {}",
            text.as_str()
        )?),
        _ => Err(RowFault::Part),
    }
}

fn judged(
    alloc: Global,
    method: &Method,
    brought: &Brought,
    edit: &mut SessionEdit,
) -> Result<String, RowFault> {
    let attributes = RequestAttributes::new(alloc);
    let asked = Asked {
        fields: brought.fields.as_slice(),
        body: brought.body.as_bytes(),
        ..Asked::by(method)
    };
    let call = Call {
        params: brought.params.as_slice(),
        ..asked.call(&attributes)
    };
    let mut reply = Reply::new(alloc);
    said(
        alloc,
        Web::new(alloc, Csrf).before(&call, edit, &mut reply)?,
    )
}

pub fn csrf(alloc: Global, words: &str) -> Result<String, RowFault> {
    let (method, words) = first_word(words);
    let (word, words) = first_word(words);
    let method = method_of(alloc, method)?;
    let brought = brought_by(alloc, words)?;
    let mut edit = edit_by(alloc, word)?;
    let said = judged(alloc, &method, &brought, &mut edit)?;
    let kept = kept(alloc, &edit)?;
    Ok(format!(in alloc; "{said}; {kept}")?)
}

/// The token that a servlet gets, and the one that the session then keeps.
pub fn given(alloc: Global, word: &str) -> Result<String, RowFault> {
    let mut edit = edit_by(alloc, word)?;
    let mut reply = Reply::new(alloc);
    let attributes = RequestAttributes::new(alloc);
    let method = Method::GET;
    let call = Asked::by(&method).call(&attributes);
    let mut web = Exchange {
        alloc,
        call: &call,
        edit: &mut edit,
        reply: &mut reply,
    };
    let given = match csrf_token(&mut web) {
        Ok(token) => bracketed(alloc, Some(token.as_slice()))?,
        Err(Refusal::Fault(name)) => String::from_str(alloc, name)?,
        Err(_) => return Err(RowFault::Call),
    };
    let kept = kept(alloc, &edit)?;
    Ok(format!(in alloc; "{given}; {kept}")?)
}
