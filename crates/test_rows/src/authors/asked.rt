//! A request of a row, and what is answered to it.

use crate::authors::attributes::edit_of;
use crate::authors::pages::{next_text, push_fields};
use crate::escape::push_shown;
use crate::fault::RowFault;
use crate::web::fields::field_of;
use http::Method;
use std::alloc::Global;
use sv_model::Field;
use sv_servlet::{Answers, Call, Next, Replied, Reply, RequestAttributes};
use sv_web::{HttpServlet, Web};

/// A request for `/a` of a context.
#[derive(Clone, Copy)]
pub struct Asked<'a> {
    pub method: &'a Method,
    pub context_path: &'a str,
    /// Empty for none.
    pub path_info: &'a str,
    pub fields: &'a [Field],
    pub body: &'a [u8],
}

impl<'a> Asked<'a> {
    /// A request of the context `/shop` that has neither fields nor a body.
    pub fn by(method: &'a Method) -> Asked<'a> {
        Asked {
            method,
            context_path: "/shop",
            path_info: "",
            fields: &[],
            body: b"",
        }
    }

    fn path_info(self) -> Option<&'a str> {
        if self.path_info.is_empty() {
            None
        } else {
            Some(self.path_info)
        }
    }

    /// As a servlet sees it.
    pub fn call(self, attributes: &'a RequestAttributes) -> Call<'a> {
        Call {
            method: self.method,
            request_uri: "/shop/a",
            context_path: self.context_path,
            servlet_path: "/a",
            path_info: self.path_info(),
            query: None,
            params: &[],
            fields: self.fields,
            cookies: &[],
            body: self.body,
            settings: &[],
            attributes,
            resume: 0,
        }
    }
}

/// The method of a word.
pub fn method_of(alloc: Global, word: &str) -> Result<Method, RowFault> {
    match Method::from_bytes(alloc, word.as_bytes()) {
        Ok(method) => Ok(method),
        Err(_) => Err(RowFault::Part),
    }
}

/// The field of a content type; none for the part `-`.
pub fn type_of(alloc: Global, part: &str) -> Result<Vec<Field>, RowFault> {
    let mut fields = Vec::new(alloc);
    if part != "-" {
        fields.push(field_of(alloc, "content-type", part)?)?;
    }
    Ok(fields)
}

/// What is to follow, and the status, the fields and the body of a reply.
pub fn shown(alloc: Global, next: Next, replied: &Replied) -> Result<String, RowFault> {
    let mut text = next_text(alloc, next)?;
    text.push_str(", ")?;
    push_fields(alloc, &mut text, replied)?;
    text.push_str(" <")?;
    push_shown(&mut text, replied.body.as_slice())?;
    text.push_str(">")?;
    Ok(text)
}

/// What a servlet answers, called as a dispatch does.
pub fn answered<S: HttpServlet>(
    alloc: Global,
    servlet: S,
    asked: Asked<'_>,
) -> Result<String, RowFault> {
    let mut edit = edit_of(alloc, "none")?;
    let mut reply = Reply::new(alloc);
    let attributes = RequestAttributes::new(alloc);
    let call = asked.call(&attributes);
    let next = Web::new(alloc, servlet).answer(&call, &mut edit, &mut reply)?;
    shown(alloc, next, &reply.finish())
}
