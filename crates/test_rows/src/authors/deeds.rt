//! Functions of the library that are called with a request and all that is lent for its answer.
//!
//! `page` has pieces; `send-to` a context path and a path; `json` a content type, or `-` for none, and a body, which is sent back as JSON;
//! `json-error` a status and why. Before each stands a bar, and bodies are spelled as those of messages.

use crate::authors::asked::{Asked, shown, type_of};
use crate::authors::attributes::edit_of;
use crate::authors::pieces::page_of;
use crate::escape::bytes_of;
use crate::fault::RowFault;
use crate::row::{first, status};
use http::Method;
use std::alloc::Global;
use sv_servlet::{Call, Next, Reply, RequestAttributes};
use sv_session::SessionEdit;
use sv_web::{
    Exchange, Page, Refusal, is_own_path, json, send_json, send_json_error, send_page, send_to,
};

/// What is called.
#[derive(Clone, Copy)]
enum Deed<'a> {
    Page(&'a Page),
    To(&'a str),
    /// Sends back the JSON that the body is.
    Json,
    Error(u16, &'a str),
}

/// Sends on to a path of the context, and does nothing for any other.
fn lead(web: &mut Exchange<'_>, path: &str) -> Result<Next, Refusal> {
    if is_own_path(path) {
        return send_to(web, path);
    }
    Ok(Next::Done)
}

fn send_back(web: &mut Exchange<'_>) -> Result<Next, Refusal> {
    let value = json(web)?;
    send_json(web, &value)?;
    Ok(Next::Done)
}

fn refuse(web: &mut Exchange<'_>, code: u16, why: &str) -> Result<Next, Refusal> {
    send_json_error(web, code, why)?;
    Ok(Next::Done)
}

impl<'a> Deed<'a> {
    fn run(self, web: &mut Exchange<'_>) -> Result<Next, Refusal> {
        match self {
            Deed::Page(page) => send_page(web, page),
            Deed::To(path) => lead(web, path),
            Deed::Json => send_back(web),
            Deed::Error(code, why) => refuse(web, code, why),
        }
    }

    /// What is to follow. If a call is refused, the row has a fault.
    fn follow(
        self,
        alloc: Global,
        call: &Call<'_>,
        edit: &mut SessionEdit,
        reply: &mut Reply,
    ) -> Result<Next, RowFault> {
        let mut web = Exchange {
            alloc,
            call,
            edit,
            reply,
        };
        match self.run(&mut web) {
            Ok(next) => Ok(next),
            Err(Refusal::Answered) => Ok(Next::Done),
            Err(Refusal::Memory) => Err(RowFault::Memory),
            Err(Refusal::Fault(_)) => Err(RowFault::Call),
        }
    }

    /// What is to follow, and what is answered.
    fn done(self, alloc: Global, asked: Asked<'_>) -> Result<String, RowFault> {
        let mut edit = edit_of(alloc, "none")?;
        let mut reply = Reply::new(alloc);
        let attributes = RequestAttributes::new(alloc);
        let call = asked.call(&attributes);
        let next = self.follow(alloc, &call, &mut edit, &mut reply)?;
        shown(alloc, next, &reply.finish())
    }
}

pub fn page(alloc: Global, parts: &str) -> Result<String, RowFault> {
    let page = page_of(alloc, parts)?;
    Deed::Page(&page).done(alloc, Asked::by(&Method::GET))
}

pub fn to(alloc: Global, parts: &str) -> Result<String, RowFault> {
    let (context_path, path) = first(parts);
    let method = Method::POST;
    let asked = Asked {
        context_path,
        ..Asked::by(&method)
    };
    Deed::To(path).done(alloc, asked)
}

pub fn json_back(alloc: Global, parts: &str) -> Result<String, RowFault> {
    let (media, body) = first(parts);
    let fields = type_of(alloc, media)?;
    let body = bytes_of(alloc, body)?;
    let method = Method::POST;
    let asked = Asked {
        fields: &fields,
        body: &body,
        ..Asked::by(&method)
    };
    Deed::Json.done(alloc, asked)
}

pub fn json_error(alloc: Global, parts: &str) -> Result<String, RowFault> {
    let (code, why) = first(parts);
    Deed::Error(status(code)?, why).done(alloc, Asked::by(&Method::POST))
}
