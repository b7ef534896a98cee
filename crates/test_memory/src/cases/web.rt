//! Messages, targets, parameters, cookies and patterns.

use crate::again::{Refusals, Unshown, again, done};
use crate::{given, shown};
use http::Method;
use http_header::{HeaderName, HeaderValue};
use std::alloc::{AllocError, Global};
use sv_mapping::{
    Dispatcher, Dispatchers, FilterMapping, FilterTarget, Mappings, Pattern, filters_for,
};
use sv_message::{RawRequest, RequestReader, write_response};
use sv_model::{Cookie, Field, Response};
use sv_target::{Target, cookies, params};

type Shown = Result<String, Unshown>;

/// A request with a body in chunks and a trailer, and one with a body of declared length; each is cut inside.
static PIECES: [&str; 4] = [
    "POST /c HTTP/1.1\r\nHost: h\r\nX-Own: a value\r\nTransfer-Encoding: chunked\r\n\r\n4\r\nghi",
    "j\r\n3\r\nklm\r\n0\r\nA: b\r\n\r\n",
    "POST /b HTTP/1.1\r\nHost: h\r\nContent-Length: 6\r\n\r\nabc",
    "def",
];

/// The body of a request that was read.
fn add_body(line: &mut String, raw: &Option<RawRequest>) -> Result<(), AllocError> {
    if let Some(raw) = raw {
        line.push_str(str::from_utf8(raw.body.as_slice()).unwrap_or("?"))?;
    }
    line.push(';')?;
    Ok(())
}

/// What is whole once another piece has come.
fn read_on(
    refusals: &mut Refusals,
    reader: &mut RequestReader,
    piece: &str,
) -> Result<Option<RawRequest>, Unshown> {
    again!(refusals, reader.feed(piece.as_bytes()))?;
    again!(refusals, reader.next())
}

/// Reads another piece, and adds the body of what is whole then.
fn read_piece(
    refusals: &mut Refusals,
    reader: &mut RequestReader,
    line: &mut String,
    piece: &str,
) -> Result<(), Unshown> {
    let raw = read_on(refusals, reader, piece)?;
    Ok(add_body(line, &raw)?)
}

fn read_all(
    refusals: &mut Refusals,
    reader: &mut RequestReader,
    line: &mut String,
) -> Result<(), Unshown> {
    for piece in &PIECES {
        read_piece(refusals, reader, line, piece)?;
    }
    Ok(())
}

pub fn reader(alloc: Global, refusals: &mut Refusals) -> Shown {
    let mut reader = RequestReader::new(alloc);
    let mut line = String::new(alloc);
    match read_all(refusals, &mut reader, &mut line) {
        Ok(()) => Ok(line),
        Err(why) => Err(why),
    }
}

/// Writes a response after what stands there.
fn written(alloc: Global, refusals: &mut Refusals, response: &Response) -> Shown {
    let mut out = Vec::from_slice(alloc, b"before ")?;
    again!(
        refusals,
        write_response(alloc, response, given::NOW, &mut out)
    )?;
    done(String::from_str(alloc, str::from_utf8(out.as_slice()).unwrap_or("?")))
}

pub fn response(alloc: Global, refusals: &mut Refusals) -> Shown {
    let response = given::response(alloc)?;
    written(alloc, refusals, &response)
}

fn shown_target(alloc: Global, target: &Target) -> Result<String, AllocError> {
    let query = target.query.as_ref().map(|query| query.as_str());
    format!(in alloc; "{} {}", target.path.as_str(), query.unwrap_or("-"))
}

pub fn target(alloc: Global, refusals: &mut Refusals) -> Shown {
    let target = again!(
        refusals,
        Target::read(alloc, &Method::GET, "/a/./b%20c/../d;x=1?q=1")
    )?;
    done(shown_target(alloc, &target))
}

pub fn target_within(alloc: Global, refusals: &mut Refusals) -> Shown {
    let target = again!(refusals, Target::read_within(alloc, "/a/b%20c?q=1"))?;
    done(shown_target(alloc, &target))
}

pub fn parameters(alloc: Global, refusals: &mut Refusals) -> Shown {
    let params = again!(refusals, params(alloc, b"a=1&b=x+y", b"c=%41"))?;
    let mut line = String::new(alloc);
    for param in params.as_slice() {
        line.push_str(param.name.as_str())?;
        line.push_str(param.value.as_str())?;
    }
    Ok(line)
}

/// The field of two cookies.
fn cookie_field(alloc: Global) -> Result<Field, AllocError> {
    let name = match HeaderName::from_bytes(alloc, b"cookie") {
        Ok(name) => name,
        Err(_) => return Err(AllocError),
    };
    let value = match HeaderValue::from_str(alloc, "a=1; colour=green") {
        Ok(value) => value,
        Err(_) => return Err(AllocError),
    };
    Ok(Field { name, value })
}

/// Names and values in order.
fn shown_cookies(alloc: Global, cookies: &[Cookie]) -> Result<String, AllocError> {
    let mut line = String::new(alloc);
    for cookie in cookies {
        line.push_str(str::from_utf8(cookie.name.as_slice()).unwrap_or("?"))?;
        line.push_str(str::from_utf8(cookie.value.as_slice()).unwrap_or("?"))?;
    }
    Ok(line)
}

fn cookies_in(alloc: Global, refusals: &mut Refusals, fields: &[Field]) -> Shown {
    let cookies = again!(refusals, cookies(alloc, fields))?;
    done(shown_cookies(alloc, cookies.as_slice()))
}

pub fn cookie_pairs(alloc: Global, refusals: &mut Refusals) -> Shown {
    let field = cookie_field(alloc)?;
    cookies_in(alloc, refusals, &[field])
}

pub fn pattern(alloc: Global, refusals: &mut Refusals) -> Shown {
    let pattern = again!(refusals, Pattern::read(alloc, "/foo/bar/*"))?;
    done(String::from_str(alloc, pattern.as_str()))
}

/// Maps a pattern to a servlet.
fn add(
    alloc: Global,
    mappings: &mut Mappings,
    pattern: &str,
    servlet: usize,
) -> Result<(), sv_mapping::MappingFault> {
    let pattern = Pattern::read(alloc, pattern)?;
    mappings.add(pattern, servlet)
}

/// Maps three patterns.
fn add_all(alloc: Global, refusals: &mut Refusals, mappings: &mut Mappings) -> Result<(), Unshown> {
    for (servlet, pattern) in ["/foo/*", "*.bop", "/catalog"].iter().enumerate() {
        again!(refusals, add(alloc, mappings, pattern, servlet))?;
    }
    Ok(())
}

pub fn mappings(alloc: Global, refusals: &mut Refusals) -> Shown {
    let mut mappings = Mappings::new(alloc);
    add_all(alloc, refusals, &mut mappings)?;
    let found = mappings.find("/catalog").map(|found| found.servlet);
    done(format!(in alloc; "{} {}", mappings.len(), found.unwrap_or(9)))
}

/// Maps a filter to all paths.
fn add_filter(
    alloc: Global,
    all: &mut Vec<FilterMapping>,
    filter: usize,
) -> Result<(), sv_mapping::MappingFault> {
    let pattern = Pattern::read(alloc, "/*")?;
    all.push(FilterMapping {
        filter,
        target: FilterTarget::Pattern(pattern),
        dispatchers: Dispatchers::of(&[]),
    })?;
    Ok(())
}

/// Two filters, each on all paths.
fn two_filters(alloc: Global) -> Result<Vec<FilterMapping>, Unshown> {
    let mut all = Vec::new(alloc);
    done(add_filter(alloc, &mut all, 1))?;
    done(add_filter(alloc, &mut all, 0))?;
    Ok(all)
}

pub fn filters(alloc: Global, refusals: &mut Refusals) -> Shown {
    let all = two_filters(alloc)?;
    match again!(
        refusals,
        filters_for(alloc, &all, "/a", None, Dispatcher::Request)
    ) {
        Ok(filters) => done(format!(in alloc; "{:?}", filters.as_slice())),
        Err(why) => Err(why),
    }
}
