//! Parts of forms.
//!
//! `part` has a content type, or `-` for none, a name and a body, with a bar before each; the body is spelled as those of messages.
//! What comes of it are the file name and the media type, each `none` if it is missing, and the content.

use crate::authors::asked::{Asked, type_of};
use crate::escape::{bytes_of, push_shown};
use crate::fault::RowFault;
use crate::row::first;
use http::Method;
use std::alloc::{AllocError, Global};
use sv_servlet::{Call, RequestAttributes};
use sv_web::FormPart;

/// Adds a text between angle brackets, or `none`.
fn push_some(text: &mut String, bytes: Option<&[u8]>) -> Result<(), AllocError> {
    let Some(bytes) = bytes else {
        text.push_str("none")?;
        return Ok(());
    };
    text.push_str("<")?;
    push_shown(text, bytes)?;
    text.push_str(">")?;
    Ok(())
}

fn part_text(alloc: Global, part: &FormPart<'_>) -> Result<String, AllocError> {
    let mut text = String::new(alloc);
    push_some(&mut text, part.file_name)?;
    text.push_str(" ")?;
    push_some(&mut text, part.media_type)?;
    text.push_str(" ")?;
    push_some(&mut text, Some(part.content))?;
    Ok(text)
}

fn found(alloc: Global, call: &Call<'_>, name: &str) -> Result<String, RowFault> {
    match sv_web::part(alloc, call, name)? {
        Some(part) => Ok(part_text(alloc, &part)?),
        None => Ok(String::from_str(alloc, "no part")?),
    }
}

pub fn part(alloc: Global, parts: &str) -> Result<String, RowFault> {
    let (media, rest) = first(parts);
    let (name, body) = first(rest);
    let fields = type_of(alloc, media)?;
    let body = bytes_of(alloc, body)?;
    let method = Method::POST;
    let asked = Asked {
        fields: &fields,
        body: &body,
        ..Asked::by(&method)
    };
    let attributes = RequestAttributes::new(alloc);
    found(alloc, &asked.call(&attributes), name)
}
