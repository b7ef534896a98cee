//! Fields: those of a request that is read, and those that a row gives.

use crate::escape::{bytes_of, push_pair};
use crate::fault::RowFault;
use http_header::{HeaderName, HeaderValue};
use std::alloc::{AllocError, Global};
use sv_message::{RawRequest, ReadFault, RequestReader};
use sv_model::{Field, Sequence};

fn first_request(alloc: Global, stream: &[u8]) -> Result<Option<RawRequest>, ReadFault> {
    let mut reader = RequestReader::new(alloc);
    reader.feed(stream)?;
    reader.next()
}

/// Each field as its name, a bar and its value between angle brackets.
fn fields_text(alloc: Global, fields: &[Field]) -> Result<String, AllocError> {
    let mut text = String::new(alloc);
    for field in fields {
        push_pair(
            &mut text,
            field.name.as_str().as_bytes(),
            field.value.as_bytes(),
        )?;
    }
    Ok(text)
}

fn told(alloc: Global, stream: &[u8]) -> Result<String, AllocError> {
    match first_request(alloc, stream) {
        Ok(Some(raw)) => fields_text(alloc, raw.fields.as_slice()),
        Ok(None) => String::from_str(alloc, "none"),
        Err(fault) => format!(in alloc; "{fault:?}"),
    }
}

/// The fields of a stream's first request, in order.
pub fn fields(alloc: Global, parts: &str) -> Result<String, RowFault> {
    let stream = bytes_of(alloc, parts)?;
    Ok(told(alloc, &stream)?)
}

/// The field of a name and a value.
pub fn field_of(alloc: Global, name: &str, value: &str) -> Result<Field, RowFault> {
    let value = bytes_of(alloc, value)?;
    let Ok(name) = HeaderName::from_bytes(alloc, name.as_bytes()) else {
        return Err(RowFault::Part);
    };
    let Ok(value) = HeaderValue::from_bytes(alloc, &value) else {
        return Err(RowFault::Part);
    };
    Ok(Field { name, value })
}

/// The fields that the parts give, each a name, a colon and a value.
pub fn fields_of(alloc: Global, parts: &str) -> Result<Sequence<Field>, RowFault> {
    let mut fields = Sequence::new(alloc);
    for part in parts.split('|') {
        if let Some((name, value)) = part.split_once(':') {
            fields.push(field_of(alloc, name, value)?)?;
        }
    }
    Ok(fields)
}
