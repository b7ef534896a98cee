//! What a step puts out, as texts.

use crate::packets::push_packet;
use std::alloc::AllocError;
use sv_model::{Field, Output, Response};

/// Adds the value of a field that sets a cookie, after a word; of any other, nothing.
fn push_cookie(text: &mut String, field: &Field) -> Result<(), AllocError> {
    if field.name.as_str() == "set-cookie" {
        text.push_str(", set-cookie ")?;
        text.push_str(field.value.to_str().unwrap_or("||"))?;
    }
    Ok(())
}

/// Adds a response: its status, its body up to the last line feed, and the cookie that it sets.
fn push_response(text: &mut String, response: &Response) -> Result<(), AllocError> {
    let body = str::from_utf8(response.body.as_slice()).unwrap_or("||");
    write!(text, "{} {}", response.status.as_u16(), body.trim_end())?;
    for field in response.fields.as_slice() {
        push_cookie(text, field)?;
    }
    Ok(())
}

/// Adds one output.
pub fn push_output(text: &mut String, output: &Output) -> Result<(), AllocError> {
    match output {
        Output::Answer { response, .. } => push_response(text, response),
        Output::Refuse { cause, .. } => write!(text, "refused {cause:?}"),
        Output::Send(packet) => push_packet(text, packet),
        Output::Moved => text.push_str("moved"),
        Output::MoveRefused(why) => write!(text, "not moved {why:?}"),
    }
}
