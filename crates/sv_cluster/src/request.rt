//! What is sent to a node.

ghost use Rattle.std.specs.Prelude.{◌≡◌, ◌++◌, OnOk, Some, option_copied};
ghost use Rattle.sv_cluster.specs.Request.{cookie_field, cookie_fields, request_text};

use std::alloc::AllocError;
use sv_client::Session;
use sv_target::cookie_text;

/// Adds the field with the session's cookie.
fn write_cookie(session: &Session, out: &mut Vec<u8>) -> Result<(), AllocError>
    ensures { OnOk result (out.new.items ≡ out.old.items ++ cookie_field session.now) }
{
    out.extend_from_slice(b"Cookie: JSESSIONID=")?;
    out.extend_from_slice(&cookie_text(session.context, session.key, session.secret))?;
    out.extend_from_slice(b"\r\n")?;
    Ok(())
}

/// Adds that field, where there is a session.
fn write_cookies(session: Option<&Session>, out: &mut Vec<u8>) -> Result<(), AllocError>
    ensures { OnOk result (out.new.items ≡ out.old.items ++ cookie_fields (option_copied session.entry)) }
{
    match session {
        Some(session) => write_cookie(session, out),
        None => Ok(()),
    }
}

/// Adds the request for a path, with the cookie of the session.
#[tactic(auto, unfolding(crate::specs::Request::request_text))]
pub fn write_request(
    path: &str,
    session: Option<&Session>,
    out: &mut Vec<u8>,
) -> Result<(), AllocError>
    ensures { OnOk result (out.new.items ≡ out.old.items ++ request_text path.now (option_copied session.entry)) }
{
    out.extend_from_slice(b"GET ")?;
    out.extend_from_slice(path.as_bytes())?;
    out.extend_from_slice(b" HTTP/1.1\r\nHost: localhost\r\n")?;
    write_cookies(session, out)?;
    out.extend_from_slice(b"\r\n")?;
    Ok(())
}
