//! When a session expires, and how a request names it (Jakarta Servlet 6.0, section "Session Timeouts").

ghost use Rattle.std.specs.Prelude.{◌≡◌};
ghost use Rattle.sv_model.specs.Session.{is_expired};
ghost use Rattle.sv_session.specs.Expiry.{joined};

use sv_model::Session;

/// Whether no request has named the session for its interval, at `now` in whole seconds; where the interval is 0 or
/// less it never expires.
pub fn expired(session: &Session, now: u64) -> bool
    ensures { result ≡ is_expired session.now now }
{
    session.is_expired(now)
}

/// Joins a session to a request that names it, at `now` in whole seconds: it is no longer fresh, and its last request
/// doesn't go back where the clock did.
pub fn join_request(session: &mut Session, now: u64)
    ensures { session.new ≡ joined session.old now }
{
    session.last = session.last.max(now);
    session.fresh = false;
}
