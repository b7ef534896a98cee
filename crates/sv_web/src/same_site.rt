//! With which requests a client sends a cookie.

/// With which requests a client sends a cookie, by the site that has them sent (the attribute SameSite of the IETF's draft "Cookies: HTTP
/// State Management Mechanism").
#[derive(Clone, Copy, Debug, PartialEq, Eq)]
pub enum SameSite {
    /// With those of the cookie's own site.
    Strict,
    /// Also where another site leads to it by a link.
    Lax,
    /// With all. Clients want such a cookie to be `Secure`.
    None,
}
