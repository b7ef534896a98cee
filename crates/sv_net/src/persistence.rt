//! How many requests a client's connection brings.

/// How many requests a client's connection brings (RFC 9112, section 9.3).
#[derive(Clone, Copy, Debug, PartialEq, Eq)]
pub enum Persistence {
    /// One: its answer says that the connection closes.
    Single,
    /// As many as the client sends, up to 10,000; after 30 seconds of silence it is closed.
    Kept,
}
