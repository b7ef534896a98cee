//! What a connection has of the bytes that have come on it.

ghost use Rattle.std.specs.Prelude.{◌≡◌};
ghost use Rattle.sv_connection.specs.Receive.{is_request};

use crate::outcome::RequestFault;
use sv_model::Request;

/// What stands at the front of the bytes that have come.
#[derive(Drop)]
pub enum Received {
    /// A request, which was taken from the front: the site is to be asked it. Its answer leaves out its body where its
    /// method is HEAD, and closes the connection where it says so.
    Request(Request),
    /// A fault, whose page is to be written; the connection is closed. `head_only` where the page leaves out its body.
    Refused {
        fault: RequestFault,
        head_only: bool,
    },
    /// Less than a request. All that has come is kept.
    More,
    /// Nothing: the connection was closed before, or the input has ended.
    Closed,
}

impl Received {
    /// A request was taken.
    pub fn is_request(&self) -> bool
        ensures { result ≡ is_request self.now }
    {
        matches!(self, Received::Request(_))
    }
}
