//! A client's connection among those that are open.

ghost use Rattle.std.specs.Prelude.{◌≡◌, Bool, Some, []};
ghost use Rattle.sv_connection.specs.Connection.{IsFresh, held_by, is_single, is_waiting, stand_of};
ghost use Rattle.sv_net.specs.Saying.{HearsNext, IsAtRest};

use crate::persistence::Persistence;
use crate::state::Next;
use std::alloc::Global;
use sv_connection::Connection;

/// So many requests come on one connection at most.
const REQUEST_LIMIT: u32 = 10_000;

/// A client's connection, and how often it was answered.
pub struct Client {
    pub connection: Connection,
    answered: u32,
    /// More may lie unread after the last request: a close would tear its answer away.
    unread: bool,
}

/// By hand, so that the proof of a caller has one step for it.
impl Drop for Client {
    fn drop(self) {
        let Client {
            connection: _,
            answered: _,
            unread: _,
        } = self;
    }
}

impl Client {
    pub(crate) fn new(alloc: Global, persistence: Persistence) -> Client
        ensures { (single : Bool) × IsFresh result.connection single }
    {
        Client {
            connection: Connection::new(alloc, persistence == Persistence::Single),
            answered: 0,
            unread: false,
        }
    }

    /// The piece by which its request became whole was as large as one may be, so that more may lie unread.
    pub(crate) fn with_piece(self, is_whole: bool) -> Client
        ensures { result.connection ≡ self.connection }
    {
        let mut client = self;
        client.unread = is_whole;
        client
    }

    /// It has begun no request, and may be silent for long: it keeps little memory meanwhile.
    pub(crate) fn at_rest(self) -> Client
        ensures single { is_single result.connection ≡ is_single self.connection }
        ensures waiting { is_waiting result.connection ≡ is_waiting self.connection }
        ensures stand { stand_of result.connection (Some []) ≡ stand_of self.connection (Some []) }
        ensures rests { IsAtRest self result }
    {
        let mut client = self;
        client.connection.give_back();
        client
    }

    /// What follows after an answer (RFC 9112, section 9.6): the next request; or, where the connection closes, the close, at
    /// once where the client asked for it, as it sends no more then.
    pub(crate) fn next(self) -> Next
        ensures { HearsNext (held_by self.connection) result }
    {
        if !self.connection.closed() {
            Next::Listen(self.counted())
        } else if self.connection.leaving() && !self.unread {
            Next::Close
        } else {
            Next::Part
        }
    }

    /// It was answered once more. The last answer but one has it close after the next, which says so.
    fn counted(self) -> Client
        ensures { held_by result.connection ≡ held_by self.connection }
    {
        let mut client = self;
        client.answered = client.answered.saturating_add(1);
        if client.answered.saturating_add(1) >= REQUEST_LIMIT {
            client.connection.become_single();
        }
        client
    }
}
