//! What clients are told.

ghost use Rattle.std.specs.Prelude.{◌≡◌, ◌∷◌, ◌||◌, [], None, IfSome, is_some};
ghost use Rattle.sv_connection.specs.Speak.{memory_lines};
ghost use Rattle.sv_net.specs.Bytes.{came_of, went_of};
ghost use Rattle.sv_net.specs.Exchange.{GoOnWith, said_on, unsent};
ghost use Rattle.sv_net.specs.Places.{TellsAt, elsewhere, held_at, manner_at, naming_of};
ghost use Rattle.sv_net.specs.Saying.{Answers, FollowsOn, Says, Tells, is_deadline, refused_as};
ghost use Rattle.sv_net.specs.declared.state.Next.TheVariants.{Close, Listen, Part};

use crate::client::Client;
use crate::connections::Connections;
use crate::open::Open;
use crate::socket::{Socket, Written};
use crate::state::{Next, State};
use std::mem::replace;
use std::time::Duration;
use sv_connection::{Outcome, memory_lines, refusal_by};
use sv_model::{Cause, Response};

/// Whether the connection of a client closes after its refusal: where it wants that, and where it has waited in vain.
fn closes(cause: Cause, close: bool) -> bool
    ensures { result ≡ (close || is_deadline cause) }
{
    close || matches!(cause, Cause::Deadline)
}

impl Connections {
    /// Says a text at a place. What isn't taken of it is kept, and leaves `text`.
    pub fn say(&mut self, place: usize, socket: Socket, text: &mut Vec<u8>, next: Next)
        ensures said { held_at self.old place ≡ None
            → IfSome (held_at self.new place) (λ held. Says text.old.items next (went_of socket) (came_of socket) held) }
        ensures others { elsewhere place self.new ≡ elsewhere place self.old }
    {
        let mut socket = socket;
        self.report.answered(text.as_slice());
        match socket.write(text) {
            Written::All => self.follow(place, socket, next),
            Written::Part => {
                let text = replace(text, Vec::new(self.alloc));
                let open = Open::at(socket, State::Saying { text, next }, self.clock);
                self.keep(place, open);
            }
            Written::Broken => self.leave(place),
        }
    }

    /// Says more of a text that was begun.
    pub(crate) fn say_on(&mut self, place: usize, open: Open)
        ensures { held_at self.old place ≡ None → GoOnWith place «open» self.old self.new }
    {
        let (mut socket, state, begun, heard) = open.into_parts();
        let State::Saying { mut text, next } = state else {
            self.leave(place);
            return;
        };
        let before = text.len();
        match socket.write(&mut text) {
            Written::All => self.follow(place, socket, next),
            Written::Part => {
                let heard = self.taken_at(heard, before, text.len());
                let state = State::Saying { text, next };
                self.keep_in_time(
                    place,
                    Open {
                        socket,
                        state,
                        begun,
                        heard,
                    },
                );
            }
            Written::Broken => self.leave(place),
        }
    }

    /// When something was last taken of a text, of which so many bytes were left before, and so many are.
    fn taken_at(&self, heard: Duration, before: usize, left: usize) -> Duration {
        if left < before { self.clock } else { heard }
    }

    /// Listens to a client further. One of which nothing more has come rests until the poll reports it; another is gone on with in the
    /// next turn, so that each has one request a turn.
    fn listen(&mut self, place: usize, socket: Socket, client: Client)
        ensures listened { held_at self.old place ≡ None → IfSome (held_at self.new place) (λ held. FollowsOn (Listen client) socket held) }
        ensures others { elsewhere place self.new ≡ elsewhere place self.old }
    {
        if socket.is_drained() && client.connection.is_empty() {
            let state = State::Resting(client.at_rest());
            self.keep(place, Open::at(socket, state, self.clock));
        } else {
            self.begin(place, socket, State::Asked(client));
            self.put_down(place);
        }
    }

    /// What follows once a text is written.
    pub(crate) fn follow(&mut self, place: usize, socket: Socket, next: Next)
        ensures followed { held_at self.old place ≡ None → IfSome (held_at self.new place) (λ held. FollowsOn next socket held) }
        ensures others { elsewhere place self.new ≡ elsewhere place self.old }
    {
        match next {
            Next::Close => self.leave(place),
            Next::Part => self.half_close(place, socket),
            Next::Listen(client) => self.listen(place, socket, client),
        }
    }

    /// Says one byte, and closes the connection.
    pub(crate) fn tell(&mut self, place: usize, socket: Socket, byte: u8)
        ensures said { held_at self.old place ≡ None
            → IfSome (held_at self.new place) (λ held. Says (byte ∷ []) Close (went_of socket) (came_of socket) held) }
        ensures others { elsewhere place self.new ≡ elsewhere place self.old }
    {
        let mut text = Vec::new(self.alloc);
        if text.push(byte).is_ok() {
            self.say(place, socket, &mut text, Next::Close);
        } else {
            self.leave(place);
        }
    }

    /// How the client that waits at a place for the answer under a token wants a refusal: the head alone, and whether its connection
    /// closes; none where no such client is there, be the place another's by now.
    fn manner_at(&self, place: usize, token: u64) -> Option<(bool, bool)>
        ensures { result ≡ manner_at self.now place token }
    {
        match self.places.get(place) {
            Some(
                Some(
                    Open {
                        state: State::Waiting {
                            head_only,
                            close,
                            token: own,
                            ..
                        },
                        ..
                    },
                ),
            ) if *own == token => Some((*head_only, *close)),
            _ => None,
        }
    }

    /// Whether a client waits at a place for the answer under a token.
    pub fn waits_at(&self, place: usize, token: u64) -> bool
        ensures { result ≡ is_some (manner_at self.now place token) }
    {
        self.manner_at(place, token).is_some()
    }

    /// Answers the client that waits at a place for the answer under a token. The text is made in `text`. If there is no memory for it
    /// the connection is closed without an answer: what the client has asked may be done, and nothing else is to be said of it.
    pub fn answer(
        &mut self,
        place: usize,
        token: u64,
        response: &Response,
        now: u64,
        text: &mut Vec<u8>,
    )
        ensures nobody { manner_at self.old place token ≡ None → self.new ≡ self.old }
        ensures answered { TellsAt place token (λ _ was held. Tells response.now now was held) self.old self.new }
        ensures others { elsewhere place self.new ≡ elsewhere place self.old }
    {
        if !self.waits_at(place, token) {
            return;
        }
        let Some(open) = self.take(place) else {
            return;
        };
        let (socket, state, begun, _heard) = open.into_parts();
        let State::Waiting { mut client, .. } = state else {
            self.leave(place);
            return;
        };
        self.report.took(self.clock.saturating_sub(begun));
        text.clear();
        match client.connection.answer(text, response, now) {
            Outcome::Answered => self.say(place, socket, text, client.next()),
            _ => self.leave(place),
        }
    }

    /// Says to a client that memory was refused, and parts from it.
    fn refuse_for_memory(&mut self, place: usize, socket: Socket)
        ensures said { held_at self.old place ≡ None
            → IfSome (held_at self.new place) (λ held. Says memory_lines Part (went_of socket) (came_of socket) held) }
        ensures others { elsewhere place self.new ≡ elsewhere place self.old }
    {
        match Vec::from_slice(self.alloc, memory_lines()) {
            Ok(lines) => {
                let mut text = lines;
                self.say(place, socket, &mut text, Next::Part);
            }
            Err(_) => self.leave(place),
        }
    }

    /// The same to the client at a place.
    fn starve(&mut self, place: usize)
        ensures said { IfSome (held_at self.old place) (λ was. unsent was.state ≡ []
            → IfSome (held_at self.new place) (λ held. Says memory_lines Part (said_on was) (came_of was.socket) held)) }
        ensures others { elsewhere place self.new ≡ elsewhere place self.old }
    {
        if let Some(open) = self.take(place) {
            let (socket, _state, _begun, _heard) = open.into_parts();
            self.refuse_for_memory(place, socket);
        }
    }

    /// Refuses the client that waits at a place for the answer under a token. The connection of one that has waited in vain closes.
    pub fn refuse(&mut self, place: usize, token: u64, cause: Cause, now: u64, text: &mut Vec<u8>)
        ensures nobody { manner_at self.old place token ≡ None → self.new ≡ self.old }
        ensures refused { TellsAt place token (λ manner was held. Answers (refused_as (naming_of self.old) cause manner) now was held) self.old self.new }
        ensures others { elsewhere place self.new ≡ elsewhere place self.old }
    {
        let Some((head_only, close)) = self.manner_at(place, token) else {
            return;
        };
        match refusal_by(
            self.alloc,
            self.naming,
            cause,
            head_only,
            closes(cause, close),
        ) {
            Ok(response) => self.answer(place, token, &response, now, text),
            Err(_) => self.starve(place),
        }
    }
}
