//! Clients that are told all, and those that wait: what they still send, and whether they are there.

ghost use Rattle.std.specs.Prelude.{◌≡◌, None, IfSome};
ghost use Rattle.sv_net.specs.Bytes.{went_of};
ghost use Rattle.sv_net.specs.Exchange.{AllContinue, GoOnWith};
ghost use Rattle.sv_net.specs.Places.{elsewhere, held_at};
ghost use Rattle.sv_net.specs.declared.state.State.TheVariants.{Parting};
ghost use Rattle.sv_net.specs.Saying.{FollowsOn};
ghost use Rattle.sv_net.specs.declared.state.Next.TheVariants.{Part};

use crate::connections::Connections;
use crate::open::Open;
use crate::socket::{Sign, Socket, comes_later};
use crate::state::State;

/// So many bytes are read of what a client goes on sending after its last answer.
const LAST_BYTES: usize = 131_072;

/// Pieces of them that are read in turn, before others come in.
const LAST_PIECES: u32 = 32;

impl Connections {
    /// Says that nothing more is written, and reads on until the other end has closed too (RFC 9112, section 9.6). What came before
    /// may be unread.
    pub(crate) fn half_close(&mut self, place: usize, socket: Socket)
        ensures parting { held_at self.old place ≡ None → IfSome (held_at self.new place) (λ held. FollowsOn Part socket held) }
        ensures others { elsewhere place self.new ≡ elsewhere place self.old }
    {
        let mut socket = socket;
        if socket.end_writing().is_err() {
            self.leave(place);
            return;
        }
        self.begin(place, socket, State::Parting { bytes: LAST_BYTES });
        self.call_again(place);
    }

    /// Looks whether a client whose request waits is still there. One whose connection has broken gives its place back; one that
    /// sends no more may have gone away or not, and is the first to give way.
    pub(crate) fn look_at_client(&mut self, place: usize, open: Open)
        ensures { GoOnWith place «open» self.old self.new }
    {
        let mut open = open;
        match open.socket.sign() {
            Sign::Open => self.keep(place, open),
            Sign::Ended => self.keep(place, open.silenced()),
            Sign::Broken => self.leave(place),
        }
    }

    /// Closes the connection of a client at a place whose next request is to be read, as the connection has broken; whether one
    /// stood there.
    pub(crate) fn close_broken(&mut self, place: usize) -> bool
        ensures { AllContinue self.old self.new }
    {
        let is_heard = match self.places.get(place) {
            Some(Some(open)) => open.state.is_heard(),
            _ => false,
        };
        if is_heard {
            let _closed = self.take(place);
            self.leave(place);
        }
        is_heard
    }

    /// The poll has told of a place; whether it is to be gone on with. A client whose connection has broken is closed.
    pub(crate) fn is_reported(&mut self, place: usize, is_ended: bool, is_broken: bool) -> bool
        ensures { AllContinue self.old self.new }
    {
        self.was_told(place, is_ended);
        !is_broken || !self.close_broken(place)
    }

    /// Reads a piece of what a client goes on sending, and gives its length; none where nothing has come yet.
    fn read_away(socket: &mut Socket) -> Option<usize>
        ensures { went_of socket.new ≡ went_of socket.old }
    {
        let mut piece = [0u8; 4096];
        match socket.read(&mut piece) {
            Ok(count) => Some(count),
            Err(fault) if comes_later(&fault) => None,
            Err(_) => Some(0),
        }
    }

    /// Reads pieces of it, up to so many bytes: how many of these are left, and whether more may lie there; none where the client has
    /// closed too, or has sent that many.
    fn read_pieces(socket: &mut Socket, bytes: usize) -> Option<(usize, bool)>
        ensures { went_of socket.new ≡ went_of socket.old }
    {
        let mut left = bytes;
        for _ in 0..LAST_PIECES {
            match Connections::read_away(socket) {
                Some(count) if count > 0 && count < left => left -= count,
                Some(_) => return None,
                None => return Some((left, false)),
            }
        }
        Some((left, true))
    }

    /// Reads what a client goes on sending after its last answer, up to so many bytes, until it has closed too.
    pub(crate) fn part(&mut self, place: usize, open: Open, bytes: usize)
        ensures { «open».state ≡ Parting bytes → GoOnWith place «open» self.old self.new }
    {
        let mut open = open;
        let Some((left, has_more)) = Connections::read_pieces(&mut open.socket, bytes) else {
            self.leave(place);
            return;
        };
        open.state = State::Parting { bytes: left };
        if has_more {
            self.keep(place, open);
            self.call_again(place);
        } else {
            self.keep_in_time(place, open);
        }
    }
}
