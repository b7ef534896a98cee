//! What comes on one connection.

ghost use Rattle.std.specs.Io.{ReadsAtMost};
ghost use Rattle.std.specs.Prelude.{◌≡◌, ◌≢◌, ◌++◌, ◌<◌, None, false, IfOk, IfErr, IfSome, OnErr};
ghost use Rattle.sv_host.specs.Clients.{HasAsked, KeepsAll};
ghost use Rattle.sv_host.specs.Group.{Comes};
ghost use Rattle.sv_host.specs.Heard.{IsHeardOf};
ghost use Rattle.sv_host.specs.Parked.{clients_of};
ghost use Rattle.sv_host.specs.Serve.{Brings, GoesOn, Halts, HearsOn, IsHeard, Listens, StaysAt, Takes, came_in, is_more};
ghost use Rattle.sv_host.specs.Stops.{IsTold};
ghost use Rattle.sv_host.specs.Stories.{AllGoOnWith, CarryOn};
ghost use Rattle.sv_net.specs.Bytes.{came_of, moved, went_of};
ghost use Rattle.sv_net.specs.Exchange.{GoOnWith, turn_of};
ghost use Rattle.sv_net.specs.declared.state.Turn.TheVariants as turn;
ghost use Rattle.sv_net.specs.Places.{held_at, places_of};

use crate::fault::Stop;
use crate::greeting::greeted;
use crate::group::Came;
use crate::intake::{Lifted, ask, refuse, take_frame};
use crate::server::Server;
use sv_model::Request;
use sv_net::{Heard, Open, PIECE, Socket, Turn, comes_later};
use sv_record::Frame;

/// So many pieces of a connection are read in turn, before others come in.
const PIECES: u32 = 16;

/// What comes of a connection: what it has for the node, or whether more of it is to be read at once.
#[derive(Drop)]
pub enum Progress {
    More,
    Done,
    Came(Came),
}

fn progress_of(came: Option<Came>) -> Progress
    ensures same { came_in result ≡ came }
    ensures ends { is_more result ≡ false }
{
    match came {
        Some(came) => Progress::Came(came),
        None => Progress::Done,
    }
}

/// Takes what has come on a connection.
fn take(
    server: &mut Server,
    place: usize,
    open: Open,
    piece: &[u8],
    token: u64,
) -> Result<Progress, Stop>
    ensures brings { IfOk result (λ progress. Brings place token progress) }
    ensures told { IfErr result (Halts server.old.connections.greets «open» piece.now) }
    ensures clients { KeepsAll (clients_of server.old.parked) (clients_of server.new.parked) }
    ensures asked { IfOk result (λ progress. IfSome (came_in progress) (λ came. HasAsked (clients_of server.new.parked) came.input)) }
    ensures takes { IfOk result (λ progress. Takes server.old.peers server.old.connections.greets «open».state piece.now token progress) }
    ensures stays { IfOk result (λ progress. StaysAt server.old.connections.greets «open».state piece.now place server.new progress) }
    ensures hears { IfOk result (λ progress. HearsOn server.old.peers server.old.connections.greets «open» piece.now place token server.old server.new progress) }
    ensures halted { OnErr result (places_of server.new.connections ≡ places_of server.old.connections) }
{
    let (socket, state, since) = server.connections.begun(open, piece);
    let from = Lifted { place, socket };
    match server.connections.hear(state, piece) {
        Heard::More(state) => {
            server.connections.put(place, from.socket, state, since);
            Ok(Progress::More)
        }
        Heard::Request { client, request } => {
            Ok(progress_of(ask(server, from, client, request, token)))
        }
        Heard::Refused {
            client,
            fault,
            head_only,
        } => {
            refuse(server, from, client, fault, head_only);
            Ok(Progress::Done)
        }
        Heard::Frame { frame, rest } => match take_frame(server, from, frame, rest) {
            Ok(came) => Ok(progress_of(came)),
            Err(stop) => Err(stop),
        },
        Heard::Greeting(said) => {
            greeted(server, from, &said);
            Ok(Progress::Done)
        }
        Heard::Nothing => {
            server.connections.leave(place);
            Ok(Progress::Done)
        }
    }
}

/// Why nothing was read of a connection.
#[derive(Drop)]
enum Missing {
    /// Nothing has come yet.
    Yet,
    /// Nothing more will come.
    ForEver,
}

/// Reads once what has come on a connection, and gives how much of the piece that is.
fn look(socket: &mut Socket, piece: &mut [u8; PIECE]) -> Result<usize, Missing>
    ensures most { ReadsAtMost result piece.new }
    ensures came { came_of socket.new ≡ came_of socket.old ++ moved result piece.new }
    ensures went { went_of socket.new ≡ went_of socket.old }
    ensures some { IfOk result (λ count. 0 < count) }
{
    match socket.read(piece) {
        Ok(0) => Err(Missing::ForEver),
        Ok(count) => Ok(count),
        Err(fault) if comes_later(&fault) => Err(Missing::Yet),
        Err(_) => Err(Missing::ForEver),
    }
}

/// Does with a connection on which nothing has come what is to be done.
fn keep_or_leave(server: &mut Server, place: usize, open: Open, missing: Missing)
    ensures clients { server.new.parked ≡ server.old.parked }
    ensures go_on { GoOnWith place «open» server.old.connections server.new.connections }
{
    match missing {
        Missing::Yet => server.connections.keep_in_time(place, open),
        Missing::ForEver => server.connections.leave(place),
    }
}

/// Reads once what has come on a connection, and takes it.
fn listen_once(
    server: &mut Server,
    place: usize,
    open: Open,
    piece: &mut [u8; PIECE],
    token: u64,
) -> Result<Progress, Stop>
    ensures brings { IfOk result (λ progress. Brings place token progress) }
    ensures heard { IfOk result (λ progress. IsHeard token progress) }
    ensures told { IfErr result IsTold }
    ensures clients { KeepsAll (clients_of server.old.parked) (clients_of server.new.parked) }
    ensures listens { IfOk result (λ progress. Listens server.old.peers server.old.connections.greets «open» place token server.old server.new progress) }
    ensures with_one { turn_of «open».state ≢ turn.Socket → held_at server.old.connections place ≡ None → AllGoOnWith place «open» server.old.connections server.new.connections }
    ensures asked { IfOk result (λ progress. IfSome (came_in progress) (λ came. HasAsked (clients_of server.new.parked) came.input)) }
{
    let mut open = open;
    match look(&mut open.socket, piece) {
        Ok(count) => take(server, place, open, &piece[..count], token),
        Err(missing) => {
            keep_or_leave(server, place, open, missing);
            Ok(Progress::Done)
        }
    }
}

/// Goes on with a connection that was taken, by one read or write.
fn go_on_with(
    server: &mut Server,
    place: usize,
    open: Open,
    piece: &mut [u8; PIECE],
    token: u64,
) -> Result<Progress, Stop>
    ensures brings { IfOk result (λ progress. Brings place token progress) }
    ensures heard { IfOk result (λ progress. IsHeard token progress) }
    ensures told { IfErr result IsTold }
    ensures clients { KeepsAll (clients_of server.old.parked) (clients_of server.new.parked) }
    ensures goes_on { IfOk result (λ progress. GoesOn server.old.peers server.old.connections.greets «open» place token server.old server.new progress) }
    ensures with_one { held_at server.old.connections place ≡ None → AllGoOnWith place «open» server.old.connections server.new.connections }
    ensures asked { IfOk result (λ progress. IfSome (came_in progress) (λ came. HasAsked (clients_of server.new.parked) came.input)) }
{
    match open.state.turn() {
        Turn::Serve => take(server, place, open, &[], token),
        Turn::Read => listen_once(server, place, open, piece, token),
        Turn::Socket => {
            server.connections.go_on(place, open);
            Ok(Progress::Done)
        }
    }
}

/// Goes on with a connection as far as it has come, up to one request or frame, which is then to be given to the node under this
/// number. Whatever its other end does, the node goes on. What is read is read into the piece.
pub fn serve(
    server: &mut Server,
    place: usize,
    piece: &mut [u8; PIECE],
    token: u64,
) -> Result<Option<Came>, Stop>
    ensures comes { IfOk result (λ came. IfSome came (λ came. Comes place token came)) }
    ensures heard { IfOk result (λ came. IfSome came (λ came. IsHeardOf token came.input)) }
    ensures told { IfErr result IsTold }
    ensures clients { KeepsAll (clients_of server.old.parked) (clients_of server.new.parked) }
    ensures asked { IfOk result (λ came. IfSome came (λ came. HasAsked (clients_of server.new.parked) came.input)) }
    ensures carried { CarryOn server.old.connections server.new.connections }
{
    for _ in 0..PIECES {
        let Some(open) = server.connections.take(place) else {
            return Ok(None);
        };
        match go_on_with(server, place, open, piece, token)? {
            Progress::More => {}
            Progress::Done => return Ok(None),
            Progress::Came(came) => return Ok(Some(came)),
        }
    }
    server.connections.call_again(place);
    Ok(None)
}

/// The same of a connection that has just come. It is put to its place, which is kept for it, only where it stays.
pub fn serve_newcomer(
    server: &mut Server,
    place: usize,
    open: Open,
    piece: &mut [u8; PIECE],
    token: u64,
) -> Result<Option<Came>, Stop>
    ensures comes { IfOk result (λ came. IfSome came (λ came. Comes place token came)) }
    ensures heard { IfOk result (λ came. IfSome came (λ came. IsHeardOf token came.input)) }
    ensures told { IfErr result IsTold }
    ensures clients { KeepsAll (clients_of server.old.parked) (clients_of server.new.parked) }
    ensures asked { IfOk result (λ came. IfSome came (λ came. HasAsked (clients_of server.new.parked) came.input)) }
    ensures with_one { turn_of «open».state ≢ turn.Socket → held_at server.old.connections place ≡ None → AllGoOnWith place «open» server.old.connections server.new.connections }
{
    match listen_once(server, place, open, piece, token)? {
        Progress::More => serve(server, place, piece, token),
        Progress::Done => Ok(None),
        Progress::Came(came) => Ok(Some(came)),
    }
}
