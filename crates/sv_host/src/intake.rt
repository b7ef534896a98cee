//! What is done with what has come on a connection.

ghost use Rattle.std.specs.Prelude.{◌≡◌, ◌++◌, ◌∷◌, [], false, Some, IfOk, IfErr, IfSome, IfNone, OnErr, OnOk, ℕ, ◌<◌, List};
ghost use Rattle.std.specs.Option.{option_map};
ghost use Rattle.sv_model.specs.Method.{is_head};
ghost use Rattle.sv_net.specs.Places.{elsewhere, held_at, places_of};
ghost use Rattle.sv_net.specs.declared.state.State.TheVariants.{Waiting};
ghost use Rattle.sv_record.specs.Frame.{IsFrame};
ghost use Rattle.sv_record.specs.declared.frame.Frame.TheVariants.{Halt as HaltFrame};
ghost use Rattle.sv_model.specs.declared.input.Input.TheVariants.{Ask, Packet as PacketInput};
ghost use Rattle.sv_host.specs.Clients.{HasAsked, KeepsAll};
ghost use Rattle.sv_host.specs.Group.{Comes};
ghost use Rattle.sv_host.specs.Parked.{clients_of, IsFull};
ghost use Rattle.sv_host.specs.Peers.{came_of};
ghost use Rattle.sv_host.specs.Heard.{input_of};
ghost use Rattle.sv_connection.specs.Connection.{held_by};
ghost use Rattle.sv_host.specs.Serve.{HearsNoMore, IsBehindFrame, IsSilent, StandsBy};
ghost use Rattle.sv_host.specs.Stops.{IsToldBy};
ghost use Rattle.sv_net.specs.Bytes.{came_of as socket_came};
ghost use Rattle.sv_host.specs.declared.group.Asker.TheVariants.{Client as ClientAsker, Command, Nobody};
ghost use Rattle.sv_host.specs.declared.packets.Packets.TheVariants.{All};
ghost use Rattle.sv_host.specs.declared.parked.ParkedClient.{ParkedClient};

use crate::fault::Stop;
use crate::group::{Asker, Came};
use crate::packets::Packets;
use crate::parked::ParkedClient;
use crate::server::Server;
use sv_connection::RequestFault;
use sv_log::Event;
use sv_model::{Input, Packet, Request, is_head};
use sv_net::{Client, Next, Peer, Socket, State, name_of};
use sv_record::Frame;

/// A connection that was taken from its place, which is kept for it.
#[derive(Drop)]
pub struct Lifted {
    pub place: usize,
    pub socket: Socket,
}

/// Keeps a client for the answer to its request, which is to be given to the node. Where there is no memory to keep it, its
/// connection is closed, and the node isn't asked.
pub fn ask(
    server: &mut Server,
    from: Lifted,
    client: Client,
    request: Request,
    token: u64,
) -> Option<Came>
    ensures comes { IfSome result (λ came. Comes from.place token came) }
    ensures full { IfNone result (IsFull server.old.parked) }
    ensures parked { IfSome result (λ came. clients_of server.new.parked ≡ clients_of server.old.parked ++ (record { token = token; place = from.place })
        ∷ []) }
    ensures stands { IfSome result (λ came. IfSome (held_at server.new.connections from.place)
        (λ held. held.state ≡ Waiting client (is_head request.method) request.close token false)) }
    ensures came { IfSome result (λ came. came ≡ record { input = Ask token request; asker = ClientAsker from.place token; packets = All }) }
    ensures clients { KeepsAll (clients_of server.old.parked) (clients_of server.new.parked) }
    ensures asked { IfSome result (λ came. HasAsked (clients_of server.new.parked) came.input) }
    ensures left { StandsBy from.place from.socket (IsSilent (held_by client.connection)) server.old.connections server.new.connections }
    ensures others { elsewhere from.place server.new.connections ≡ elsewhere from.place server.old.connections }
{
    let Lifted { place, socket } = from;
    if !server.parked.add(ParkedClient { token, place }) {
        server.connections.leave(place);
        return None;
    }
    let head_only = is_head(&request.method);
    let close = request.close;
    server.connections.begin(
        place,
        socket,
        State::Waiting {
            client,
            head_only,
            close,
            token,
            silent: false,
        },
    );
    Some(Came {
        input: Input::Ask { token, request },
        asker: Asker::Client { place, token },
        packets: Packets::All,
    })
}

/// Writes the page of a fault, and parts from the client.
pub fn refuse(
    server: &mut Server,
    from: Lifted,
    client: Client,
    fault: RequestFault,
    head_only: bool,
)
    ensures clients { server.new.parked ≡ server.old.parked }
    ensures socket { HearsNoMore from.place from.socket server.old.connections server.new.connections }
    ensures others { elsewhere from.place server.new.connections ≡ elsewhere from.place server.old.connections }
{
    let Lifted { place, socket } = from;
    let mut client = client;
    server.text.clear();
    let now = server.time.seconds();
    let _ = client
        .connection
        .refuse(&mut server.text, fault, head_only, now);
    server.connections.report.note(Event::BadRequest {
        fault: name_of(fault),
    });
    server
        .connections
        .say(place, socket, &mut server.text, Next::Part);
}

/// Tells a byte at once. Whoever gave the command may have gone away.
fn tell(server: &Server, socket: &mut Socket, byte: u8)
    ensures { socket_came socket.new ≡ socket_came socket.old }
{
    let mut text = Vec::new(server.alloc);
    if text.push(byte).is_ok() {
        let _ = socket.write(&mut text);
    }
}

/// Keeps the connection of a node for what it sends after its packet, which is to be given to the node here.
fn receive(server: &mut Server, from: Lifted, packet: Packet, rest: Vec<u8>) -> Option<Came>
    ensures came { result ≡ Some (record { input = PacketInput packet; asker = Nobody; packets = All }) }
    ensures clients { server.new.parked ≡ server.old.parked }
    ensures left { StandsBy from.place from.socket (IsSilent rest.items) server.old.connections server.new.connections }
    ensures others { elsewhere from.place server.new.connections ≡ elsewhere from.place server.old.connections }
{
    let Lifted { place, socket } = from;
    let peer = Peer {
        node: packet.sender(),
        bytes: rest,
    };
    server.connections.begin(place, socket, peer.taken());
    Some(Came {
        input: Input::Packet(packet),
        asker: Asker::Nobody,
        packets: Packets::All,
    })
}

/// The same of a node whose packets are taken; one of another is a packet that is lost, and its connection is closed.
fn take_packet(server: &mut Server, from: Lifted, packet: Packet, rest: Vec<u8>) -> Option<Came>
    ensures came { result ≡ came_of server.old.peers packet }
    ensures clients { server.new.parked ≡ server.old.parked }
    ensures left { StandsBy from.place from.socket (IsSilent rest.items) server.old.connections server.new.connections }
    ensures others { elsewhere from.place server.new.connections ≡ elsewhere from.place server.old.connections }
{
    let node = packet.sender();
    if server.peers.takes(node) {
        return receive(server, from, packet, rest);
    }
    server
        .connections
        .report
        .note(Event::PacketRefused { from: node });
    server.connections.leave(from.place);
    None
}

/// Keeps whoever gave a command for the answer to it.
fn obey(server: &mut Server, from: Lifted, input: Input, packets: Packets) -> Option<Came>
    ensures came { result ≡ Some (record { input = input; asker = Command from.place; packets = packets }) }
    ensures clients { server.new.parked ≡ server.old.parked }
    ensures left { StandsBy from.place from.socket (IsSilent []) server.old.connections server.new.connections }
    ensures others { elsewhere from.place server.new.connections ≡ elsewhere from.place server.old.connections }
{
    let Lifted { place, socket } = from;
    server.connections.begin(place, socket, State::Ordering);
    Some(Came {
        input,
        asker: Asker::Command(place),
        packets,
    })
}

/// What a frame has for the node.
pub fn take_frame(
    server: &mut Server,
    from: Lifted,
    frame: Frame,
    rest: Vec<u8>,
) -> Result<Option<Came>, Stop>
    requires { IsFrame frame }
    ensures comes { (number : ℕ) → IfOk result (λ came. IfSome came (λ came. Comes from.place number came)) }
    ensures input { IfOk result (λ came. option_map (λ came. came.input) came ≡ input_of server.old.peers frame) }
    ensures told { IfErr result (λ stop. (frame ≡ HaltFrame) × IsToldBy from.socket stop) }
    ensures halted { OnErr result (places_of server.new.connections ≡ places_of server.old.connections) }
    ensures clients { server.new.parked ≡ server.old.parked }
    ensures left { OnOk result (StandsBy from.place from.socket (IsBehindFrame rest.items) server.old.connections server.new.connections) }
    ensures others { OnOk result (elsewhere from.place server.new.connections ≡ elsewhere from.place server.old.connections) }
    ensures asked { (clients : List ParkedClient) → IfOk result (λ came. IfSome came (λ came. HasAsked clients came.input)) }
{
    match frame {
        Frame::Peer(packet) => Ok(take_packet(server, from, packet, rest)),
        Frame::Move { key, to } => {
            server
                .connections
                .report
                .note(Event::MoveOrdered { key, to });
            Ok(obey(server, from, Input::Move { key, to }, Packets::All))
        }
        Frame::Tick => Ok(obey(server, from, Input::Tick, Packets::InTurn)),
        Frame::Halt => {
            let mut socket = from.socket;
            server.connections.report.note(Event::HaltOrdered);
            tell(server, &mut socket, 0);
            Err(Stop::Told(socket))
        }
    }
}
