//! What has come on the connections, gathered as the next group.

ghost use Rattle.std.specs.Prelude.{◌≡◌, ℕ, None, IfOk, IfErr, IfSome, ◌<◌};
ghost use Rattle.sv_host.specs.Clients.{GathersFor, HasAsked};
ghost use Rattle.sv_host.specs.Group.{Comes, HasMore, IsRising, number_of};
ghost use Rattle.sv_host.specs.Heard.{IsHeardOf};
ghost use Rattle.sv_host.specs.Parked.{clients_of};
ghost use Rattle.sv_host.specs.Serving.{HasGathered};
ghost use Rattle.sv_host.specs.Stops.{IsEnding, IsTold, LacksNumbers};
ghost use Rattle.sv_host.specs.Stories.{CarryOn, IsNewcomer};
ghost use Rattle.sv_net.specs.Bytes.{IsBlank};
ghost use Rattle.sv_net.specs.Places.{held_at};

use crate::fault::Stop;
use crate::group::{Came, GROUP_LIMIT, Group};
use crate::serve::{serve, serve_newcomer};
use crate::server::Server;
use sv_log::Event;
use sv_model::Input;
use sv_net::{Acceptor, Arrival, Open, PIECE, Socket};

/// So many packets of one connection are gathered in a turn, at most.
const PACKETS: u32 = 16;

/// So many who stand at the door are let in in a turn, at most.
const NEWCOMERS: u32 = 64;

/// The number of the next request; after the last there is none.
fn next_number(group: &Group) -> Result<u64, Stop>
    ensures above { IfOk result (λ number. number_of group.now < number) }
    ensures ends { IfErr result (LacksNumbers group.now) }
{
    let number = group.number();
    if number == u64::MAX {
        return Err(Stop::Spent(number));
    }
    Ok(number + 1)
}

/// Drops an input that no step has had, as one step of a proof.
fn let_go(_input: Input) {}

/// Adds what has come on a connection to a group. Where memory is refused who asks is told.
fn add(
    machine: &HostRuntime,
    server: &mut Server,
    group: &mut Group,
    came: Came,
    number: u64,
) -> Result<(), Stop>
    requires comes { (place : ℕ) × Comes place number came }
    requires heard { IsHeardOf number came.input }
    requires asked { HasAsked (clients_of server.old.parked) came.input }
    requires above { number_of group.old < number }
    requires rising { IsRising group.old }
    ensures gathered { HasGathered group.old group.new }
    ensures more { HasMore group.old group.new }
    ensures clients { GathersFor group.old group.new (clients_of server.old.parked) (clients_of server.new.parked) }
    ensures ends { IfErr result (IsEnding server.new group.new) }
    ensures carried { CarryOn server.old.connections server.new.connections }
{
    let Came {
        input,
        asker,
        packets,
    } = came;
    match server.moment(machine) {
        Ok(moment) => {
            if !group.add(moment, input, asker, packets) {
                server.turn_away(asker);
            }
            Ok(())
        }
        Err(stop) => {
            let_go(input);
            Err(stop)
        }
    }
}

/// The same of what may have come; whether anything had.
fn add_some(
    machine: &HostRuntime,
    server: &mut Server,
    group: &mut Group,
    came: Result<Option<Came>, Stop>,
    number: u64,
) -> Result<bool, Stop>
    requires comes { IfOk came (λ came. IfSome came (λ came. (place : ℕ) × Comes place number came)) }
    requires heard { IfOk came (λ came. IfSome came (λ came. IsHeardOf number came.input)) }
    requires asked { IfOk came (λ came. IfSome came (λ came. HasAsked (clients_of server.old.parked) came.input)) }
    requires above { number_of group.old < number }
    requires rising { IsRising group.old }
    ensures gathered { HasGathered group.old group.new }
    ensures more { HasMore group.old group.new }
    ensures clients { GathersFor group.old group.new (clients_of server.old.parked) (clients_of server.new.parked) }
    ensures ends { IfErr came IsTold → IfErr result (IsEnding server.new group.new) }
    ensures carried { CarryOn server.old.connections server.new.connections }
{
    match came {
        Ok(Some(came)) => match add(machine, server, group, came, number) {
            Ok(()) => Ok(true),
            Err(stop) => Err(stop),
        },
        Ok(None) => Ok(false),
        Err(stop) => Err(stop),
    }
}

/// Gathers what has come first on a connection; whether more may have come there for the node: a peer sends packet after packet.
fn gather_one(
    machine: &HostRuntime,
    server: &mut Server,
    group: &mut Group,
    place: usize,
    piece: &mut [u8; PIECE],
) -> Result<bool, Stop>
    requires { IsRising group.old }
    ensures gathered { HasGathered group.old group.new }
    ensures more { HasMore group.old group.new }
    ensures clients { GathersFor group.old group.new (clients_of server.old.parked) (clients_of server.new.parked) }
    ensures ends { IfErr result (IsEnding server.new group.new) }
    ensures carried { CarryOn server.old.connections server.new.connections }
{
    let number = next_number(group)?;
    let came = serve(server, place, piece, number);
    let has_come = add_some(machine, server, group, came, number)?;
    Ok(has_come && server.connections.is_peer(place))
}

/// Gathers what has come on a connection: one request, or some packets.
fn gather_some(
    machine: &HostRuntime,
    server: &mut Server,
    group: &mut Group,
    place: usize,
    piece: &mut [u8; PIECE],
) -> Result<(), Stop>
    requires { IsRising group.old }
    ensures gathered { HasGathered group.old group.new }
    ensures more { HasMore group.old group.new }
    ensures clients { GathersFor group.old group.new (clients_of server.old.parked) (clients_of server.new.parked) }
    ensures ends { IfErr result (IsEnding server.new group.new) }
    ensures carried { CarryOn server.old.connections server.new.connections }
{
    for _ in 0..PACKETS {
        if !gather_one(machine, server, group, place, piece)? {
            return Ok(());
        }
        if group.is_full() {
            break;
        }
    }
    server.connections.call_again(place);
    Ok(())
}

/// Gathers what has come on the connections whose turn it is.
fn gather_reported(
    machine: &HostRuntime,
    server: &mut Server,
    group: &mut Group,
    acceptor: &mut Acceptor,
) -> Result<(), Stop>
    requires { IsRising group.old }
    ensures gathered { HasGathered group.old group.new }
    ensures more { HasMore group.old group.new }
    ensures clients { GathersFor group.old group.new (clients_of server.old.parked) (clients_of server.new.parked) }
    ensures ends { IfErr result (IsEnding server.new group.new) }
    ensures carried { CarryOn server.old.connections server.new.connections }
{
    let mut count: usize = 0;
    let (places, piece) = acceptor.turn();
    for place in places {
        if group.is_full() {
            break;
        }
        gather_some(machine, server, group, *place, piece)?;
        count = count.saturating_add(1);
    }
    acceptor.went_on(count);
    Ok(())
}

/// Says at which place somebody is to be who was accepted; none if there is no memory.
fn receive(machine: &HostRuntime, server: &mut Server, socket: Socket) -> Option<(usize, Open)>
    ensures clients { server.new.parked ≡ server.old.parked }
    ensures carried { CarryOn server.old.connections server.new.connections }
    ensures newcomer { IsBlank socket.stream → IfSome result (λ newcomer. IsNewcomer newcomer.1 × (held_at server.new.connections newcomer.0 ≡ None)) }
{
    server.connections.report.note(Event::Accepted);
    server.connections.look_at_clock(machine);
    let place = server.connections.free_place()?;
    Some((place, Open::new(socket, server.connections.clock())))
}

/// The system has no room for somebody who stands at the door: one that is open gives way, and the next turn tries again.
fn lacks_room(server: &mut Server, acceptor: &mut Acceptor)
    ensures clients { server.new.parked ≡ server.old.parked }
    ensures carried { CarryOn server.old.connections server.new.connections }
{
    server.connections.report.note(Event::NoRoom);
    if acceptor.make_room(&mut server.connections) {
        acceptor.try_again();
    }
}

/// Accepts somebody who may stand at the door, and says at which place; none if nobody stands there, or nobody can be let in.
fn admit(
    machine: &HostRuntime,
    server: &mut Server,
    acceptor: &mut Acceptor,
) -> Option<(usize, Open)>
    ensures clients { server.new.parked ≡ server.old.parked }
    ensures carried { CarryOn server.old.connections server.new.connections }
    ensures newcomer { IfSome result (λ newcomer. IsNewcomer newcomer.1 × (held_at server.new.connections newcomer.0 ≡ None)) }
{
    if !acceptor.may_accept() || !acceptor.has_room(&mut server.connections) {
        return None;
    }
    match acceptor.accept() {
        Arrival::Somebody(socket) => receive(machine, server, socket),
        Arrival::Nobody => None,
        Arrival::NoRoom => {
            lacks_room(server, acceptor);
            None
        }
    }
}

/// Gathers what else has come on a connection, where it is a peer's.
fn gather_behind(
    machine: &HostRuntime,
    server: &mut Server,
    group: &mut Group,
    place: usize,
    piece: &mut [u8; PIECE],
) -> Result<(), Stop>
    requires { IsRising group.old }
    ensures gathered { HasGathered group.old group.new }
    ensures more { HasMore group.old group.new }
    ensures clients { GathersFor group.old group.new (clients_of server.old.parked) (clients_of server.new.parked) }
    ensures ends { IfErr result (IsEnding server.new group.new) }
    ensures carried { CarryOn server.old.connections server.new.connections }
{
    if !server.connections.is_peer(place) {
        return Ok(());
    }
    if group.is_full() {
        server.connections.call_again(place);
        return Ok(());
    }
    gather_some(machine, server, group, place, piece)
}

/// Gathers what has come of one who was accepted, and of whom this place is to be.
fn gather_newcomer(
    machine: &HostRuntime,
    server: &mut Server,
    group: &mut Group,
    newcomer: (usize, Open),
    piece: &mut [u8; PIECE],
) -> Result<(), Stop>
    requires { IsRising group.old }
    ensures gathered { HasGathered group.old group.new }
    ensures more { HasMore group.old group.new }
    ensures clients { GathersFor group.old group.new (clients_of server.old.parked) (clients_of server.new.parked) }
    ensures ends { IfErr result (IsEnding server.new group.new) }
    ensures carried { IsNewcomer newcomer.1 → held_at server.old.connections newcomer.0 ≡ None → CarryOn server.old.connections server.new.connections }
{
    let (place, open) = newcomer;
    let number = next_number(group)?;
    let came = serve_newcomer(server, place, open, piece, number);
    if add_some(machine, server, group, came, number)? {
        gather_behind(machine, server, group, place, piece)
    } else {
        Ok(())
    }
}

/// Gathers what has come of one who was accepted, if there is room for it in the group. Else they are gone on with in the next turn,
/// once all have been who wait already: so however many ask without end, each of them is answered once or twice before.
fn take_in(
    machine: &HostRuntime,
    server: &mut Server,
    group: &mut Group,
    newcomer: (usize, Open),
    piece: &mut [u8; PIECE],
) -> Result<(), Stop>
    requires { IsRising group.old }
    ensures gathered { HasGathered group.old group.new }
    ensures more { HasMore group.old group.new }
    ensures clients { GathersFor group.old group.new (clients_of server.old.parked) (clients_of server.new.parked) }
    ensures ends { IfErr result (IsEnding server.new group.new) }
    ensures carried { IsNewcomer newcomer.1 → held_at server.old.connections newcomer.0 ≡ None → CarryOn server.old.connections server.new.connections }
{
    if group.len() < GROUP_LIMIT {
        return gather_newcomer(machine, server, group, newcomer, piece);
    }
    let (place, open) = newcomer;
    server.connections.put_off(place, open);
    Ok(())
}

/// Lets those in who stand at the door, and gathers what has come of them, of as many as there is room for in the group.
fn gather_door(
    machine: &HostRuntime,
    server: &mut Server,
    group: &mut Group,
    acceptor: &mut Acceptor,
) -> Result<(), Stop>
    requires { IsRising group.old }
    ensures gathered { HasGathered group.old group.new }
    ensures more { HasMore group.old group.new }
    ensures clients { GathersFor group.old group.new (clients_of server.old.parked) (clients_of server.new.parked) }
    ensures ends { IfErr result (IsEnding server.new group.new) }
    ensures carried { CarryOn server.old.connections server.new.connections }
{
    for _ in 0..NEWCOMERS {
        let Some(newcomer) = admit(machine, server, acceptor) else {
            return Ok(());
        };
        take_in(machine, server, group, newcomer, acceptor.piece())?;
        acceptor.look_at_door(&mut server.connections);
    }
    Ok(())
}

/// Gathers what has come of all whose turn it is, and of those who have come.
pub fn gather(
    machine: &HostRuntime,
    server: &mut Server,
    group: &mut Group,
    acceptor: &mut Acceptor,
) -> Result<(), Stop>
    requires { IsRising group.old }
    ensures gathered { HasGathered group.old group.new }
    ensures more { HasMore group.old group.new }
    ensures clients { GathersFor group.old group.new (clients_of server.old.parked) (clients_of server.new.parked) }
    ensures ends { IfErr result (IsEnding server.new group.new) }
    ensures carried { CarryOn server.old.connections server.new.connections }
{
    gather_reported(machine, server, group, acceptor)?;
    gather_door(machine, server, group, acceptor)
}
