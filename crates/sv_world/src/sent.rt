//! Which packets were sent.

ghost use Rattle.std.specs.Prelude.{◌≡◌, drop};
ghost use Rattle.std.specs.Bool.{Decides};
ghost use Rattle.std.specs.List.{list_any};
ghost use Rattle.sv_world.specs.Sent.{same_packet, may_come};

use sv_model::{Input, Packet};

/// The two are equal.
fn is_same(one: &Packet, other: &Packet) -> bool
    ensures { Decides result (one.now ≡ other.now) }
{
    match (one, other) {
        (
            Packet::Want {
                from,
                to,
                key,
                boot,
                want,
            },
            Packet::Want {
                from: f,
                to: t,
                key: k,
                boot: b,
                want: w,
            },
        ) => from == f && to == t && key == k && boot == b && want == w,
        (
            Packet::Grant {
                from,
                to,
                key,
                epoch,
                session,
            },
            Packet::Grant {
                from: f,
                to: t,
                key: k,
                epoch: e,
                session: s,
            },
        ) => from == f && to == t && key == k && epoch == e && session.is_same(s),
        (
            Packet::Ack {
                from,
                to,
                key,
                epoch,
            },
            Packet::Ack {
                from: f,
                to: t,
                key: k,
                epoch: e,
            },
        ) => from == f && to == t && key == k && epoch == e,
        (
            Packet::No {
                from,
                to,
                key,
                boot,
                want,
            },
            Packet::No {
                from: f,
                to: t,
                key: k,
                boot: b,
                want: w,
            },
        ) => from == f && to == t && key == k && boot == b && want == w,
        _ => false,
    }
}

/// The two are equal, by the definition's own test.
fn is_packet(one: &Packet, other: &Packet) -> bool
    ensures { result ≡ same_packet one.now other.now }
{
    is_same(one, other)
}

/// One of the packets is this.
pub fn was_sent(packets: &[Packet], packet: &Packet) -> bool
    ensures { result ≡ list_any (same_packet packet.now) packets.now }
{
    for sent in packets {
        if is_packet(packet, sent) {
            return true;
        }
    }
    false
}

/// An input is one of the packets, or no packet.
pub fn may_come(packets: &[Packet], input: &Input) -> bool
    ensures { result ≡ may_come packets.now input.now }
{
    match input {
        Input::Packet(packet) => was_sent(packets, packet),
        Input::Ask { .. } | Input::Poke | Input::Tick | Input::Move { .. } => true,
    }
}
