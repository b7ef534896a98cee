//! What stands after the version of a packet: its kind, the nodes and its fields.

ghost use Rattle.std.specs.Prelude.{◌≡◌, ◌++◌, length, take, OnOk, OnErr};
ghost use Rattle.sv_model.specs.declared.packet.Packet.TheVariants.{Want, Grant, Ack, No};
ghost use Rattle.sv_model.specs.Keys.{IsKey, IsNode};
ghost use Rattle.sv_model.specs.Ranges.{IsPacket};
ghost use Rattle.sv_record.specs.Reading.{Gives};
ghost use Rattle.sv_record.specs.Packet.{asked, by_kind, ends, errand, packet_format};
ghost use Rattle.sv_record.specs.declared.version.Version.TheVariants.{One, Two};

use crate::fault::RecordFault;
use crate::key::{read_key, write_key};
use crate::number::{
    read_byte, read_counting, read_node, read_u64, write_byte, write_counting, write_node,
    write_u64,
};
use crate::session::{read_session, write_session};
use crate::version::Version;
use std::alloc::{AllocError, Global};
use sv_model::{Key, Packet, Session};

#[tactic(auto, unfolding(crate::specs::Packet::packet_format))]
pub(crate) fn read_fields(
    alloc: Global,
    version: Version,
    bytes: &[u8],
) -> Result<(Packet, &[u8]), RecordFault>
    ensures { Gives (λ x. (x.0, x.1.now)) result ((packet_format version).read bytes.now) }
{
    let (kind, rest) = read_byte(bytes)?;
    read_kind(alloc, version, kind, rest)
}

/// What a packet of this kind has after the kind.
fn read_kind(
    alloc: Global,
    version: Version,
    kind: u8,
    bytes: &[u8],
) -> Result<(Packet, &[u8]), RecordFault>
    ensures { Gives (λ x. (x.0, x.1.now)) result (by_kind version kind bytes.now) }
{
    match kind {
        1 => read_want(bytes),
        2 => read_grant(alloc, version, bytes),
        3 => read_ack(bytes),
        4 => read_no(bytes),
        _ => Err(RecordFault::Foreign),
    }
}

// A kind without a session is read the same by each version.
fn read_want(bytes: &[u8]) -> Result<(Packet, &[u8]), RecordFault>
    ensures { Gives (λ x. (x.0, x.1.now)) result (by_kind One 1 bytes.now) }
{
    let ((from, to, key, boot, want), rest) = read_asked(bytes)?;
    let packet = Packet::Want {
        from,
        to,
        key,
        boot,
        want,
    };
    Ok((packet, rest))
}

fn read_grant(alloc: Global, version: Version, bytes: &[u8]) -> Result<(Packet, &[u8]), RecordFault>
    ensures { Gives (λ x. (x.0, x.1.now)) result (by_kind version 2 bytes.now) }
{
    let ((from, to), rest) = read_ends(bytes)?;
    let (key, rest) = read_key(rest)?;
    let (epoch, rest) = read_counting(rest)?;
    let (session, rest) = read_session(alloc, version, rest)?;
    let packet = Packet::Grant {
        from,
        to,
        key,
        epoch,
        session,
    };
    Ok((packet, rest))
}

fn read_ack(bytes: &[u8]) -> Result<(Packet, &[u8]), RecordFault>
    ensures { Gives (λ x. (x.0, x.1.now)) result (by_kind One 3 bytes.now) }
{
    let ((from, to), rest) = read_ends(bytes)?;
    let (key, rest) = read_key(rest)?;
    let (epoch, rest) = read_counting(rest)?;
    let packet = Packet::Ack {
        from,
        to,
        key,
        epoch,
    };
    Ok((packet, rest))
}

fn read_no(bytes: &[u8]) -> Result<(Packet, &[u8]), RecordFault>
    ensures { Gives (λ x. (x.0, x.1.now)) result (by_kind One 4 bytes.now) }
{
    let ((from, to, key, boot, want), rest) = read_asked(bytes)?;
    let packet = Packet::No {
        from,
        to,
        key,
        boot,
        want,
    };
    Ok((packet, rest))
}

/// The sender and the addressee.
fn read_ends(bytes: &[u8]) -> Result<((u8, u8), &[u8]), RecordFault>
    ensures { Gives (λ x. (x.0, x.1.now)) result (ends.read bytes.now) }
{
    let (from, rest) = read_node(bytes)?;
    let (to, rest) = read_node(rest)?;
    Ok(((from, to), rest))
}

/// The sender, the addressee and the key of a want, and its number since that boot.
fn read_asked(bytes: &[u8]) -> Result<((u8, u8, Key, u64, u64), &[u8]), RecordFault>
    ensures { Gives (λ x. (((x.0.0, x.0.1), (x.0.2, (x.0.3, x.0.4))), x.1.now)) result (asked.read bytes.now) }
{
    let ((from, to), rest) = read_ends(bytes)?;
    let (key, rest) = read_key(rest)?;
    let (boot, rest) = read_u64(rest)?;
    let (want, rest) = read_u64(rest)?;
    Ok(((from, to, key, boot, want), rest))
}

#[tactic(auto, unfolding(crate::specs::Packet::packet_format))]
pub(crate) fn write_fields(packet: &Packet, out: &mut Vec<u8>) -> Result<(), AllocError>
    requires { IsPacket packet.now }
    ensures ok { OnOk result (out.new.items ≡ out.old.items ++ (packet_format Two).text packet.now) }
    ensures fits { OnOk result ((packet_format Two).Fits packet.now) }
    ensures err { OnErr result (take (length out.old.items) out.new.items ≡ out.old.items) }
{
    match packet {
        Packet::Want {
            from,
            to,
            key,
            boot,
            want,
        } => write_want(*from, *to, *key, *boot, *want, out),
        Packet::Grant {
            from,
            to,
            key,
            epoch,
            session,
        } => write_grant(*from, *to, *key, *epoch, session, out),
        Packet::Ack {
            from,
            to,
            key,
            epoch,
        } => write_ack(*from, *to, *key, *epoch, out),
        Packet::No {
            from,
            to,
            key,
            boot,
            want,
        } => write_no(*from, *to, *key, *boot, *want, out),
    }
}

#[tactic(auto, unfolding(crate::specs::Packet::packet_format))]
fn write_want(
    from: u8,
    to: u8,
    key: Key,
    boot: u64,
    want: u64,
    out: &mut Vec<u8>,
) -> Result<(), AllocError>
    requires { IsPacket (Want from to key boot want) }
    ensures ok { OnOk result (out.new.items ≡ out.old.items ++ (packet_format Two).text (Want from to key boot want)) }
    ensures fits { OnOk result ((packet_format Two).Fits (Want from to key boot want)) }
    ensures err { OnErr result (take (length out.old.items) out.new.items ≡ out.old.items) }
{
    write_byte(1, out)?;
    write_ends(from, to, out)?;
    write_errand(key, boot, want, out)
}

#[tactic(auto, unfolding(crate::specs::Packet::packet_format))]
fn write_grant(
    from: u8,
    to: u8,
    key: Key,
    epoch: u64,
    session: &Session,
    out: &mut Vec<u8>,
) -> Result<(), AllocError>
    requires { IsPacket (Grant from to key epoch session.now) }
    ensures ok { OnOk result (out.new.items ≡ out.old.items ++ (packet_format Two).text (Grant from to key epoch session.now)) }
    ensures fits { OnOk result ((packet_format Two).Fits (Grant from to key epoch session.now)) }
    ensures err { OnErr result (take (length out.old.items) out.new.items ≡ out.old.items) }
{
    write_byte(2, out)?;
    write_ends(from, to, out)?;
    write_key(key, out)?;
    write_counting(epoch, out)?;
    write_session(session, out)
}

#[tactic(auto, unfolding(crate::specs::Packet::packet_format))]
fn write_ack(from: u8, to: u8, key: Key, epoch: u64, out: &mut Vec<u8>) -> Result<(), AllocError>
    requires { IsPacket (Ack from to key epoch) }
    ensures ok { OnOk result (out.new.items ≡ out.old.items ++ (packet_format Two).text (Ack from to key epoch)) }
    ensures fits { OnOk result ((packet_format Two).Fits (Ack from to key epoch)) }
    ensures err { OnErr result (take (length out.old.items) out.new.items ≡ out.old.items) }
{
    write_byte(3, out)?;
    write_ends(from, to, out)?;
    write_key(key, out)?;
    write_counting(epoch, out)
}

#[tactic(auto, unfolding(crate::specs::Packet::packet_format))]
fn write_no(
    from: u8,
    to: u8,
    key: Key,
    boot: u64,
    want: u64,
    out: &mut Vec<u8>,
) -> Result<(), AllocError>
    requires { IsPacket (No from to key boot want) }
    ensures ok { OnOk result (out.new.items ≡ out.old.items ++ (packet_format Two).text (No from to key boot want)) }
    ensures fits { OnOk result ((packet_format Two).Fits (No from to key boot want)) }
    ensures err { OnErr result (take (length out.old.items) out.new.items ≡ out.old.items) }
{
    write_byte(4, out)?;
    write_ends(from, to, out)?;
    write_errand(key, boot, want, out)
}

fn write_ends(from: u8, to: u8, out: &mut Vec<u8>) -> Result<(), AllocError>
    requires { IsNode from × IsNode to }
    ensures ok { OnOk result (out.new.items ≡ out.old.items ++ ends.text (from, to)) }
    ensures fits { OnOk result (ends.Fits (from, to)) }
    ensures err { OnErr result (take (length out.old.items) out.new.items ≡ out.old.items) }
{
    write_node(from, out)?;
    write_node(to, out)
}

fn write_errand(key: Key, boot: u64, want: u64, out: &mut Vec<u8>) -> Result<(), AllocError>
    requires { IsKey key }
    ensures ok { OnOk result (out.new.items ≡ out.old.items ++ errand.text (key, (boot, want))) }
    ensures fits { OnOk result (errand.Fits (key, (boot, want))) }
    ensures err { OnErr result (take (length out.old.items) out.new.items ≡ out.old.items) }
{
    write_key(key, out)?;
    write_u64(boot, out)?;
    write_u64(want, out)
}
