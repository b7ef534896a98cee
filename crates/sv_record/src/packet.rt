//! The packets between nodes.

ghost use Rattle.std.specs.Prelude.{◌≡◌, ◌++◌, length, take, IfOk, OnOk, OnErr, Ok};
ghost use Rattle.sv_model.specs.declared.packet.Packet.{Packet};
ghost use Rattle.sv_model.specs.Ranges.{IsPacket};
ghost use Rattle.sv_record.specs.Reading.{Gives};
ghost use Rattle.sv_record.specs.Packet.{HasSpelling, IsSpelling, packet_of, spelling};

use crate::fault::RecordFault;
use crate::number::write_byte;
use crate::packet_fields::{read_fields, write_fields};
use crate::version::read_version;
use std::alloc::{AllocError, Global};
use sv_model::Packet;

/// Reads a packet, which is all of the bytes.
///
/// The bytes are judged one by one in their order, and the first trouble decides. Memory is taken in proportion to
/// them.
pub fn read_packet(alloc: Global, bytes: &[u8]) -> Result<Packet, RecordFault>
    // The bytes are a spelling of what is read, by the version that the first of them names.
    ensures found { IfOk result (λ p. IsSpelling bytes.now p) }
    // And may be written again.
    ensures within { IfOk result (λ p. IsPacket p) }
    // What they are a spelling of is read, unless memory is refused.
    ensures only { (p : Packet) → IsSpelling bytes.now p → Gives (λ x. x) result (Ok p) }
    // A fault is the first trouble.
    ensures exact { Gives (λ p. p) result (packet_of bytes.now) }
{
    read_whole(alloc, bytes)
}

fn read_whole(alloc: Global, bytes: &[u8]) -> Result<Packet, RecordFault>
    ensures { Gives (λ p. p) result (packet_of bytes.now) }
{
    let (version, rest) = read_version(bytes)?;
    let (packet, rest) = read_fields(alloc, version, rest)?;
    if !rest.is_empty() {
        return Err(RecordFault::BadField);
    }
    Ok(packet)
}

/// Adds a packet to the bytes, by the newest version. Where memory is refused the bytes are as before.
///
/// Its numbers of nodes are below 8, its epoch and serial not 0, and its session is within the limits.
pub fn write_packet(packet: &Packet, out: &mut Vec<u8>) -> Result<(), AllocError>
    requires { IsPacket packet.now }
    ensures ok { OnOk result (out.new.items ≡ out.old.items ++ spelling packet.now) }
    ensures fits { OnOk result (HasSpelling packet.now) }
    ensures err { OnErr result (out.new.items ≡ out.old.items) }
{
    let len = out.len();
    let written = write_whole(packet, out);
    if written.is_err() {
        out.truncate(len);
    }
    written
}

fn write_whole(packet: &Packet, out: &mut Vec<u8>) -> Result<(), AllocError>
    requires { IsPacket packet.now }
    ensures ok { OnOk result (out.new.items ≡ out.old.items ++ spelling packet.now) }
    ensures fits { OnOk result (HasSpelling packet.now) }
    ensures err { OnErr result (take (length out.old.items) out.new.items ≡ out.old.items) }
{
    write_byte(2, out)?;
    write_fields(packet, out)
}
