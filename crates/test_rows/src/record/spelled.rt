//! Records and packets: what bytes say, and that a copy of it is spelled so.

ghost use Rattle.sv_model.specs.Ranges.{IsPacket, IsRecord};

use crate::digits::bytes_of_digits;
use crate::fault::RowFault;
use crate::record::shown::{packet_text, record_text};
use crate::record::{judged, longer};
use crate::row::first;
use std::alloc::{AllocError, Global};
use sv_model::{Packet, Record};
use sv_record::{RecordFault, read_packet, read_record, write_packet, write_record};

fn spelled_record(alloc: Global, entry: &Record) -> Result<Vec<u8>, RecordFault>
    requires { IsRecord entry.now }
{
    let mut spelled = Vec::new(alloc);
    write_record(entry, &mut spelled)?;
    Ok(spelled)
}

/// The spelling of a copy of a record.
fn copied_record(alloc: Global, entry: &Record) -> Result<Vec<u8>, RecordFault>
    requires { IsRecord entry.now }
{
    let copy = entry.copy(alloc)?;
    spelled_record(alloc, &copy)
}

fn spelled_packet(alloc: Global, packet: &Packet) -> Result<Vec<u8>, RecordFault>
    requires { IsPacket packet.now }
{
    let mut spelled = Vec::new(alloc);
    write_packet(packet, &mut spelled)?;
    Ok(spelled)
}

/// The spelling of a copy of a packet.
fn copied_packet(alloc: Global, packet: &Packet) -> Result<Vec<u8>, RecordFault>
    requires { IsPacket packet.now }
{
    let copy = packet.copy(alloc)?;
    spelled_packet(alloc, &copy)
}

/// What has a spelling in bytes.
pub trait Spelled: Drop {
    /// What is read of bytes, and the spelling of its copy.
    fn again(alloc: Global, bytes: &[u8]) -> Result<(Self, Vec<u8>), RecordFault>;

    /// All that it says.
    fn text(&self, alloc: Global) -> Result<String, AllocError>;
}

impl Spelled for Record {
    fn again(alloc: Global, bytes: &[u8]) -> Result<(Record, Vec<u8>), RecordFault> {
        let record = read_record(alloc, bytes)?;
        let again = copied_record(alloc, &record)?;
        Ok((record, again))
    }

    fn text(&self, alloc: Global) -> Result<String, AllocError> {
        record_text(alloc, self)
    }
}

impl Spelled for Packet {
    fn again(alloc: Global, bytes: &[u8]) -> Result<(Packet, Vec<u8>), RecordFault> {
        let packet = read_packet(alloc, bytes)?;
        let again = copied_packet(alloc, &packet)?;
        Ok((packet, again))
    }

    fn text(&self, alloc: Global) -> Result<String, AllocError> {
        packet_text(alloc, self)
    }
}

/// Why bytes can't be read, if so.
fn fault_of<S: Spelled>(alloc: Global, bytes: &[u8]) -> Option<RecordFault> {
    match S::again(alloc, bytes) {
        Ok(_) => None,
        Err(fault) => Some(fault),
    }
}

/// The first place where the bytes, cut there, aren't answered that they are cut.
fn other_cut<S: Spelled>(alloc: Global, bytes: &[u8]) -> Option<usize> {
    for end in 0..bytes.len() {
        if fault_of::<S>(alloc, &bytes[..end]) != Some(RecordFault::Truncated) {
            return Some(end);
        }
    }
    None
}

fn told_of<S: Spelled>(
    alloc: Global,
    value: &S,
    is_spelled: bool,
    cut: Option<usize>,
) -> Result<String, AllocError> {
    let text = value.text(alloc)?;
    judged(alloc, &text, is_spelled, cut)
}

/// What bytes say, which have to be spelled so when they are written.
fn told<S: Spelled>(alloc: Global, bytes: &[u8], spelled: &[u8]) -> Result<String, AllocError> {
    match S::again(alloc, bytes) {
        Ok((value, again)) => {
            let is_spelled = again.as_slice() == spelled;
            told_of(alloc, &value, is_spelled, other_cut::<S>(alloc, bytes))
        }
        Err(fault) => format!(in alloc; "{fault:?}"),
    }
}

/// Whether a byte after what is read is refused.
fn is_refused_longer<S: Spelled>(alloc: Global, bytes: &[u8]) -> Result<bool, AllocError> {
    let more = longer(alloc, bytes)?;
    Ok(
        fault_of::<S>(alloc, bytes).is_some()
            || fault_of::<S>(alloc, &more) == Some(RecordFault::BadField),
    )
}

/// What the bytes of a row say.
pub fn now<S: Spelled>(alloc: Global, parts: &str) -> Result<String, RowFault> {
    let bytes = bytes_of_digits(alloc, parts)?;
    if !is_refused_longer::<S>(alloc, &bytes)? {
        return Ok(String::from_str(alloc, "read with a byte behind")?);
    }
    Ok(told::<S>(alloc, &bytes, &bytes)?)
}

/// What bytes by version 1 say; the second part is its spelling by version 2.
pub fn old<S: Spelled>(alloc: Global, parts: &str) -> Result<String, RowFault> {
    let (old, now) = first(parts);
    let old = bytes_of_digits(alloc, old)?;
    let now = bytes_of_digits(alloc, now)?;
    Ok(told::<S>(alloc, &old, &now)?)
}
