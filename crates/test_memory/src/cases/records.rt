//! Records, packets and frames, read and written.

use crate::again::{Refusals, Unshown, again, done};
use std::alloc::{AllocError, Global};
use sv_record::{
    RecordFault, read_frame, read_packet, read_record, write_frame, write_packet, write_record,
};

type Shown = Result<String, Unshown>;

/// A session of context 0 with the attribute `count`, whose value is `1`.
const SESSION: &[u8] =
    b"\x00\x00\x00\x00\x00\x00\x00\x00\x00\x00\x00\x00\x00\x00\x00\x01\x00\x00\x00\x00\x00\x00\x00\x03\xe8\x00\x00\x00\x00\x00\x00\x03\xe8\x00\x00\x07\x08\x01\x00\x01\x00\x05count\x00\x00\x00\x011";

/// The record that makes it, up to the session.
const COMMIT: &[u8] = b"\x02\x02\x00\x01\x00\x00\x00\x00\x00\x00\x00\x00\x01";

/// The packet from node 0 to node 1 that grants it under epoch 2, up to the session.
const GRANT: &[u8] =
    b"\x02\x02\x00\x01\x00\x00\x00\x00\x00\x00\x00\x00\x01\x00\x00\x00\x00\x00\x00\x00\x02";

/// A frame of this packet, up to the packet.
const FRAME: &[u8] = b"\xe1\x00\x00\x00\x49";

fn joined(alloc: Global, parts: &[&[u8]]) -> Result<Vec<u8>, AllocError> {
    let mut bytes = Vec::new(alloc);
    for part in parts {
        bytes.extend_from_slice(part)?;
    }
    Ok(bytes)
}

fn digits(alloc: Global, bytes: &[u8]) -> Result<String, AllocError> {
    format!(in alloc; "{bytes:?}")
}

/// Reads a record, and writes it after what stands there.
fn record_again(alloc: Global, bytes: &[u8], out: &mut Vec<u8>) -> Result<(), RecordFault> {
    let record = read_record(alloc, bytes)?;
    write_record(&record, out)?;
    Ok(())
}

pub fn record(alloc: Global, refusals: &mut Refusals) -> Shown {
    let bytes = joined(alloc, &[COMMIT, SESSION])?;
    let mut out = joined(alloc, &[b"before"])?;
    again!(refusals, record_again(alloc, &bytes, &mut out))?;
    done(digits(alloc, &out))
}

/// Reads a packet, and writes it after what stands there.
fn packet_again(alloc: Global, bytes: &[u8], out: &mut Vec<u8>) -> Result<(), RecordFault> {
    let packet = read_packet(alloc, bytes)?;
    write_packet(&packet, out)?;
    Ok(())
}

pub fn packet(alloc: Global, refusals: &mut Refusals) -> Shown {
    let bytes = joined(alloc, &[GRANT, SESSION])?;
    let mut out = joined(alloc, &[b"before"])?;
    again!(refusals, packet_again(alloc, &bytes, &mut out))?;
    done(digits(alloc, &out))
}

/// Reads a frame, and writes it after what stands there.
fn frame_again(alloc: Global, bytes: &[u8], out: &mut Vec<u8>) -> Result<(), RecordFault> {
    match read_frame(alloc, bytes)? {
        Some((frame, _)) => Ok(write_frame(&frame, out)?),
        None => Ok(()),
    }
}

pub fn frame(alloc: Global, refusals: &mut Refusals) -> Shown {
    let bytes = joined(alloc, &[FRAME, GRANT, SESSION])?;
    let mut out = joined(alloc, &[b"before"])?;
    again!(refusals, frame_again(alloc, &bytes, &mut out))?;
    done(digits(alloc, &out))
}
