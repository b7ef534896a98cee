//! Frames: what travels on a connection between nodes, and from whoever commands a node.

ghost use Rattle.std.specs.Prelude.{◌≡◌, ◌≤◌, ◌+◌, ◌++◌, List, ℕ, length, take, drop, IfOk, IfErr, IfSome, IfNone, OnOk, OnErr, Ok, Some, None, option_copied};
ghost use Rattle.std.specs.Int.{w32, to_be_bytes};
ghost use Rattle.sv_record.specs.Frame.{IsFrame};
ghost use Rattle.sv_record.specs.Reading.{Gives};
ghost use Rattle.sv_record.specs.Frame.{HasSpelling, IsFront, IsSpelling, command_at, command_by_kind, frame_at, payload_at, payload_of, sized_at, spelling};
ghost use Rattle.sv_record.specs.Frame as spec;
ghost use Rattle.sv_record.specs.declared.frame.Frame.{Frame};
ghost use Rattle.sv_record.specs.declared.fault.RecordFault.TheVariants.{BadField};

use crate::fault::RecordFault;
use crate::key::{read_key, write_key};
use crate::number::{read_byte, read_node, write_byte, write_node};
use crate::packet::{read_packet, write_packet};
use std::alloc::{AllocError, Global};
use sv_model::{Key, Packet};

/// The first byte of a frame with a packet.
pub const PEER: u8 = 0xe1;

/// The first byte of a frame with a command.
pub const CONTROL: u8 = 0xe2;

/// The bytes of a frame's payload, at most.
pub const PAYLOAD_LIMIT: u32 = 262_144;

/// What travels in one frame.
#[derive(Drop)]
pub enum Frame {
    /// A packet of another node.
    Peer(Packet),
    /// Command 1: the session is to go to another node.
    Move { key: Key, to: u8 },
    /// Command 2: whatever is due is to be done.
    Tick,
    /// Command 3: the node is to stop.
    Halt,
}

/// Reads the first frame, and says how many bytes it takes.
///
/// The answer is none where bytes are missing: there is no first byte, or after [`PEER`] or [`CONTROL`] the length's
/// four bytes aren't all there, or the length is at most [`PAYLOAD_LIMIT`] and the payload isn't all there. Nothing of a
/// payload is judged before its last byte is there. Another first byte is [`RecordFault::Foreign`] and a greater length
/// [`RecordFault::BadField`], both at once.
pub fn read_frame(alloc: Global, bytes: &[u8]) -> Result<Option<(Frame, usize)>, RecordFault>
    // The bytes that it takes are a spelling of what is read.
    ensures found { IfOk result (λ o. IfSome o (λ x. IsSpelling (take x.1 bytes.now) x.0)) }
    ensures size { IfOk result (λ o. IfSome o (λ x. x.1 ≤ length bytes.now)) }
    // And may be written again.
    ensures within { IfOk result (λ o. IfSome o (λ x. IsFrame x.0)) }
    // What is spelled in front is read, whatever follows, unless memory is refused.
    ensures only { (f : Frame) (text rest : List ℕ) → IsSpelling text f → bytes.now ≡ text ++ rest → Gives (λ x. x) result (Ok (Some (f, length text))) }
    // None where bytes are missing, and there alone.
    ensures none { IfOk result (λ o. IfNone o (IsFront bytes.now)) }
    ensures front { IsFront bytes.now → result ≡ Ok None }
    // A fault is the first trouble.
    ensures exact { Gives (λ x. x) result (frame_at bytes.now) }
{
    read_first(alloc, bytes)
}

#[tactic(auto, unfolding(crate::specs::Frame::frame_at))]
fn read_first(alloc: Global, bytes: &[u8]) -> Result<Option<(Frame, usize)>, RecordFault>
    ensures exact { Gives (λ x. x) result (frame_at bytes.now) }
    ensures front { frame_at bytes.now ≡ Ok None → result ≡ Ok None }
{
    let [first, rest @ ..] = bytes else {
        return Ok(None);
    };
    if *first != PEER && *first != CONTROL {
        return Err(RecordFault::Foreign);
    }
    match sized_payload(rest)? {
        None => Ok(None),
        Some(payload) => {
            let frame = read_payload(alloc, *first, payload)?;
            Ok(Some((frame, 5 + payload.len())))
        }
    }
}

/// A length and the payload, where all of both is there.
#[tactic(auto, unfolding(crate::specs::Frame::sized_at))]
fn sized_payload(bytes: &[u8]) -> Result<Option<&[u8]>, RecordFault>
    ensures read { Gives (λ o. option_copied o) result (sized_at bytes.now) }
    ensures fault { IfErr result (λ fault. fault ≡ BadField) }
{
    if bytes.len() < 4 {
        return Ok(None);
    }
    let (front, rest) = bytes.split_at(4);
    let count = u32::from_be_bytes([front[0], front[1], front[2], front[3]]);
    if count > PAYLOAD_LIMIT {
        return Err(RecordFault::BadField);
    }
    let count = count as usize;
    if rest.len() < count {
        return Ok(None);
    }
    let (payload, _) = rest.split_at(count);
    Ok(Some(payload))
}

#[tactic(auto, unfolding(crate::specs::Frame::payload_at))]
fn read_payload(alloc: Global, first: u8, payload: &[u8]) -> Result<Frame, RecordFault>
    ensures { Gives (λ f. f) result (payload_at first payload.now) }
{
    if first == PEER {
        let packet = read_packet(alloc, payload)?;
        Ok(Frame::Peer(packet))
    } else {
        read_command(payload)
    }
}

#[tactic(auto, unfolding(crate::specs::Frame::command_at))]
fn read_command(payload: &[u8]) -> Result<Frame, RecordFault>
    ensures { Gives (λ f. f) result (command_at payload.now) }
{
    let (kind, rest) = read_byte(payload)?;
    let (command, rest) = read_command_fields(kind, rest)?;
    if !rest.is_empty() {
        return Err(RecordFault::BadField);
    }
    Ok(command)
}

/// What a command of this kind has after the kind.
fn read_command_fields(kind: u8, bytes: &[u8]) -> Result<(Frame, &[u8]), RecordFault>
    ensures { Gives (λ x. (x.0, x.1.now)) result (command_by_kind kind bytes.now) }
{
    match kind {
        1 => {
            let (key, rest) = read_key(bytes)?;
            let (to, rest) = read_node(rest)?;
            Ok((Frame::Move { key, to }, rest))
        }
        2 => Ok((Frame::Tick, bytes)),
        3 => Ok((Frame::Halt, bytes)),
        _ => Err(RecordFault::Foreign),
    }
}

/// Adds a frame to the bytes. Where memory is refused the bytes are as before.
///
/// Its numbers of nodes are below 8, its epoch and serial not 0, and its session is within the limits.
pub fn write_frame(frame: &Frame, out: &mut Vec<u8>) -> Result<(), AllocError>
    requires { IsFrame frame.now }
    ensures ok { OnOk result (out.new.items ≡ out.old.items ++ spelling frame.now) }
    ensures fits { OnOk result (HasSpelling frame.now) }
    ensures err { OnErr result (out.new.items ≡ out.old.items) }
{
    let len = out.len();
    let written = write_whole(frame, out);
    if written.is_err() {
        out.truncate(len);
    }
    written
}

/// The payload is written after the place of its length, which is filled in afterwards.
fn write_whole(frame: &Frame, out: &mut Vec<u8>) -> Result<(), AllocError>
    requires { IsFrame frame.now }
    ensures ok { OnOk result (out.new.items ≡ out.old.items ++ spelling frame.now) }
    ensures fits { OnOk result (HasSpelling frame.now) }
    ensures err { OnErr result (take (length out.old.items) out.new.items ≡ out.old.items) }
{
    write_byte(first_of(frame), out)?;
    let at = out.len();
    out.extend_from_slice(&[0; 4])?;
    let start = out.len();
    write_payload(frame, out)?;
    let count = (out.len() - start) as u32;
    set_length(out, at, count);
    Ok(())
}

fn first_of(frame: &Frame) -> u8
    ensures { result ≡ spec.first_of frame.now }
{
    match frame {
        Frame::Peer(_) => PEER,
        Frame::Move { .. } | Frame::Tick | Frame::Halt => CONTROL,
    }
}

fn write_payload(frame: &Frame, out: &mut Vec<u8>) -> Result<(), AllocError>
    requires { IsFrame frame.now }
    ensures ok { OnOk result (out.new.items ≡ out.old.items ++ payload_of frame.now) }
    ensures fits { OnOk result (HasSpelling frame.now) }
    ensures err { OnErr result (take (length out.old.items) out.new.items ≡ out.old.items) }
{
    match frame {
        Frame::Peer(packet) => write_packet(packet, out),
        Frame::Move { key, to } => {
            write_byte(1, out)?;
            write_key(*key, out)?;
            write_node(*to, out)
        }
        Frame::Tick => write_byte(2, out),
        Frame::Halt => write_byte(3, out),
    }
}

/// Puts a length in the place of four bytes.
fn set_length(out: &mut Vec<u8>, at: usize, count: u32)
    requires { at + 4 ≤ length out.old.items }
    ensures { out.new.items ≡ take at out.old.items ++ (to_be_bytes w32 count ++ drop (at + 4) out.old.items) }
{
    out[at..at + 4].copy_from_slice(&count.to_be_bytes());
}
