//! What a node puts out, and what it knows of a key, as texts. No contract pins them: tests compare them with what was written
//! by hand.

use std::alloc::{AllocError, Global};
use sv_model::{KeyState, Output, Packet, Response};

/// A packet's kind, sender and addressee, and the epoch of a Grant or an Ack.
pub fn packet_text(alloc: Global, packet: &Packet) -> Result<String, AllocError> {
    match packet {
        Packet::Want { from, to, .. } => format!(in alloc; "Want {from} to {to}"),
        Packet::Grant {
            from,
            to,
            epoch,
            ..
        } => format!(in alloc; "Grant {from} to {to} epoch {epoch}"),
        Packet::Ack {
            from,
            to,
            epoch,
            ..
        } => format!(in alloc; "Ack {from} to {to} epoch {epoch}"),
        Packet::No { from, to, .. } => format!(in alloc; "No {from} to {to}"),
    }
}

/// The one byte of a counter's answer.
fn digit(response: &Response) -> char {
    match response.body.as_slice() {
        [digit] => *digit as char,
        _ => '?',
    }
}

/// The text of a packet after its number.
pub fn numbered(alloc: Global, number: usize, text: &str) -> Result<String, AllocError> {
    let mut line = format!(in alloc; "p{number} ")?;
    line.push_str(text)?;
    Ok(line)
}

/// One output, as a text.
pub fn output_text(alloc: Global, output: &Output) -> Result<String, AllocError> {
    match output {
        Output::Answer { response, .. } => format!(in alloc; "answer {}", digit(response)),
        Output::Refuse { cause, .. } => format!(in alloc; "refuse {cause:?}"),
        Output::Moved => format!(in alloc; "moved"),
        Output::MoveRefused(why) => format!(in alloc; "refused {why:?}"),
        Output::Send(packet) => packet_text(alloc, packet),
    }
}

/// What is known of a key.
pub fn state_text(alloc: Global, state: Option<&KeyState>) -> Result<String, AllocError> {
    match state {
        None => format!(in alloc; "Nothing"),
        Some(KeyState::Active { epoch, session }) => {
            format!(in alloc; "Active {epoch} count {}", session.created)
        }
        Some(KeyState::Sent { epoch, to, session }) => {
            format!(in alloc; "Sent {epoch} to {to} count {}", session.created)
        }
        Some(KeyState::Gone { epoch }) => format!(in alloc; "Gone {epoch}"),
        Some(KeyState::Ended { epoch }) => format!(in alloc; "Ended {epoch}"),
    }
}
