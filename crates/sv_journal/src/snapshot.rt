//! The bytes of a compacted disk.
ghost use Rattle.std.specs.Prelude.{◌≡◌, ◌≤◌, ◌<◌, ◌+◌, ◌++◌, ◌∷◌, length, IfOk, OnOk, IfSome, IfNone};
ghost use Rattle.std.specs.List.{flat_map, All};
ghost use Rattle.sv_journal.specs.Format.{entry, snapshot, payloads};
ghost use Rattle.sv_journal.specs.declared.limits.TheConstants.{FILE_LIMIT, PAYLOAD_LIMIT};

use crate::commit::{CLOSED, OPEN};
use crate::entries::ENTRY_HEAD;
use crate::head::{OPENING, SHORTEST};
use crate::limits::FILE_LIMIT;
use std::alloc::{AllocError, Global};

/// The length of a disk with these entries alone; none where it is past the limit.
pub fn snapshot_len(entries: &[Vec<u8>]) -> Option<u64>
    ensures found { IfSome result (λ len. (len ≡ 17 + length (flat_map entry (payloads entries.now))) × (len ≤ FILE_LIMIT)) }
    ensures none { IfNone result (FILE_LIMIT < 17 + length (flat_map entry (payloads entries.now))) }
{
    let mut len = SHORTEST;
    for payload in entries {
        len += ENTRY_HEAD + payload.len() as u64;
        if len > FILE_LIMIT {
            return None;
        }
    }
    Some(len)
}

// Puts an entry after the others.
fn put_entry(bytes: &mut Vec<u8>, payload: &[u8]) -> Result<(), AllocError>
    requires { length payload.now ≤ PAYLOAD_LIMIT }
    ensures { OnOk result (bytes.new.items ≡ bytes.old.items ++ entry payload.now) }
{
    bytes.push(OPEN)?;
    bytes.extend_from_slice(&(payload.len() as u32).to_be_bytes())?;
    bytes.extend_from_slice(payload)
}

/// What stands after the gate of a disk of this generation with these entries alone.
pub fn behind_gate(
    alloc: Global,
    generation: u64,
    entries: &[Vec<u8>],
) -> Result<Vec<u8>, AllocError>
    requires { All (λ payload. length payload.items ≤ PAYLOAD_LIMIT) entries.now }
    ensures { IfOk result (λ bytes. 165 ∷ bytes.items ≡ snapshot generation (payloads entries.now)) }
{
    let mut bytes = Vec::new(alloc);
    bytes.extend_from_slice(&OPENING[1..])?;
    bytes.extend_from_slice(&generation.to_be_bytes())?;
    for payload in entries {
        put_entry(&mut bytes, payload)?;
    }
    bytes.push(CLOSED)?;
    Ok(bytes)
}
