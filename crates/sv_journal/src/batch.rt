//! Entries that are added to a journal together.
ghost use Rattle.std.specs.Prelude.{◌≡◌, ◌≤◌, ◌+◌, ◌++◌, [], ◌∷◌, List, ℕ, length, take, drop, IfOk, OnOk, OnErr};
ghost use Rattle.std.specs.Int.{w32, to_be_bytes};
ghost use Rattle.sv_journal.specs.declared.limits.TheConstants.{PAYLOAD_LIMIT};

use crate::commit::{CLOSED, OPEN};
use std::alloc::{AllocError, Global};

/// Entries that are added to a journal together: all of them are there after a stop, or none. Its size is that of their
/// bytes with the gate that ends them.
#[derive(Drop)]
pub struct Batch {
    bytes: Vec<u8>,
}

impl Batch {
    ghost use Rattle.sv_journal.specs.Batch.{IsBatch, Stages, size_of, bytes_in};

    /// A batch of no entries, with memory for so many bytes.
    pub fn with_capacity(alloc: Global, size: usize) -> Result<Batch, AllocError>
        ensures none { IfOk result (λ batch. Stages batch []) }
        ensures size { IfOk result (λ batch. size_of batch ≡ 1) }
        ensures batch { IfOk result (λ batch. IsBatch batch) }
    {
        let mut bytes = Vec::with_capacity(alloc, size)?;
        bytes.push(CLOSED)?;
        Ok(Batch { bytes })
    }

    /// Adds an entry of at most 524,288 bytes after the others. Where memory is refused the batch is as it was.
    pub fn add(&mut self, payload: &[u8]) -> Result<(), AllocError>
        requires batch { IsBatch self.old }
        requires payload { length payload.now ≤ PAYLOAD_LIMIT }
        ensures added { OnOk result ((entries : List (List ℕ)) → Stages self.old entries → Stages self.new (entries ++ payload.now ∷ [])) }
        ensures size { OnOk result (size_of self.new ≡ size_of self.old + 5 + length payload.now) }
        ensures unchanged { OnErr result (bytes_in self.new ≡ bytes_in self.old) }
        ensures batch { IsBatch self.new }
    {
        let size = self.bytes.len();
        if let Err(refused) = put_behind_gate(&mut self.bytes, payload) {
            self.bytes.truncate(size);
            return Err(refused);
        }
        self.bytes[size - 1] = OPEN;
        Ok(())
    }

    /// The length of its entries, with the gate that ends them.
    pub fn size(&self) -> usize
        ensures { result ≡ size_of self.now }
    {
        self.bytes.len()
    }

    /// All but the first gate.
    pub(crate) fn behind_gate(&self) -> &[u8]
        requires { IsBatch self.now }
        ensures bytes { result.now ≡ drop 1 (bytes_in self.now) }
        ensures len { length result.now + 1 ≡ size_of self.now }
    {
        &self.bytes[1..]
    }
}

// Puts the length, the payload and the next closed gate after the others. Where memory is refused, a part of that may
// stand there.
fn put_behind_gate(bytes: &mut Vec<u8>, payload: &[u8]) -> Result<(), AllocError>
    requires { length payload.now ≤ PAYLOAD_LIMIT }
    ensures put { OnOk result (bytes.new.items ≡ bytes.old.items ++ (to_be_bytes w32 (length payload.now) ++ payload.now ++ 0 ∷ [])) }
    ensures refused { OnErr result (take (length bytes.old.items) bytes.new.items ≡ bytes.old.items) }
{
    bytes.extend_from_slice(&(payload.len() as u32).to_be_bytes())?;
    bytes.extend_from_slice(payload)?;
    bytes.push(CLOSED)?;
    Ok(())
}
