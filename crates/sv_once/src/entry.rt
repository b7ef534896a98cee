//! A request that was served, and its answer.

ghost use Rattle.std.specs.Prelude.{◌≡◌, ◌++◌, IfOk, OnOk};
ghost use Rattle.sv_once.specs.Entries as spec;
ghost use Rattle.sv_once.specs.Entries.{IsSmall};

use crate::parts::{cut_long, cut_short, push_long, push_short};
use std::alloc::{AllocError, Global};
use sv_model::Sequence;

/// A request that had a key and was served.
#[derive(Drop)]
pub struct Entry {
    pub key: Sequence<u8>,
    /// The mark of what was asked.
    pub mark: Sequence<u8>,
    /// The secret by which it named the session, where it gave it another one; else empty.
    pub old: Sequence<u8>,
    /// What is kept of the answer; empty where that was too long.
    pub answer: Sequence<u8>,
}

/// The bytes as a sequence.
pub fn copied(alloc: Global, bytes: &[u8]) -> Result<Sequence<u8>, AllocError>
    ensures { IfOk result (λ copy. copy ≡ bytes.now) }
{
    Ok(Sequence::from_vec(Vec::from_slice(alloc, bytes)?))
}

impl Entry {
    /// The entry that these bytes begin with, and what follows it.
    #[tactic(auto, unfolding(crate::specs::Entries::entry_at, crate::specs::Entries::beyond))]
    pub fn read(alloc: Global, bytes: &[u8]) -> Result<(Entry, &[u8]), AllocError>
        ensures entry { IfOk result (λ r. r.0 ≡ spec.entry_at bytes.now) }
        ensures rest { IfOk result (λ r. r.1.now ≡ spec.beyond bytes.now) }
    {
        let (key, bytes) = cut_short(bytes);
        let (mark, bytes) = cut_short(bytes);
        let (old, bytes) = cut_short(bytes);
        let (answer, rest) = cut_long(bytes);
        let entry = Entry {
            key: copied(alloc, key)?,
            mark: copied(alloc, mark)?,
            old: copied(alloc, old)?,
            answer: copied(alloc, answer)?,
        };
        Ok((entry, rest))
    }

    /// Adds its bytes.
    #[tactic(auto, unfolding(crate::specs::Entries::entry_bytes))]
    pub fn write(&self, out: &mut Vec<u8>) -> Result<(), AllocError>
        requires { IsSmall self.now }
        ensures { OnOk result (out.new.items ≡ out.old.items ++ spec.entry_bytes self.now) }
    {
        push_short(out, self.key.as_slice())?;
        push_short(out, self.mark.as_slice())?;
        push_short(out, self.old.as_slice())?;
        push_long(out, self.answer.as_slice())
    }
}
