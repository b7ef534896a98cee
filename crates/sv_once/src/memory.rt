//! The last requests of a session that had a key and were served.

ghost use Rattle.std.specs.Prelude.{◌≡◌, ◌++◌, [], option_copied, IfOk, OnOk};
ghost use Rattle.std.specs.List.{All, flat_map};
ghost use Rattle.sv_once.specs.Entries as spec;
ghost use Rattle.sv_once.specs.Entries.{IsSmall};

use crate::entry::Entry;
use std::alloc::{AllocError, Global};
use std::marker::Model;
use sv_model::Sequence;

/// The answers of a memory, at most.
const MOST: usize = 16;

/// The version of the bytes.
const VERSION: u8 = 1;

/// The last requests that had a key and were served, the newest first.
#[derive(Drop)]
pub struct Memory {
    entries: Vec<Entry>,
}

impl Model for Memory {
    ghost use Rattle.std.specs.Prelude.{List};
    ghost use Rattle.std.specs.List.{All};
    ghost use Rattle.sv_once.specs.declared.entry.Entry.{Entry};
    ghost use Rattle.sv_once.specs.Entries.{IsSmall};

    ghost Value = { List Entry };

    ghost view = { λ m. m.entries.items };

    ghost invariant = { λ m. All IsSmall m.entries.items };
}

/// Adds the bytes of entries.
fn write_entries(out: &mut Vec<u8>, entries: &[Entry]) -> Result<(), AllocError>
    requires { All IsSmall entries.now }
    ensures { OnOk result (out.new.items ≡ out.old.items ++ flat_map spec.entry_bytes entries.now) }
{
    for entry in entries {
        entry.write(out)?;
    }
    Ok(())
}

/// The entries that bytes keep after their version.
fn read_entries(alloc: Global, bytes: &[u8]) -> Result<Vec<Entry>, AllocError>
    ensures { IfOk result (λ entries. entries.items ≡ spec.entries_in 16 bytes.now) }
{
    let mut entries = Vec::new(alloc);
    let mut rest = bytes;
    let mut left = MOST;
    while left > 0 {
        if rest.is_empty() {
            return Ok(entries);
        }
        let (entry, more) = Entry::read(alloc, rest)?;
        entries.push(entry)?;
        rest = more;
        left -= 1;
    }
    Ok(entries)
}

impl Memory {
    /// Nothing.
    pub fn new(alloc: Global) -> Memory
        ensures { result ≡ [] }
    {
        Memory {
            entries: Vec::new(alloc),
        }
    }

    /// What bytes keep; nothing where they are none, or of another version.
    #[tactic(auto, unfolding(crate::specs::Entries::memory_in))]
    pub fn read(alloc: Global, bytes: &[u8]) -> Result<Memory, AllocError>
        ensures { IfOk result (λ memory. memory ≡ spec.memory_in bytes.now) }
    {
        if bytes.is_empty() || bytes[0] != VERSION {
            return Ok(Memory::new(alloc));
        }
        Ok(Memory {
            entries: read_entries(alloc, &bytes[1..])?,
        })
    }

    /// Its bytes; none where there is nothing in it.
    pub fn write(&self, alloc: Global) -> Result<Sequence<u8>, AllocError>
        ensures { IfOk result (λ bytes. bytes ≡ spec.memory_bytes self.now) }
    {
        let mut bytes = Vec::new(alloc);
        if !self.entries.is_empty() {
            bytes.push(VERSION)?;
            write_entries(&mut bytes, self.entries.as_slice())?;
        }
        Ok(Sequence::from_vec(bytes))
    }

    /// What is remembered of a key.
    pub fn known(&self, key: &[u8]) -> Option<&Entry>
        ensures { option_copied result ≡ spec.known key.now self.now }
    {
        self.entries
            .iter()
            .find(|entry| key == entry.key.as_slice())
    }

    /// Remembers one more; so many are kept, and at most 16: the oldest gives way.
    pub fn remember(&mut self, answers: u8, entry: Entry) -> Result<(), AllocError>
        requires { IsSmall entry }
        ensures { OnOk result (self.new ≡ spec.remembered answers entry self.old) }
    {
        self.entries.insert(0, entry)?;
        self.entries.truncate(usize::from(answers).min(MOST));
        Ok(())
    }
}
