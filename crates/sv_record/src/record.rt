//! The records of a journal.

ghost use Rattle.std.specs.Prelude.{◌≡◌, ◌++◌, length, take, IfOk, OnOk, OnErr, Ok};
ghost use Rattle.sv_model.specs.declared.record.Record.{Record};
ghost use Rattle.sv_model.specs.Ranges.{IsRecord};
ghost use Rattle.sv_record.specs.Reading.{Gives};
ghost use Rattle.sv_record.specs.Record.{HasSpelling, IsSpelling, record_of, spelling};

use crate::fault::RecordFault;
use crate::number::write_byte;
use crate::record_fields::{read_fields, write_fields};
use crate::version::read_version;
use std::alloc::{AllocError, Global};
use sv_model::Record;

/// The bytes of a record, at most: no more than an entry of a journal holds.
pub const RECORD_LIMIT: usize = 524_288;

/// Reads a record, which is all of the bytes.
///
/// The bytes are judged one by one in their order, and the first trouble decides. Memory is taken in proportion to
/// them.
pub fn read_record(alloc: Global, bytes: &[u8]) -> Result<Record, RecordFault>
    // The bytes are a spelling of what is read, by the version that the first of them names.
    ensures found { IfOk result (λ r. IsSpelling bytes.now r) }
    // And may be written again.
    ensures within { IfOk result (λ r. IsRecord r) }
    // What they are a spelling of is read, unless memory is refused.
    ensures only { (r : Record) → IsSpelling bytes.now r → Gives (λ x. x) result (Ok r) }
    // A fault is the first trouble.
    ensures exact { Gives (λ r. r) result (record_of bytes.now) }
{
    read_whole(alloc, bytes)
}

fn read_whole(alloc: Global, bytes: &[u8]) -> Result<Record, RecordFault>
    ensures { Gives (λ r. r) result (record_of bytes.now) }
{
    let (version, rest) = read_version(bytes)?;
    let (record, rest) = read_fields(alloc, version, rest)?;
    if !rest.is_empty() {
        return Err(RecordFault::BadField);
    }
    Ok(record)
}

/// Adds a record to the bytes, by the newest version. Where memory is refused the bytes are as before.
///
/// Its numbers of nodes are below 8, its epochs, its serials and the boot that it begins not 0, its sessions within the
/// limits, and of a commit at least one change isn't absent.
pub fn write_record(entry: &Record, out: &mut Vec<u8>) -> Result<(), AllocError>
    requires { IsRecord entry.now }
    ensures ok { OnOk result (out.new.items ≡ out.old.items ++ spelling entry.now) }
    ensures fits { OnOk result (HasSpelling entry.now) }
    ensures err { OnErr result (out.new.items ≡ out.old.items) }
{
    let len = out.len();
    let written = write_whole(entry, out);
    if written.is_err() {
        out.truncate(len);
    }
    written
}

fn write_whole(entry: &Record, out: &mut Vec<u8>) -> Result<(), AllocError>
    requires { IsRecord entry.now }
    ensures ok { OnOk result (out.new.items ≡ out.old.items ++ spelling entry.now) }
    ensures fits { OnOk result (HasSpelling entry.now) }
    ensures err { OnErr result (take (length out.old.items) out.new.items ≡ out.old.items) }
{
    write_byte(2, out)?;
    write_fields(entry, out)
}
