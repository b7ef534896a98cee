//! What a commit makes of the sessions that it speaks of.

ghost use Rattle.std.specs.Prelude.{◌≡◌, ◌++◌, length, take, OnOk, OnErr};
ghost use Rattle.sv_model.specs.Ranges.{is_absent, IsChange, IsCommit};
ghost use Rattle.sv_record.specs.Reading.{Gives};
ghost use Rattle.sv_record.specs.Record as spec;
ghost use Rattle.sv_record.specs.Record.{change, commit};
ghost use Rattle.sv_record.specs.declared.version.Version.TheVariants.{Two};

use crate::fault::RecordFault;
use crate::key::{read_key, write_key};
use crate::number::{read_byte, write_byte};
use crate::session::{read_session, write_session};
use crate::version::Version;
use std::alloc::{AllocError, Global};
use sv_model::Change;

#[tactic(auto, unfolding(crate::specs::Record::change))]
pub(crate) fn read_change(
    alloc: Global,
    version: Version,
    bytes: &[u8],
) -> Result<(Change, &[u8]), RecordFault>
    ensures { Gives (λ x. (x.0, x.1.now)) result ((change version).read bytes.now) }
{
    let (kind, rest) = read_byte(bytes)?;
    match kind {
        0 => Ok((Change::Absent, rest)),
        1 => {
            let (key, rest) = read_key(rest)?;
            let (session, rest) = read_session(alloc, version, rest)?;
            Ok((Change::Alive { key, session }, rest))
        }
        2 => {
            let (key, rest) = read_key(rest)?;
            Ok((Change::Ended(key), rest))
        }
        _ => Err(RecordFault::BadField),
    }
}

/// What a commit makes of the session that was named and of the one that was made.
#[tactic(auto, unfolding(crate::specs::Record::commit))]
pub(crate) fn read_changes(
    alloc: Global,
    version: Version,
    bytes: &[u8],
) -> Result<((Change, Change), &[u8]), RecordFault>
    ensures { Gives (λ x. (x.0, x.1.now)) result ((commit version).read bytes.now) }
{
    let (named, rest) = read_change(alloc, version, bytes)?;
    let (born, rest) = read_change(alloc, version, rest)?;
    if is_absent(&named) && is_absent(&born) {
        return Err(RecordFault::BadField);
    }
    Ok(((named, born), rest))
}

fn is_absent(change: &Change) -> bool
    ensures { result ≡ is_absent change.now }
{
    matches!(change, Change::Absent)
}

#[tactic(auto, unfolding(crate::specs::Record::change))]
pub(crate) fn write_change(made: &Change, out: &mut Vec<u8>) -> Result<(), AllocError>
    requires { IsChange made.now }
    ensures ok { OnOk result (out.new.items ≡ out.old.items ++ (change Two).text made.now) }
    ensures err { OnErr result (take (length out.old.items) out.new.items ≡ out.old.items) }
    ensures fits { OnOk result ((change Two).Fits made.now) }
{
    match made {
        Change::Absent => write_byte(0, out),
        Change::Alive { key, session } => {
            write_byte(1, out)?;
            write_key(*key, out)?;
            write_session(session, out)
        }
        Change::Ended(key) => {
            write_byte(2, out)?;
            write_key(*key, out)
        }
    }
}

#[tactic(auto, unfolding(crate::specs::Record::commit))]
pub(crate) fn write_changes(
    named: &Change,
    born: &Change,
    out: &mut Vec<u8>,
) -> Result<(), AllocError>
    requires { IsCommit named.now born.now }
    ensures ok { OnOk result (out.new.items ≡ out.old.items ++ (commit Two).text (named.now, born.now)) }
    ensures fits { OnOk result ((commit Two).Fits (named.now, born.now)) }
    ensures err { OnErr result (take (length out.old.items) out.new.items ≡ out.old.items) }
{
    write_change(named, out)?;
    write_change(born, out)
}
