//! What stands after the version of a record: its kind and its fields.

ghost use Rattle.std.specs.Prelude.{◌≡◌, ◌++◌, length, take, OnOk, OnErr};
ghost use Rattle.sv_model.specs.declared.record.Record.TheVariants.{Commit, Expired, Sent, Taken, Gone, State};
ghost use Rattle.sv_model.specs.Ranges.{IsRecord};
ghost use Rattle.sv_record.specs.Reading.{Gives};
ghost use Rattle.sv_record.specs.Record.{by_kind, record_format};
ghost use Rattle.sv_record.specs.declared.version.Version.TheVariants.{One, Two};

use crate::change::{read_changes, write_changes};
use crate::fault::RecordFault;
use crate::handover::{read_handover, write_handover};
use crate::key::{read_key, write_key};
use crate::number::{read_byte, read_counting, write_byte, write_counting};
use crate::start_fields::{
    read_boot, read_counted, read_counters, read_forgets, write_boot, write_counted,
    write_counters, write_forgets,
};
use crate::state::{read_state, write_state};
use crate::version::Version;
use std::alloc::{AllocError, Global};
use sv_model::{Change, Key, KeyState, Record, Session};

#[tactic(auto, unfolding(crate::specs::Record::record_format))]
pub(crate) fn read_fields(
    alloc: Global,
    version: Version,
    bytes: &[u8],
) -> Result<(Record, &[u8]), RecordFault>
    ensures { Gives (λ x. (x.0, x.1.now)) result ((record_format version).read bytes.now) }
{
    let (kind, rest) = read_byte(bytes)?;
    read_kind(alloc, version, kind, rest)
}

/// What a record of this kind has after the kind.
fn read_kind(
    alloc: Global,
    version: Version,
    kind: u8,
    bytes: &[u8],
) -> Result<(Record, &[u8]), RecordFault>
    ensures { Gives (λ x. (x.0, x.1.now)) result (by_kind version kind bytes.now) }
{
    match kind {
        1 => read_boot(bytes),
        2 => read_commit(alloc, version, bytes),
        3 => read_expired(bytes),
        4 => read_sent(alloc, version, bytes),
        5 => read_taken(alloc, version, bytes),
        6 => read_gone(bytes),
        7 => read_kept(alloc, version, bytes),
        8 => read_counters(bytes),
        9 => read_forgets(bytes),
        10 => read_counted(bytes),
        _ => Err(RecordFault::Foreign),
    }
}

fn read_commit(
    alloc: Global,
    version: Version,
    bytes: &[u8],
) -> Result<(Record, &[u8]), RecordFault>
    ensures { Gives (λ x. (x.0, x.1.now)) result (by_kind version 2 bytes.now) }
{
    let ((named, born), rest) = read_changes(alloc, version, bytes)?;
    Ok((Record::Commit { named, born }, rest))
}

// A kind without a session is read the same by each version.
fn read_expired(bytes: &[u8]) -> Result<(Record, &[u8]), RecordFault>
    ensures { Gives (λ x. (x.0, x.1.now)) result (by_kind One 3 bytes.now) }
{
    let (key, rest) = read_key(bytes)?;
    Ok((Record::Expired(key), rest))
}

fn read_sent(alloc: Global, version: Version, bytes: &[u8]) -> Result<(Record, &[u8]), RecordFault>
    ensures { Gives (λ x. (x.0, x.1.now)) result (by_kind version 4 bytes.now) }
{
    let ((key, epoch, to, session), rest) = read_handover(alloc, version, bytes)?;
    let record = Record::Sent {
        key,
        epoch,
        to,
        session,
    };
    Ok((record, rest))
}

fn read_taken(alloc: Global, version: Version, bytes: &[u8]) -> Result<(Record, &[u8]), RecordFault>
    ensures { Gives (λ x. (x.0, x.1.now)) result (by_kind version 5 bytes.now) }
{
    let ((key, epoch, from, session), rest) = read_handover(alloc, version, bytes)?;
    let record = Record::Taken {
        key,
        epoch,
        from,
        session,
    };
    Ok((record, rest))
}

fn read_gone(bytes: &[u8]) -> Result<(Record, &[u8]), RecordFault>
    ensures { Gives (λ x. (x.0, x.1.now)) result (by_kind One 6 bytes.now) }
{
    let (key, rest) = read_key(bytes)?;
    let (epoch, rest) = read_counting(rest)?;
    Ok((Record::Gone { key, epoch }, rest))
}

fn read_kept(alloc: Global, version: Version, bytes: &[u8]) -> Result<(Record, &[u8]), RecordFault>
    ensures { Gives (λ x. (x.0, x.1.now)) result (by_kind version 7 bytes.now) }
{
    let (key, rest) = read_key(bytes)?;
    let (state, rest) = read_state(alloc, version, rest)?;
    Ok((Record::State { key, state }, rest))
}

#[tactic(auto, unfolding(crate::specs::Record::record_format))]
pub(crate) fn write_fields(entry: &Record, out: &mut Vec<u8>) -> Result<(), AllocError>
    requires { IsRecord entry.now }
    ensures ok { OnOk result (out.new.items ≡ out.old.items ++ (record_format Two).text entry.now) }
    ensures fits { OnOk result ((record_format Two).Fits entry.now) }
    ensures err { OnErr result (take (length out.old.items) out.new.items ≡ out.old.items) }
{
    match entry {
        Record::Boot(boot) => write_boot(*boot, out),
        Record::Commit { named, born } => write_commit(named, born, out),
        Record::Expired(key) => write_expired(*key, out),
        Record::Sent {
            key,
            epoch,
            to,
            session,
        } => write_sent(*key, *epoch, *to, session, out),
        Record::Taken {
            key,
            epoch,
            from,
            session,
        } => write_taken(*key, *epoch, *from, session, out),
        Record::Gone { key, epoch } => write_gone(*key, *epoch, out),
        Record::State { key, state } => write_kept(*key, state, out),
        Record::Counters { boot, next } => write_counters(*boot, *next, out),
        Record::Forgets { home, boot } => write_forgets(*home, *boot, out),
        Record::Counted { home, boot, next } => write_counted(*home, *boot, *next, out),
    }
}

#[tactic(auto, unfolding(crate::specs::Record::record_format))]
fn write_commit(named: &Change, born: &Change, out: &mut Vec<u8>) -> Result<(), AllocError>
    requires { IsRecord (Commit named.now born.now) }
    ensures ok { OnOk result (out.new.items ≡ out.old.items ++ (record_format Two).text (Commit named.now born.now)) }
    ensures fits { OnOk result ((record_format Two).Fits (Commit named.now born.now)) }
    ensures err { OnErr result (take (length out.old.items) out.new.items ≡ out.old.items) }
{
    write_byte(2, out)?;
    write_changes(named, born, out)
}

#[tactic(auto, unfolding(crate::specs::Record::record_format))]
fn write_expired(key: Key, out: &mut Vec<u8>) -> Result<(), AllocError>
    requires { IsRecord (Expired key) }
    ensures ok { OnOk result (out.new.items ≡ out.old.items ++ (record_format Two).text (Expired key)) }
    ensures fits { OnOk result ((record_format Two).Fits (Expired key)) }
    ensures err { OnErr result (take (length out.old.items) out.new.items ≡ out.old.items) }
{
    write_byte(3, out)?;
    write_key(key, out)
}

#[tactic(auto, unfolding(crate::specs::Record::record_format))]
fn write_sent(
    key: Key,
    epoch: u64,
    to: u8,
    session: &Session,
    out: &mut Vec<u8>,
) -> Result<(), AllocError>
    requires { IsRecord (Sent key epoch to session.now) }
    ensures ok { OnOk result (out.new.items ≡ out.old.items ++ (record_format Two).text (Sent key epoch to session.now)) }
    ensures fits { OnOk result ((record_format Two).Fits (Sent key epoch to session.now)) }
    ensures err { OnErr result (take (length out.old.items) out.new.items ≡ out.old.items) }
{
    write_byte(4, out)?;
    write_handover(key, epoch, to, session, out)
}

#[tactic(auto, unfolding(crate::specs::Record::record_format))]
fn write_taken(
    key: Key,
    epoch: u64,
    from: u8,
    session: &Session,
    out: &mut Vec<u8>,
) -> Result<(), AllocError>
    requires { IsRecord (Taken key epoch from session.now) }
    ensures ok { OnOk result (out.new.items ≡ out.old.items ++ (record_format Two).text (Taken key epoch from session.now)) }
    ensures fits { OnOk result ((record_format Two).Fits (Taken key epoch from session.now)) }
    ensures err { OnErr result (take (length out.old.items) out.new.items ≡ out.old.items) }
{
    write_byte(5, out)?;
    write_handover(key, epoch, from, session, out)
}

#[tactic(auto, unfolding(crate::specs::Record::record_format))]
fn write_gone(key: Key, epoch: u64, out: &mut Vec<u8>) -> Result<(), AllocError>
    requires { IsRecord (Gone key epoch) }
    ensures ok { OnOk result (out.new.items ≡ out.old.items ++ (record_format Two).text (Gone key epoch)) }
    ensures fits { OnOk result ((record_format Two).Fits (Gone key epoch)) }
    ensures err { OnErr result (take (length out.old.items) out.new.items ≡ out.old.items) }
{
    write_byte(6, out)?;
    write_key(key, out)?;
    write_counting(epoch, out)
}

#[tactic(auto, unfolding(crate::specs::Record::record_format))]
fn write_kept(key: Key, state: &KeyState, out: &mut Vec<u8>) -> Result<(), AllocError>
    requires { IsRecord (State key state.now) }
    ensures ok { OnOk result (out.new.items ≡ out.old.items ++ (record_format Two).text (State key state.now)) }
    ensures fits { OnOk result ((record_format Two).Fits (State key state.now)) }
    ensures err { OnErr result (take (length out.old.items) out.new.items ≡ out.old.items) }
{
    write_byte(7, out)?;
    write_key(key, out)?;
    write_state(state, out)
}
