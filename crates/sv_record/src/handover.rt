//! A session that goes from node to node.

ghost use Rattle.std.specs.Prelude.{◌≡◌, ◌++◌, length, take, OnOk, OnErr};
ghost use Rattle.sv_model.specs.Ranges.{IsHandover};
ghost use Rattle.sv_record.specs.Reading.{Gives};
ghost use Rattle.sv_record.specs.Record.{handover};
ghost use Rattle.sv_record.specs.declared.version.Version.TheVariants.{Two};

use crate::fault::RecordFault;
use crate::key::{read_key, write_key};
use crate::number::{read_counting, read_node, write_counting, write_node};
use crate::session::{read_session, write_session};
use crate::version::Version;
use std::alloc::{AllocError, Global};
use sv_model::{Key, Session};

/// Its key, its epoch, the other node, and the session.
pub(crate) fn read_handover(
    alloc: Global,
    version: Version,
    bytes: &[u8],
) -> Result<((Key, u64, u8, Session), &[u8]), RecordFault>
    ensures { Gives (λ x. ((x.0.0, (x.0.1, (x.0.2, x.0.3))), x.1.now)) result ((handover version).read bytes.now) }
{
    let (key, rest) = read_key(bytes)?;
    let (epoch, rest) = read_counting(rest)?;
    let (node, rest) = read_node(rest)?;
    let (session, rest) = read_session(alloc, version, rest)?;
    Ok(((key, epoch, node, session), rest))
}

pub(crate) fn write_handover(
    key: Key,
    epoch: u64,
    node: u8,
    session: &Session,
    out: &mut Vec<u8>,
) -> Result<(), AllocError>
    requires { IsHandover key epoch node session.now }
    ensures ok { OnOk result (out.new.items ≡ out.old.items ++ (handover Two).text (key, (epoch, (node, session.now)))) }
    ensures fits { OnOk result ((handover Two).Fits (key, (epoch, (node, session.now)))) }
    ensures err { OnErr result (take (length out.old.items) out.new.items ≡ out.old.items) }
{
    write_key(key, out)?;
    write_counting(epoch, out)?;
    write_node(node, out)?;
    write_session(session, out)
}
