//! A session: its fields, and then its attributes.

ghost use Rattle.std.specs.Prelude.{◌≡◌, ◌<◌, ◌++◌, length, take, OnOk, OnErr};
ghost use Rattle.sv_model.specs.Limits.{IsWithinLimits};
ghost use Rattle.sv_model.specs.declared.session.TheConstants.{CONTEXT_LIMIT};
ghost use Rattle.sv_record.specs.Reading.{Gives, bytes_at};
ghost use Rattle.sv_record.specs.Session.{context, session};
ghost use Rattle.sv_record.specs.declared.version.Version.TheVariants.{Two};

use crate::attributes::{read_attributes, write_attributes};
use crate::fault::RecordFault;
use crate::number::{
    read_byte, read_bytes, read_flag, read_i32, read_u64, write_byte, write_flag, write_i32,
    write_u64,
};
use crate::version::Version;
use std::alloc::{AllocError, Global};
use sv_model::{CONTEXT_LIMIT, Secret, Session};

fn read_secret(bytes: &[u8]) -> Result<(Secret, &[u8]), RecordFault>
    ensures { Gives (λ x. (x.0.0, x.1.now)) result (bytes_at 16 bytes.now) }
{
    let (front, rest) = read_bytes(bytes, 16)?;
    let mut secret = [0; 16];
    secret.copy_from_slice(front);
    Ok((Secret(secret), rest))
}

#[tactic(auto, unfolding(crate::specs::Session::context))]
fn read_context(bytes: &[u8]) -> Result<(u8, &[u8]), RecordFault>
    ensures { Gives (λ x. (x.0, x.1.now)) result (context.read bytes.now) }
{
    let (number, rest) = read_byte(bytes)?;
    if number >= CONTEXT_LIMIT {
        return Err(RecordFault::BadField);
    }
    Ok((number, rest))
}

#[tactic(auto, unfolding(crate::specs::Session::session))]
pub(crate) fn read_session(
    alloc: Global,
    version: Version,
    bytes: &[u8],
) -> Result<(Session, &[u8]), RecordFault>
    ensures { Gives (λ x. (x.0, x.1.now)) result ((session version).read bytes.now) }
{
    let (secret, rest) = read_secret(bytes)?;
    let (context, rest) = read_context(rest)?;
    let (created, rest) = read_u64(rest)?;
    let (last, rest) = read_u64(rest)?;
    let (interval, rest) = read_i32(rest)?;
    let (fresh, rest) = read_flag(rest)?;
    let (attributes, rest) = read_attributes(alloc, version, rest)?;
    let session = Session {
        context,
        secret,
        created,
        last,
        interval,
        fresh,
        attributes,
    };
    Ok((session, rest))
}

#[tactic(auto, unfolding(crate::specs::Session::context))]
fn write_context(number: u8, out: &mut Vec<u8>) -> Result<(), AllocError>
    requires { number < CONTEXT_LIMIT }
    ensures ok { OnOk result (out.new.items ≡ out.old.items ++ context.text number) }
    ensures err { OnErr result (take (length out.old.items) out.new.items ≡ out.old.items) }
    ensures fits { context.Fits number }
{
    write_byte(number, out)
}

fn write_secret(secret: &Secret, out: &mut Vec<u8>) -> Result<(), AllocError>
    ensures ok { OnOk result (out.new.items ≡ out.old.items ++ secret.now.0) }
    ensures err { OnErr result (take (length out.old.items) out.new.items ≡ out.old.items) }
    ensures fits { length secret.now.0 ≡ 16 }
{
    out.extend_from_slice(&secret.0)
}

#[tactic(auto, unfolding(crate::specs::Session::session))]
pub(crate) fn write_session(held: &Session, out: &mut Vec<u8>) -> Result<(), AllocError>
    requires { IsWithinLimits held.now }
    ensures ok { OnOk result (out.new.items ≡ out.old.items ++ (session Two).text held.now) }
    ensures err { OnErr result (take (length out.old.items) out.new.items ≡ out.old.items) }
    ensures fits { OnOk result ((session Two).Fits held.now) }
{
    write_secret(&held.secret, out)?;
    write_context(held.context, out)?;
    write_u64(held.created, out)?;
    write_u64(held.last, out)?;
    write_i32(&held.interval, out)?;
    write_flag(held.fresh, out)?;
    write_attributes(&held.attributes, out)
}
