//! A request whose body is being read.

ghost use Rattle.std.specs.Prelude.{◌≡◌, ◌+◌, ◌<◌, ◌≤◌, ◌^◌, ◌++◌, length, drop, OnOk, OnErr, IfErr};
ghost use Rattle.sv_message.specs.declared.fault.ReadFault.TheVariants.{Memory as MemoryFault};
ghost use Rattle.sv_message.specs.Partial.{IsPartial};
ghost use Rattle.sv_message.specs.Pieces.{IsStart};
ghost use Rattle.sv_message.specs.Steps.{StepsTo, EndsIn};

use crate::chunk::{ChunkEnd, ChunkStart, chunk_end, read_chunk_line, read_trailer};
use crate::fault::ReadFault;
use crate::length::BODY_LIMIT;
use crate::request::RawRequest;

/// What of a body comes next.
#[derive(Clone, Copy, Debug)]
pub enum Part {
    /// So many bytes, and the body ends.
    Missing(usize),
    /// A chunk line, or the last line.
    Line,
    /// So many bytes of a chunk's data, and the line end after them.
    Data(usize),
    /// The trailer section.
    Trailer,
}

/// A request with as much of its body as was read.
#[derive(Drop)]
pub struct Partial {
    pub request: RawRequest,
    pub part: Part,
    /// How many bytes of the stream were read.
    pub at: usize,
}

/// What one step of reading has come to.
#[derive(Clone, Copy, Debug)]
pub(crate) enum Step {
    /// More bytes are needed.
    Open,
    /// Something was read.
    On,
    /// The request is whole.
    Whole,
}

/// The bytes from a place on.
pub(crate) fn tail(rest: &[u8], at: usize) -> &[u8]
    requires { at ≤ length rest.now }
    ensures { result.now ≡ drop at rest.now }
{
    &rest[at..]
}

/// Moves bytes of the stream to the end of the body.
fn take_data(partial: &mut Partial, bytes: &[u8]) -> Result<(), ReadFault>
    requires { partial.old.at + length bytes.now < 2 ^ 64 }
    ensures ok { OnOk result (partial.new ≡ record partial.old {
      request = record partial.old.request { body = partial.old.request.body ++ bytes.now };
      at = partial.old.at + length bytes.now;
    }) }
    ensures err { OnErr result (partial.new ≡ partial.old) }
    ensures fault { IfErr result (λ fault. fault ≡ MemoryFault) }
{
    partial.request.body.extend_from_slice(bytes)?;
    partial.at += bytes.len();
    Ok(())
}

/// Reads on in a body of declared length.
fn read_declared(partial: &mut Partial, rest: &[u8], missing: usize) -> Result<Step, ReadFault>
    requires partial { IsPartial rest.now partial.old }
    requires part { partial.old.part ≡ Part.Missing missing }
    ensures steps { StepsTo rest.now partial.old partial.new result }
    ensures place { partial.old.at ≤ partial.new.at }
{
    let unread = tail(rest, partial.at);
    let count = missing.min(unread.len());
    take_data(partial, &unread[..count])?;
    partial.part = Part::Missing(missing - count);
    if count < missing {
        Ok(Step::Open)
    } else {
        Ok(Step::Whole)
    }
}

/// Goes on after a chunk line or the last line.
fn pass_line(partial: &mut Partial, rest: &[u8], start: ChunkStart) -> Result<Step, ReadFault>
    requires partial { IsPartial rest.now partial.old }
    requires part { partial.old.part ≡ Part.Line }
    requires start { IsStart (drop partial.old.at rest.now) start }
    ensures steps { StepsTo rest.now partial.old partial.new result }
    ensures place { partial.old.at ≤ partial.new.at }
{
    let _bytes = rest;
    if start.size > (BODY_LIMIT - partial.request.body.len()) as u64 {
        return Err(ReadFault::BodyTooLong);
    }
    partial.part = if start.size == 0 {
        Part::Trailer
    } else {
        Part::Data(start.size as usize)
    };
    partial.at += start.len;
    Ok(Step::On)
}

/// Reads a chunk line or the last line.
fn read_line(partial: &mut Partial, rest: &[u8]) -> Result<Step, ReadFault>
    requires partial { IsPartial rest.now partial.old }
    requires part { partial.old.part ≡ Part.Line }
    ensures steps { StepsTo rest.now partial.old partial.new result }
    ensures place { partial.old.at ≤ partial.new.at }
{
    match read_chunk_line(tail(rest, partial.at))? {
        None => Ok(Step::Open),
        Some(start) => pass_line(partial, rest, start),
    }
}

/// Reads on in the data of a chunk.
fn read_data(partial: &mut Partial, rest: &[u8], left: usize) -> Result<Step, ReadFault>
    requires partial { IsPartial rest.now partial.old }
    requires part { partial.old.part ≡ Part.Data left }
    requires some { 0 < left }
    ensures steps { StepsTo rest.now partial.old partial.new result }
    ensures place { partial.old.at ≤ partial.new.at }
{
    let unread = tail(rest, partial.at);
    let count = left.min(unread.len());
    if count == 0 {
        return Ok(Step::Open);
    }
    take_data(partial, &unread[..count])?;
    partial.part = Part::Data(left - count);
    Ok(Step::On)
}

/// Reads the line end after the data of a chunk.
fn read_end(partial: &mut Partial, rest: &[u8]) -> Result<Step, ReadFault>
    requires partial { IsPartial rest.now partial.old }
    requires part { partial.old.part ≡ Part.Data 0 }
    ensures steps { StepsTo rest.now partial.old partial.new result }
    ensures place { partial.old.at ≤ partial.new.at }
{
    match chunk_end(tail(rest, partial.at)) {
        ChunkEnd::Whole => {
            partial.part = Part::Line;
            partial.at += 2;
            Ok(Step::On)
        }
        ChunkEnd::Short => Ok(Step::Open),
        ChunkEnd::Broken => Err(ReadFault::BadFraming),
    }
}

/// Reads the trailer section.
fn read_last(partial: &mut Partial, rest: &[u8]) -> Result<Step, ReadFault>
    requires partial { IsPartial rest.now partial.old }
    requires part { partial.old.part ≡ Part.Trailer }
    ensures steps { StepsTo rest.now partial.old partial.new result }
    ensures place { partial.old.at ≤ partial.new.at }
{
    match read_trailer(tail(rest, partial.at))? {
        None => Ok(Step::Open),
        Some(len) => {
            partial.at += len;
            Ok(Step::Whole)
        }
    }
}

/// Reads what comes next of a body.
fn read_part(partial: &mut Partial, rest: &[u8]) -> Result<Step, ReadFault>
    requires { IsPartial rest.now partial.old }
    ensures steps { StepsTo rest.now partial.old partial.new result }
    ensures place { partial.old.at ≤ partial.new.at }
{
    match partial.part {
        Part::Missing(count) => read_declared(partial, rest, count),
        Part::Line => read_line(partial, rest),
        Part::Data(0) => read_end(partial, rest),
        Part::Data(left) => read_data(partial, rest, left),
        Part::Trailer => read_last(partial, rest),
    }
}

/// Reads on in a body as far as the bytes go, and says whether the request is whole.
pub(crate) fn read_body(partial: &mut Partial, rest: &[u8]) -> Result<bool, ReadFault>
    requires { IsPartial rest.now partial.old }
    ensures ends { EndsIn rest.now partial.new result }
    ensures place { partial.old.at ≤ partial.new.at }
{
    loop {
        match read_part(partial, rest)? {
            Step::Open => return Ok(false),
            Step::On => {}
            Step::Whole => return Ok(true),
        }
    }
}
