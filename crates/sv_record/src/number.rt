//! Numbers, and runs of bytes. All numbers are big-endian.

ghost use Rattle.std.specs.Prelude.{◌≡◌, ◌++◌, length, take, OnOk, OnErr, IfOk};
ghost use Rattle.std.specs.Int.{w8, w16, w32, to_be_bytes};
ghost use Rattle.sv_record.specs.Reading.{Gives, number_at, bytes_at};
ghost use Rattle.sv_record.specs.Field.{long, counting, node, flag, signed};
ghost use Rattle.sv_model.specs.Keys.{IsCounting, IsNode};

use crate::fault::RecordFault;
use std::alloc::AllocError;
use sv_model::NODE_LIMIT;

pub(crate) fn read_byte(bytes: &[u8]) -> Result<(u8, &[u8]), RecordFault>
    ensures { Gives (λ x. (x.0, x.1.now)) result (number_at w8 bytes.now) }
{
    match bytes {
        [] => Err(RecordFault::Truncated),
        [byte, rest @ ..] => Ok((*byte, rest)),
    }
}

pub(crate) fn read_u16(bytes: &[u8]) -> Result<(u16, &[u8]), RecordFault>
    ensures { Gives (λ x. (x.0, x.1.now)) result (number_at w16 bytes.now) }
{
    let (front, rest) = read_bytes(bytes, 2)?;
    Ok((u16::from_be_bytes([front[0], front[1]]), rest))
}

pub(crate) fn read_u32(bytes: &[u8]) -> Result<(u32, &[u8]), RecordFault>
    ensures { Gives (λ x. (x.0, x.1.now)) result (number_at w32 bytes.now) }
{
    let (front, rest) = read_bytes(bytes, 4)?;
    let number = u32::from_be_bytes([front[0], front[1], front[2], front[3]]);
    Ok((number, rest))
}

#[tactic(auto, unfolding(crate::specs::Field::long))]
pub(crate) fn read_u64(bytes: &[u8]) -> Result<(u64, &[u8]), RecordFault>
    ensures { Gives (λ x. (x.0, x.1.now)) result (long.read bytes.now) }
{
    if bytes.len() < 8 {
        return Err(RecordFault::Truncated);
    }
    let (front, rest) = bytes.split_at(8);
    let number = u64::from_be_bytes([
        front[0], front[1], front[2], front[3], front[4], front[5], front[6], front[7],
    ]);
    Ok((number, rest))
}

#[tactic(auto, unfolding(crate::specs::Field::signed))]
pub(crate) fn read_i32(bytes: &[u8]) -> Result<(i32, &[u8]), RecordFault>
    ensures { Gives (λ x. (x.0, x.1.now)) result (signed.read bytes.now) }
{
    let (front, rest) = read_bytes(bytes, 4)?;
    let number = i32::from_be_bytes([front[0], front[1], front[2], front[3]]);
    Ok((number, rest))
}

/// So many bytes, and what is after them.
pub(crate) fn read_bytes(bytes: &[u8], count: usize) -> Result<(&[u8], &[u8]), RecordFault>
    ensures read { Gives (λ x. (x.0.now, x.1.now)) result (bytes_at count bytes.now) }
    ensures length { IfOk result (λ x. length x.0.now ≡ count) }
{
    if bytes.len() < count {
        return Err(RecordFault::Truncated);
    }
    Ok(bytes.split_at(count))
}

/// A number that isn't 0: an epoch, or a serial.
#[tactic(auto, unfolding(crate::specs::Field::counting))]
pub(crate) fn read_counting(bytes: &[u8]) -> Result<(u64, &[u8]), RecordFault>
    ensures { Gives (λ x. (x.0, x.1.now)) result (counting.read bytes.now) }
{
    let (number, rest) = read_u64(bytes)?;
    if number == 0 {
        return Err(RecordFault::BadField);
    }
    Ok((number, rest))
}

/// The number of a node, below 8.
#[tactic(auto, unfolding(crate::specs::Field::node))]
pub(crate) fn read_node(bytes: &[u8]) -> Result<(u8, &[u8]), RecordFault>
    ensures { Gives (λ x. (x.0, x.1.now)) result (node.read bytes.now) }
{
    let (node, rest) = read_byte(bytes)?;
    if node >= NODE_LIMIT {
        return Err(RecordFault::BadField);
    }
    Ok((node, rest))
}

#[tactic(auto, unfolding(crate::specs::Field::flag))]
pub(crate) fn read_flag(bytes: &[u8]) -> Result<(bool, &[u8]), RecordFault>
    ensures { Gives (λ x. (x.0, x.1.now)) result (flag.read bytes.now) }
{
    let (byte, rest) = read_byte(bytes)?;
    match byte {
        0 => Ok((false, rest)),
        1 => Ok((true, rest)),
        _ => Err(RecordFault::BadField),
    }
}

pub(crate) fn write_byte(byte: u8, out: &mut Vec<u8>) -> Result<(), AllocError>
    ensures ok { OnOk result (out.new.items ≡ out.old.items ++ to_be_bytes w8 byte) }
    ensures err { OnErr result (take (length out.old.items) out.new.items ≡ out.old.items) }
{
    out.extend_from_slice(&byte.to_be_bytes())
}

#[tactic(auto, unfolding(crate::specs::Field::long))]
pub(crate) fn write_u64(number: u64, out: &mut Vec<u8>) -> Result<(), AllocError>
    ensures ok { OnOk result (out.new.items ≡ out.old.items ++ long.text number) }
    ensures err { OnErr result (take (length out.old.items) out.new.items ≡ out.old.items) }
    ensures fits { long.Fits number }
{
    out.extend_from_slice(&number.to_be_bytes())
}

#[tactic(auto, unfolding(crate::specs::Field::counting))]
pub(crate) fn write_counting(number: u64, out: &mut Vec<u8>) -> Result<(), AllocError>
    requires { IsCounting number }
    ensures ok { OnOk result (out.new.items ≡ out.old.items ++ counting.text number) }
    ensures err { OnErr result (take (length out.old.items) out.new.items ≡ out.old.items) }
    ensures fits { counting.Fits number }
{
    write_u64(number, out)
}

#[tactic(auto, unfolding(crate::specs::Field::node))]
pub(crate) fn write_node(number: u8, out: &mut Vec<u8>) -> Result<(), AllocError>
    requires { IsNode number }
    ensures ok { OnOk result (out.new.items ≡ out.old.items ++ node.text number) }
    ensures err { OnErr result (take (length out.old.items) out.new.items ≡ out.old.items) }
    ensures fits { node.Fits number }
{
    out.extend_from_slice(&number.to_be_bytes())
}

// By reference, since a contract sees a signed number that is passed by value only through its bits.
#[tactic(auto, unfolding(crate::specs::Field::signed))]
pub(crate) fn write_i32(number: &i32, out: &mut Vec<u8>) -> Result<(), AllocError>
    ensures ok { OnOk result (out.new.items ≡ out.old.items ++ signed.text number.now) }
    ensures err { OnErr result (take (length out.old.items) out.new.items ≡ out.old.items) }
    ensures fits { signed.Fits number.now }
{
    out.extend_from_slice(&number.to_be_bytes())
}

#[tactic(auto, unfolding(crate::specs::Field::flag))]
pub(crate) fn write_flag(is_set: bool, out: &mut Vec<u8>) -> Result<(), AllocError>
    ensures ok { OnOk result (out.new.items ≡ out.old.items ++ flag.text is_set) }
    ensures err { OnErr result (take (length out.old.items) out.new.items ≡ out.old.items) }
    ensures fits { flag.Fits is_set }
{
    write_byte(u8::from(is_set), out)
}
