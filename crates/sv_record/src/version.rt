//! The versions of records and packets.

ghost use Rattle.std.specs.Prelude.{◌≡◌, ◌<◌, ◌^◌};
ghost use Rattle.sv_record.specs.Reading.{Gives, number_at};
ghost use Rattle.sv_record.specs.Version as spec;

use crate::fault::RecordFault;
use crate::number::{read_byte, read_u16, read_u32};
use sv_model::{SESSION_LIMIT, VALUE_LIMIT};

/// The bytes of an attribute's value by version 1, at most.
pub(crate) const VALUE_LIMIT_OF_ONE: usize = 4_096;

/// The bytes of a session's names and values together by version 1, at most.
pub(crate) const SESSION_LIMIT_OF_ONE: usize = 32_768;

/// A version of records and packets, which their first byte names.
#[derive(Clone, Copy, Debug, PartialEq, Eq)]
pub enum Version {
    /// Byte 1: a value has up to 4,096 bytes, and its length takes two. It is read and no more written.
    One,
    /// Byte 2: a value has up to 65,536 bytes, and its length takes four.
    Two,
}

impl Version {
    /// The bytes of an attribute's value, at most.
    pub(crate) fn value_limit(self) -> usize
        ensures { result ≡ spec.value_limit self }
    {
        match self {
            Version::One => VALUE_LIMIT_OF_ONE,
            Version::Two => VALUE_LIMIT,
        }
    }

    /// The bytes of a session's names and values, at most.
    pub(crate) fn session_limit(self) -> usize
        ensures limit { result ≡ spec.session_limit self }
        ensures small { spec.session_limit self < 2 ^ 32 }
    {
        match self {
            Version::One => SESSION_LIMIT_OF_ONE,
            Version::Two => SESSION_LIMIT,
        }
    }

    /// The length of an attribute's value, and what is after it.
    pub(crate) fn read_value_length(self, bytes: &[u8]) -> Result<(usize, &[u8]), RecordFault>
        ensures { Gives (λ x. (x.0, x.1.now)) result (number_at (spec.value_width self) bytes.now) }
    {
        match self {
            Version::One => {
                let (length, rest) = read_u16(bytes)?;
                Ok((usize::from(length), rest))
            }
            Version::Two => {
                let (length, rest) = read_u32(bytes)?;
                Ok((length as usize, rest))
            }
        }
    }
}

/// The version that the first byte names.
#[tactic(auto, unfolding(crate::specs::Version::version_at))]
pub(crate) fn read_version(bytes: &[u8]) -> Result<(Version, &[u8]), RecordFault>
    ensures { Gives (λ x. (x.0, x.1.now)) result (spec.version_at bytes.now) }
{
    let (byte, rest) = read_byte(bytes)?;
    match byte {
        1 => Ok((Version::One, rest)),
        2 => Ok((Version::Two, rest)),
        _ => Err(RecordFault::BadVersion),
    }
}
