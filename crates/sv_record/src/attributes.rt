//! The attributes of a session, in order of their names' bytes.

ghost use Rattle.std.specs.Prelude.{◌≡◌, ◌≤◌, ◌++◌, true, length, take, All, OnOk, OnErr};
ghost use Rattle.std.specs.List.{AllByRecursion};
ghost use Rattle.std.specs.Str.{is_utf8};
ghost use Rattle.sv_model.specs.Attributes.{NamesRise};
ghost use Rattle.sv_model.specs.declared.session.TheConstants.{NAME_LIMIT, VALUE_LIMIT};
ghost use Rattle.sv_record.specs.Reading.{Gives};
ghost use Rattle.sv_record.specs.Format.{reads};
ghost use Rattle.sv_record.specs.Session.{attribute, attributes, behind, at_first};
ghost use Rattle.sv_record.specs.declared.version.Version.TheVariants.{Two};

use crate::attribute::{read_attribute, write_attribute};
use crate::fault::RecordFault;
use crate::number::read_u16;
use crate::version::Version;
use std::alloc::{AllocError, Global};
use sv_model::{ATTRIBUTE_LIMIT, Attributes, Sequence, Text};

/// A count, and so many attributes.
#[tactic(auto, unfolding(crate::specs::Session::attributes))]
pub(crate) fn read_attributes(
    alloc: Global,
    version: Version,
    bytes: &[u8],
) -> Result<(Attributes, &[u8]), RecordFault>
    ensures { Gives (λ x. (x.0, x.1.now)) result ((attributes version).read bytes.now) }
{
    let (count, rest) = read_u16(bytes)?;
    if usize::from(count) > ATTRIBUTE_LIMIT {
        return Err(RecordFault::BadField);
    }
    read_each(alloc, version, count, rest)
}

/// So many attributes, each with its name above the one before.
fn read_each(
    alloc: Global,
    version: Version,
    count: u16,
    bytes: &[u8],
) -> Result<(Attributes, &[u8]), RecordFault>
    ensures { Gives (λ x. (x.0, x.1.now)) result (reads (attribute version) behind count at_first bytes.now) }
{
    let mut attributes = Attributes::new(alloc);
    let mut last: &[u8] = &[];
    let mut rest = bytes;
    for _ in 0..count {
        let ((name, value), next) = read_attribute(version, rest, last, attributes.size())?;
        attributes.push(
            Text::from_str(alloc, name)?,
            Sequence::from_vec(Vec::from_slice(alloc, value)?),
        )?;
        last = name.as_bytes();
        rest = next;
    }
    Ok((attributes, rest))
}

/// A count, and each attribute.
pub(crate) fn write_attributes(all: &Attributes, out: &mut Vec<u8>) -> Result<(), AllocError>
    requires count { length all.now ≤ ATTRIBUTE_LIMIT }
    requires names { All (λ a. length a.0 ≤ NAME_LIMIT) all.now }
    requires values { All (λ a. length a.1 ≤ VALUE_LIMIT) all.now }
    ensures ok { OnOk result (out.new.items ≡ out.old.items ++ (attributes Two).text all.now) }
    ensures err { OnErr result (take (length out.old.items) out.new.items ≡ out.old.items) }
    ensures texts { OnOk result (AllByRecursion (λ a. is_utf8 a.0 ≡ true) all.now) }
    ensures rising { NamesRise all.now }
{
    out.extend_from_slice(&(all.len() as u16).to_be_bytes())?;
    for (name, value) in all.iter() {
        write_attribute(name, value, out)?;
    }
    Ok(())
}
