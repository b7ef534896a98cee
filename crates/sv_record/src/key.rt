//! The name of a session in the cluster.

ghost use Rattle.std.specs.Prelude.{◌≡◌, ◌++◌, length, take, OnOk, OnErr};
ghost use Rattle.sv_record.specs.Reading.{Gives};
ghost use Rattle.sv_record.specs.Field.{key};
ghost use Rattle.sv_model.specs.Keys.{IsKey};

use crate::fault::RecordFault;
use crate::number::{read_counting, read_node, write_counting, write_node};
use std::alloc::AllocError;
use sv_model::Key;

#[tactic(auto, unfolding(crate::specs::Field::key))]
pub(crate) fn read_key(bytes: &[u8]) -> Result<(Key, &[u8]), RecordFault>
    ensures { Gives (λ x. (x.0, x.1.now)) result (key.read bytes.now) }
{
    let (home, rest) = read_node(bytes)?;
    let (serial, rest) = read_counting(rest)?;
    Ok((Key { home, serial }, rest))
}

#[tactic(auto, unfolding(crate::specs::Field::key))]
pub(crate) fn write_key(name: Key, out: &mut Vec<u8>) -> Result<(), AllocError>
    requires { IsKey name }
    ensures ok { OnOk result (out.new.items ≡ out.old.items ++ key.text name) }
    ensures err { OnErr result (take (length out.old.items) out.new.items ≡ out.old.items) }
    ensures fits { OnOk result (key.Fits name) }
{
    write_node(name.home, out)?;
    write_counting(name.serial, out)
}
