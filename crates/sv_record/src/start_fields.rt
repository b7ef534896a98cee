//! What a start of a node, and the head of a snapshot, have after their kind.

ghost use Rattle.std.specs.Prelude.{◌≡◌, ◌++◌, length, take, OnOk, OnErr};
ghost use Rattle.sv_model.specs.declared.record.Record.TheVariants.{Boot, Counters, Forgets, Counted};
ghost use Rattle.sv_model.specs.Ranges.{IsRecord};
ghost use Rattle.sv_record.specs.Reading.{Gives};
ghost use Rattle.sv_record.specs.Record.{by_kind, record_format};
ghost use Rattle.sv_record.specs.declared.version.Version.TheVariants.{One, Two};

use crate::fault::RecordFault;
use crate::number::{
    read_counting, read_node, read_u64, write_byte, write_counting, write_node, write_u64,
};
use std::alloc::AllocError;
use sv_model::Record;

// A kind without a session is read the same by each version.
pub(crate) fn read_boot(bytes: &[u8]) -> Result<(Record, &[u8]), RecordFault>
    ensures { Gives (λ x. (x.0, x.1.now)) result (by_kind One 1 bytes.now) }
{
    let (boot, rest) = read_counting(bytes)?;
    Ok((Record::Boot(boot), rest))
}

pub(crate) fn read_counters(bytes: &[u8]) -> Result<(Record, &[u8]), RecordFault>
    ensures { Gives (λ x. (x.0, x.1.now)) result (by_kind One 8 bytes.now) }
{
    let (boot, rest) = read_u64(bytes)?;
    let (next, rest) = read_counting(rest)?;
    Ok((Record::Counters { boot, next }, rest))
}

pub(crate) fn read_forgets(bytes: &[u8]) -> Result<(Record, &[u8]), RecordFault>
    ensures { Gives (λ x. (x.0, x.1.now)) result (by_kind One 9 bytes.now) }
{
    let (home, rest) = read_node(bytes)?;
    let (boot, rest) = read_counting(rest)?;
    Ok((Record::Forgets { home, boot }, rest))
}

pub(crate) fn read_counted(bytes: &[u8]) -> Result<(Record, &[u8]), RecordFault>
    ensures { Gives (λ x. (x.0, x.1.now)) result (by_kind One 10 bytes.now) }
{
    let (home, rest) = read_node(bytes)?;
    let (boot, rest) = read_u64(rest)?;
    let (next, rest) = read_counting(rest)?;
    Ok((Record::Counted { home, boot, next }, rest))
}

#[tactic(auto, unfolding(crate::specs::Record::record_format))]
pub(crate) fn write_boot(boot: u64, out: &mut Vec<u8>) -> Result<(), AllocError>
    requires { IsRecord (Boot boot) }
    ensures ok { OnOk result (out.new.items ≡ out.old.items ++ (record_format Two).text (Boot boot)) }
    ensures fits { OnOk result ((record_format Two).Fits (Boot boot)) }
    ensures err { OnErr result (take (length out.old.items) out.new.items ≡ out.old.items) }
{
    write_byte(1, out)?;
    write_counting(boot, out)
}

#[tactic(auto, unfolding(crate::specs::Record::record_format))]
pub(crate) fn write_counters(boot: u64, next: u64, out: &mut Vec<u8>) -> Result<(), AllocError>
    requires { IsRecord (Counters boot next) }
    ensures ok { OnOk result (out.new.items ≡ out.old.items ++ (record_format Two).text (Counters boot next)) }
    ensures fits { OnOk result ((record_format Two).Fits (Counters boot next)) }
    ensures err { OnErr result (take (length out.old.items) out.new.items ≡ out.old.items) }
{
    write_byte(8, out)?;
    write_u64(boot, out)?;
    write_counting(next, out)
}

#[tactic(auto, unfolding(crate::specs::Record::record_format))]
pub(crate) fn write_forgets(home: u8, boot: u64, out: &mut Vec<u8>) -> Result<(), AllocError>
    requires { IsRecord (Forgets home boot) }
    ensures ok { OnOk result (out.new.items ≡ out.old.items ++ (record_format Two).text (Forgets home boot)) }
    ensures fits { OnOk result ((record_format Two).Fits (Forgets home boot)) }
    ensures err { OnErr result (take (length out.old.items) out.new.items ≡ out.old.items) }
{
    write_byte(9, out)?;
    write_node(home, out)?;
    write_counting(boot, out)
}

#[tactic(auto, unfolding(crate::specs::Record::record_format))]
pub(crate) fn write_counted(
    home: u8,
    boot: u64,
    next: u64,
    out: &mut Vec<u8>,
) -> Result<(), AllocError>
    requires { IsRecord (Counted home boot next) }
    ensures ok { OnOk result (out.new.items ≡ out.old.items ++ (record_format Two).text (Counted home boot next)) }
    ensures fits { OnOk result ((record_format Two).Fits (Counted home boot next)) }
    ensures err { OnErr result (take (length out.old.items) out.new.items ≡ out.old.items) }
{
    write_byte(10, out)?;
    write_node(home, out)?;
    write_u64(boot, out)?;
    write_counting(next, out)
}
