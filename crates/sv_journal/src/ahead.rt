//! Disks that are made longer ahead of what is written there.
ghost use Rattle.std.specs.Prelude.{◌≡◌, ◌<◌, ◌≤◌, ◌+◌, ◌^◌, List, ℕ, length, max, OnErr, IfOk};
ghost use Rattle.sv_journal.specs.Disk.{LeavesOnly, TellsOn, Only, HasRisen};
ghost use Rattle.sv_journal.specs.Ahead.{IsLengthened, IsReady};
ghost use Rattle.sv_journal.specs.declared.limits.TheConstants.{FILE_LIMIT};

use crate::{Device, Disk, FILE_LIMIT};

// So many zeros are written at once. A file system that doesn't have to note a longer file syncs in less time.
const AHEAD: usize = 65_536;

// Writes zeros after all that a disk of this length has, as many as it has room for, and answers its length then. A stop leaves
// what was there, and anything after it.
fn lay_out<D: Disk>(disk: &mut D, len: u64) -> Result<u64, Device>
    requires sized { D.tells disk.old → len ≡ length (D.seen disk.old) }
    requires small { len + 65536 < 2 ^ 64 }
    ensures ready { IfOk result (λ n. D.tells disk.old → IsReady (D.seen disk.old) n (D.seen disk.new) (D.may_leave disk.new)) }
    ensures any_moment { D.tells disk.old → Only (D.seen disk.old) (D.may_leave disk.old)
        → LeavesOnly D.moment D.left_since disk.old disk.new (IsLengthened (D.seen disk.old)) }
    ensures bounds { IfOk result (λ n. (len ≤ n) × (n ≤ len + 65536)) }
    ensures tells { TellsOn D.tells disk.old disk.new }
    ensures count { IfOk result (λ n. D.failed disk.new ≡ D.failed disk.old) }
    ensures device { OnErr result (HasRisen (D.failed disk.old) (D.failed disk.new)) }
{
    let longer = disk.extend(len, &[0u8; AHEAD])?;
    disk.sync()?;
    Ok(longer)
}

/// Makes a disk of this length ready for bytes up to the place `end`: if it ends before, zeros are laid out after all that it
/// has, so that most writes make the file no longer. Answers its length then. A disk that has no room ahead stays as it is.
pub fn make_ready<D: Disk>(disk: &mut D, len: u64, end: u64) -> Result<u64, Device>
    requires sized { D.tells disk.old → len ≡ length (D.seen disk.old) }
    ensures ready { IfOk result (λ n. D.tells disk.old → Only (D.seen disk.old) (D.may_leave disk.old)
        → IsReady (D.seen disk.old) n (D.seen disk.new) (D.may_leave disk.new)) }
    ensures any_moment { D.tells disk.old → Only (D.seen disk.old) (D.may_leave disk.old)
        → LeavesOnly D.moment D.left_since disk.old disk.new (IsLengthened (D.seen disk.old)) }
    ensures bounds { IfOk result (λ n. (len ≤ n) × (n ≤ max len FILE_LIMIT)) }
    ensures tells { TellsOn D.tells disk.old disk.new }
    ensures count { IfOk result (λ n. D.failed disk.new ≡ D.failed disk.old) }
    ensures device { OnErr result (HasRisen (D.failed disk.old) (D.failed disk.new)) }
{
    if !disk.grows_slowly() || end <= len || len > FILE_LIMIT - AHEAD as u64 {
        return Ok(len);
    }
    lay_out(disk, len)
}
