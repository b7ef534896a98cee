//! A file as the system gives it: what is assumed of files stands here.
ghost use Rattle.std.specs.Prelude.{◌≡◌, ◌+◌, ◌≤◌, List, ℕ, Bool, true, false, [], length, take, drop, IfOk, OnOk, OnErr};
ghost use Rattle.sv_journal.specs.Disk.{Cut, Only, Passes, Stays, Torn, written};
ghost use Rattle.sv_journal.specs.RawFile.{HasWrittenFront, IsStill};

use std::fs::File;
use std::io::{self, Seek, SeekFrom};
use std::os::unix::fs::FileExt;

/// The calls of a file by which [`OnFile`](crate::OnFile) is a disk, as the system gives them.
///
/// What a stop may leave of a file is what it may leave of a [`Disk`](crate::Disk). Of a sync that succeeds after one that has failed
/// nothing is said: Linux reports a write that was lost to one sync and counts it as done from then on (fsync(2), "ERRORS").
pub trait RawFile {
    /// It tells the facts below. A file that doesn't claims nothing of its bytes.
    ghost tells: { Self → Type 0 };

    /// What a read gives.
    ghost seen: { Self → List ℕ };

    /// The images that a stop now may leave.
    ghost may_leave: { Self → List ℕ → Type 0 };

    /// The moment, as a number that doesn't fall.
    ghost moment: { Self → ℕ };

    /// The images that a stop at some moment from that one on may have left.
    ghost left_since: { Self → ℕ → List ℕ → Type 0 };

    /// A sync has failed.
    ghost lost: { Self → Bool };

    /// The length in bytes.
    fn length(&mut self) -> io::Result<u64>
        ensures length { IfOk result (λ n. tells self.old → n ≡ length (seen self.old)) }
        ensures seen { seen self.new ≡ seen self.old }
        ensures still { IsStill tells may_leave moment left_since self.old self.new }
        ensures lost { lost self.new ≡ lost self.old };

    /// Fills `bytes` from the place `at` on (pread(2)), which lies inside the length.
    fn fill_from(&mut self, at: u64, bytes: &mut [u8]) -> io::Result<()>
        requires { tells self.old → at + length bytes.old ≤ length (seen self.old) }
        ensures bytes { OnOk result (tells self.old → bytes.new ≡ take (length bytes.old) (drop at (seen self.old))) }
        ensures seen { seen self.new ≡ seen self.old }
        ensures still { IsStill tells may_leave moment left_since self.old self.new }
        ensures lost { lost self.new ≡ lost self.old };

    /// Writes `bytes` from the place `at` on (pwrite(2)), which isn't past the length. If it fails it has written a front of them.
    fn put_at(&mut self, at: u64, bytes: &[u8]) -> io::Result<()>
        requires { tells self.old → at ≤ length (seen self.old) }
        ensures written { OnOk result (tells self.old → seen self.new ≡ written at bytes.now (seen self.old)) }
        ensures front { OnErr result (tells self.old → HasWrittenFront at bytes.now (seen self.old) (seen self.new)) }
        ensures stop { Passes tells may_leave moment left_since (Torn at (length bytes.now)) self.old self.new }
        ensures lost { lost self.new ≡ lost self.old };

    /// Takes away what stands from the place `len` on (ftruncate(2)), which isn't past the length.
    fn shorten(&mut self, len: u64) -> io::Result<()>
        requires { tells self.old → len ≤ length (seen self.old) }
        ensures cut { OnOk result (tells self.old → seen self.new ≡ take len (seen self.old)) }
        ensures stop { Passes tells may_leave moment left_since (Cut len) self.old self.new }
        ensures lost { lost self.new ≡ lost self.old };

    /// After it a stop leaves what a read gives, if no sync has failed before (fdatasync(2)).
    fn sync_all_data(&mut self) -> io::Result<()>
        ensures durable { OnOk result (tells self.old → lost self.old ≡ false → Only (seen self.old) (may_leave self.new)) }
        ensures seen { seen self.new ≡ seen self.old }
        ensures stop { Passes tells may_leave moment left_since Stays self.old self.new }
        ensures lost { OnOk result (lost self.new ≡ lost self.old) };

    /// The file as it reads is one of the images that a stop may leave.
    ghost reads_now: { (file : Self) → tells file → may_leave file (seen file) };

    /// This moment is one of those since an earlier one.
    ghost counts_now: { (file : Self) (t : ℕ) (c : List ℕ) → tells file → t ≤ moment file → may_leave file c → left_since file t c };

    /// Since this moment there is no other.
    ghost only_now: { (file : Self) (c : List ℕ) → tells file → left_since file (moment file) c → may_leave file c };
}

/// The kit says of its calls only how much they moved, so this one tells nothing.
impl RawFile for File {
    ghost tells = { λ _. ⊥ };

    ghost seen = { λ _. [] };

    ghost may_leave = { λ _ _. ⊥ };

    ghost moment = { λ _. 0 };

    ghost left_since = { λ _ _ _. ⊥ };

    ghost lost = { λ _. false };

    ghost reads_now = { λ _ no. absurd no };

    ghost counts_now = { λ _ _ _ no _ _. absurd no };

    ghost only_now = { λ _ _ no _. absurd no };

    // By its end and not by its metadata: to ask for a file's times makes the next write of a synced file dearer.
    fn length(&mut self) -> io::Result<u64> {
        self.seek(SeekFrom::End(0))
    }

    fn fill_from(&mut self, at: u64, bytes: &mut [u8]) -> io::Result<()> {
        self.read_exact_at(bytes, at)
    }

    fn put_at(&mut self, at: u64, bytes: &[u8]) -> io::Result<()> {
        self.write_all_at(bytes, at)
    }

    fn shorten(&mut self, len: u64) -> io::Result<()> {
        self.set_len(len)
    }

    fn sync_all_data(&mut self) -> io::Result<()> {
        self.sync_data()
    }
}
