//! A journal on two disks.
ghost use Rattle.std.specs.Prelude.{◌≡◌, ◌≢◌, ◌⊎◌, ◌<◌, ◌≤◌, ◌+◌, ◌-◌, ◌^◌, ◌++◌, [], ◌∷◌, List, ℕ, length, take};
ghost use Rattle.std.specs.Prelude.{drop, max, not, true, false, IfOk, IfErr, OnOk, OnErr, IsErr, IfSome, IfNone, IsErrOf, IsTrue, ◌↔◌};
ghost use Rattle.std.specs.Bool.{Decides};
ghost use Rattle.std.specs.List.{flat_map, All};
ghost use Rattle.sv_journal.specs.Batch.{IsBatch, Stages, size_of};
ghost use Rattle.sv_journal.specs.Disk.{LeavesOnly, IsQuiet, TellsOn, HasRisen};
ghost use Rattle.sv_journal.specs.Format.{entry, Opens, OpensEither, OpensReplaced, payloads};
ghost use Rattle.sv_journal.specs.Journal.{Holds, IsSound, disk_a, disk_b, disks, OpensWithoutLoss};
ghost use Rattle.sv_journal.specs.Opening.{journal_at};
ghost use Rattle.sv_journal.specs.declared.limits.TheConstants.{FILE_LIMIT, PAYLOAD_LIMIT};

use crate::ahead::make_ready;
use crate::batch::Batch;
use crate::commit::commit;
use crate::entries::ENTRY_HEAD;
use crate::opening::{Position, find_or_make};
use crate::reading::read_entries;
use crate::replacing::replace;
use crate::snapshot::{behind_gate, snapshot_len};
use crate::{Disk, FILE_LIMIT, JournalFault, NotOpened};
use std::alloc::Global;
use std::marker::Model;
use std::mem::swap;

/// A list of entries, which grows by one at a time and is replaced as a whole. What `append` or `compact` answered with
/// Ok is there after every stop; what they didn't answer is there whole or not at all.
#[derive(Drop)]
pub struct Journal<D: Disk> {
    current: D,
    other: D,
    on_a: bool,
    generation: u64,
    end: u64,
    len: u64,
    is_live: bool,
    alloc: Global,
}

impl<D: Disk> Model for Journal<D> {
    ghost use Rattle.sv_journal.specs.Journal.{JournalView, IsSound};

    ghost Value = { JournalView D };

    ghost view = { λ j. record { current = j.current; other = j.other; on_a = j.on_a; generation = j.generation; end = j.end; len = j.len; live = j.is_live } };

    ghost invariant = { λ j. IsSound D.tells D.seen D.may_leave
        (record { current = j.current; other = j.other; on_a = j.on_a; generation = j.generation; end = j.end; len = j.len; live = j.is_live }) };
}

impl<D: Disk> Journal<D> {
    /// Opens the disks A and B: both are synced, the open disk of the greater generation is read, and where neither is
    /// open a first journal is made on A, if no more stands there than a stop leaves while it is made. On each fault
    /// the disks are handed back.
    ///
    /// Damaged: an open disk has other letters or another format's number; both disks are open with one generation;
    /// the disk that is read ends at the gate of an entry, or has an open entry that is cut off or longer than 524,288
    /// bytes; or no disk is open while A has more than 17 bytes or B more than 1.
    pub fn open(alloc: Global, mut a: D, mut b: D) -> Result<Journal<D>, NotOpened<D>>
        // It holds the entries with which the images open.
        ensures holds { IfOk result (λ j. D.tells a → D.tells b → (entries : List (List ℕ)) → Opens (D.seen a) (D.seen b) entries
            → Holds D.seen D.may_leave j entries) }
        ensures opens { IfOk result (λ j. D.tells a → D.tells b → (entries : List (List ℕ)) × Opens (D.seen a) (D.seen b) entries) }
        ensures live { IfOk result (λ j. IsTrue j.live) }
        ensures damaged { IfErr result (λ r. r.fault ≡ JournalFault.Damaged → D.tells a → D.tells b → (entries : List (List ℕ))
            → Opens (D.seen a) (D.seen b) entries → ⊥) }

        // A stop at any moment of the call loses nothing.
        ensures any_moment { IfOk result (λ j. D.tells a → D.tells b → OpensWithoutLoss D.seen D.may_leave D.moment D.left_since a b (disk_a j) (disk_b j)) }
        ensures any_moment_err { IfErr result (λ r. D.tells a → D.tells b → OpensWithoutLoss D.seen D.may_leave D.moment D.left_since a b r.a r.b) }
        // Where disk B is the one that is read, nothing is written to disk A.
        ensures kept_a { IfOk result (λ j. j.on_a ≡ false → D.tells a → LeavesOnly D.moment D.left_since a (disk_a j) (D.may_leave a)) }
        ensures tells { IfOk result (λ j. TellsOn D.tells a (disk_a j) × TellsOn D.tells b (disk_b j)) }
        ensures tells_err { IfErr result (λ r. TellsOn D.tells a r.a × TellsOn D.tells b r.b) }

        ensures unchanged { IfErr result (λ r. r.fault ≡ JournalFault.Damaged → (D.seen r.a ≡ D.seen a) × (D.seen r.b ≡ D.seen b)) }
        ensures count { IfOk result (λ j. (D.failed (disk_a j) ≡ D.failed a) × (D.failed (disk_b j) ≡ D.failed b)) }
        ensures device { IfErr result (λ r. r.fault ≡ JournalFault.Device → HasRisen (D.failed a) (D.failed r.a) ⊎ HasRisen (D.failed b) (D.failed r.b)) }
        ensures fault { IfErr result (λ r. (r.fault ≡ JournalFault.Damaged) ⊎ (r.fault ≡ JournalFault.Device)) }
    {
        match find_or_make(&mut a, &mut b) {
            Ok(place) => Ok(seated(alloc, a, b, place)),
            Err(fault) => Err(NotOpened { fault, a, b }),
        }
    }

    /// Adds an entry of at most 524,288 bytes after the others: two writes and two syncs. After Device all calls but
    /// `len` and `into_disks` answer Failed until the disks are opened again, and whether the entry is there shows
    /// then; after the other faults the journal is as it was. Full where the file would be longer than
    /// 1,073,741,824 bytes.
    pub fn append(&mut self, payload: &[u8]) -> Result<(), JournalFault>
        requires { length payload.now ≤ PAYLOAD_LIMIT }
        // Once it is Ok, a stop leaves the entries with the new one last.
        ensures added { OnOk result ((entries : List (List ℕ)) → D.tells self.old.current → Holds D.seen D.may_leave self.old entries
            → Holds D.seen D.may_leave self.new (entries ++ payload.now ∷ [])) }
        // A stop at any moment of the call leaves the old entries, or those with the new one last.
        ensures any_moment { (entries : List (List ℕ)) → D.tells self.old.current → Holds D.seen D.may_leave self.old entries
            → LeavesOnly D.moment D.left_since self.old.current self.new.current (OpensEither (D.seen self.old.other) entries (entries ++ payload.now ∷ [])) }
        ensures tells { TellsOn D.tells self.old.current self.new.current }
        ensures other { self.new.other ≡ self.old.other }
        ensures on_a { self.new.on_a ≡ self.old.on_a }
        ensures generation { self.new.generation ≡ self.old.generation }
        ensures end { OnOk result (self.new.end ≡ self.old.end + 5 + length payload.now) }
        ensures len { OnOk result ((max self.old.len (self.old.end + 6 + length payload.now) ≤ self.new.len) × (self.new.len ≤ max self.old.len FILE_LIMIT)) }
        ensures len_err { OnErr result (self.new.len ≡ self.old.len) }
        ensures live { OnOk result (IsTrue self.new.live) }

        ensures failed { IsErrOf result JournalFault.Failed ↔ (self.old.live ≡ false) }
        ensures full { IsErrOf result JournalFault.Full ↔ (IsTrue self.old.live × (FILE_LIMIT < max self.old.len (self.old.end + 6 + length payload.now))) }
        ensures device { IsErrOf result JournalFault.Device → (self.new.live ≡ false) × HasRisen (D.failed self.old.current) (D.failed self.new.current) }
        ensures unchanged { IsErr result → ¬ IsErrOf result JournalFault.Device → self.new ≡ self.old }
        ensures damaged { ¬ IsErrOf result JournalFault.Damaged }
    {
        if !self.is_live {
            return Err(JournalFault::Failed);
        }
        let size = payload.len() + ENTRY_HEAD as usize + 1;
        if !self.has_room(size) {
            return Err(JournalFault::Full);
        }
        let mut batch = Batch::with_capacity(self.alloc, size)?;
        batch.add(payload)?;
        self.append_all(&batch)
    }

    /// Adds the entries of a batch after the others, in order: two writes and two syncs however many they are, and no
    /// call of a disk where there are none. A stop leaves all of them or none. After Device all calls but `len` and
    /// `into_disks` answer Failed until the disks are opened again, and whether the entries are there shows then; after
    /// the other faults the journal is as it was. Full where the file would be longer than 1,073,741,824 bytes. It takes
    /// no memory.
    pub fn append_all(&mut self, batch: &Batch) -> Result<(), JournalFault>
        requires { IsBatch batch.now }
        // Once it is Ok, a stop leaves the entries before with those of the batch after them.
        ensures added { OnOk result ((before entries : List (List ℕ)) → D.tells self.old.current → Holds D.seen D.may_leave self.old before
            → Stages batch.now entries
            → Holds D.seen D.may_leave self.new (before ++ entries)) }
        // A stop at any moment of the call leaves the entries before, or those with all of the batch's after them.
        ensures any_moment { (before entries : List (List ℕ)) → D.tells self.old.current → Holds D.seen D.may_leave self.old before → Stages batch.now entries
            → LeavesOnly D.moment D.left_since self.old.current self.new.current (OpensEither (D.seen self.old.other) before (before ++ entries)) }
        ensures none { size_of batch.now ≡ 1 → self.new ≡ self.old }
        ensures tells { TellsOn D.tells self.old.current self.new.current }
        ensures other { self.new.other ≡ self.old.other }
        ensures on_a { self.new.on_a ≡ self.old.on_a }
        ensures generation { self.new.generation ≡ self.old.generation }
        ensures end { OnOk result (self.new.end + 1 ≡ self.old.end + size_of batch.now) }
        ensures len { OnOk result ((max self.old.len (self.old.end + size_of batch.now) ≤ self.new.len) × (self.new.len ≤ max self.old.len FILE_LIMIT)) }
        ensures len_err { OnErr result (self.new.len ≡ self.old.len) }
        ensures live { OnOk result (IsTrue self.new.live) }

        ensures failed { IsErrOf result JournalFault.Failed ↔ (self.old.live ≡ false) }
        ensures full { IsErrOf result JournalFault.Full ↔ (IsTrue self.old.live × (1 < size_of batch.now)
            × (FILE_LIMIT < max self.old.len (self.old.end + size_of batch.now))) }
        ensures device { IsErrOf result JournalFault.Device → (self.new.live ≡ false) × HasRisen (D.failed self.old.current) (D.failed self.new.current) }
        ensures unchanged { IsErr result → ¬ IsErrOf result JournalFault.Device → self.new ≡ self.old }
        ensures damaged { ¬ IsErrOf result JournalFault.Damaged }
        ensures memory { ¬ IsErrOf result JournalFault.Memory }
    {
        if !self.is_live {
            return Err(JournalFault::Failed);
        }
        let bytes = batch.behind_gate();
        if bytes.is_empty() {
            return Ok(());
        }
        if !self.has_room(bytes.len() + 1) {
            return Err(JournalFault::Full);
        }
        let end = self.end + bytes.len() as u64;
        self.is_live = false;
        let len = make_ready(&mut self.current, self.len, end + 1)?;
        commit(&mut self.current, self.end, bytes)?;
        self.is_live = true;
        self.end = end;
        self.len = len.max(end + 1);
        Ok(())
    }

    /// Whether the file has room for a batch of this size.
    pub fn has_room(&self, size: usize) -> bool
        ensures { Decides result (max self.now.len (self.now.end + size) ≤ FILE_LIMIT) }
    {
        self.len <= FILE_LIMIT && size as u64 <= FILE_LIMIT - self.end
    }

    /// Puts these entries, each of at most 524,288 bytes, in the place of all others: they are written to the other
    /// disk with the next generation, and that disk is current from then on. After Device all calls but `len` and
    /// `into_disks` answer Failed until the disks are opened again, and which entries are there shows then; after the
    /// other faults the journal is as it was. Full where the file would be longer than 1,073,741,824 bytes, and at the
    /// generation 2^64 - 1.
    pub fn compact(&mut self, entries: &[Vec<u8>]) -> Result<(), JournalFault>
        requires { All (λ payload. length payload.items ≤ PAYLOAD_LIMIT) entries.now }
        // Once it is Ok, a stop leaves the given entries.
        ensures replaced { OnOk result ((before : List (List ℕ)) → D.tells self.old.other → Holds D.seen D.may_leave self.old before
            → Holds D.seen D.may_leave self.new (payloads entries.now)) }
        // A stop at any moment of the call leaves the old entries or the given ones.
        ensures any_moment { OnOk result ((before : List (List ℕ)) → D.tells self.old.other → Holds D.seen D.may_leave self.old before
            → LeavesOnly D.moment D.left_since self.old.other self.new.current (OpensReplaced (D.seen self.old.current) before (payloads entries.now))) }
        ensures any_moment_err { OnErr result ((before : List (List ℕ)) → D.tells self.old.other → Holds D.seen D.may_leave self.old before
            → LeavesOnly D.moment D.left_since self.old.other self.new.other (OpensReplaced (D.seen self.old.current) before (payloads entries.now))) }
        ensures tells { OnOk result (TellsOn D.tells self.old.other self.new.current) }
        ensures tells_err { OnErr result (TellsOn D.tells self.old.other self.new.other) }
        ensures other { OnOk result (self.new.other ≡ self.old.current) }
        ensures current { OnErr result (self.new.current ≡ self.old.current) }
        ensures on_a { OnOk result (self.new.on_a ≡ not self.old.on_a) }
        ensures on_a_err { OnErr result (self.new.on_a ≡ self.old.on_a) }
        ensures generation { OnOk result (self.new.generation ≡ self.old.generation + 1) }
        ensures end { OnOk result (self.new.end + 1 ≡ self.new.len) }
        ensures len { OnOk result (self.new.len ≡ 17 + length (flat_map entry (payloads entries.now))) }
        ensures len_err { OnErr result (self.new.len ≡ self.old.len) }
        ensures live { OnOk result (IsTrue self.new.live) }

        ensures failed { IsErrOf result JournalFault.Failed ↔ (self.old.live ≡ false) }
        ensures full { IsErrOf result JournalFault.Full ↔ (IsTrue self.old.live
            × ((self.old.generation ≡ 2 ^ 64 - 1) ⊎ (FILE_LIMIT < 17 + length (flat_map entry (payloads entries.now))))) }
        ensures device { IsErrOf result JournalFault.Device → (self.new.live ≡ false) × HasRisen (D.failed self.old.other) (D.failed self.new.other) }
        ensures unchanged { IsErr result → ¬ IsErrOf result JournalFault.Device → self.new ≡ self.old }
        ensures damaged { ¬ IsErrOf result JournalFault.Damaged }
    {
        if !self.is_live {
            return Err(JournalFault::Failed);
        }
        if self.generation == u64::MAX {
            return Err(JournalFault::Full);
        }
        let Some(len) = snapshot_len(entries) else {
            return Err(JournalFault::Full);
        };
        let generation = self.generation + 1;
        let bytes = behind_gate(self.alloc, generation, entries)?;
        self.is_live = false;
        replace(&mut self.other, &bytes)?;
        self.is_live = true;
        swap(&mut self.current, &mut self.other);
        self.on_a = !self.on_a;
        self.generation = generation;
        self.end = len - 1;
        self.len = len;
        Ok(())
    }

    /// The payloads of the entries, the oldest first, read from the disk. Device leaves the journal usable. A disk that
    /// tells what it holds is never Damaged here; a file that somebody else has written may be.
    pub fn records(&mut self) -> Result<Vec<Vec<u8>>, JournalFault>
        ensures entries { IfOk result (λ found. (entries : List (List ℕ)) → D.tells self.old.current → Holds D.seen D.may_leave self.old entries
            → payloads found.items ≡ entries) }
        ensures kept { (entries : List (List ℕ)) → D.tells self.old.current → Holds D.seen D.may_leave self.old entries
            → Holds D.seen D.may_leave self.new entries }
        ensures quiet { IsQuiet D.tells D.seen D.may_leave D.moment D.left_since self.old.current self.new.current }
        ensures same { self.new ≡ record self.old { current = self.new.current } }

        ensures failed { IsErrOf result JournalFault.Failed ↔ (self.old.live ≡ false) }
        ensures count { OnOk result (D.failed self.new.current ≡ D.failed self.old.current) }
        ensures device { IsErrOf result JournalFault.Device → HasRisen (D.failed self.old.current) (D.failed self.new.current) }
        ensures damaged { IsErrOf result JournalFault.Damaged → D.tells self.old.current → ⊥ }
        ensures full { ¬ IsErrOf result JournalFault.Full }
    {
        if !self.is_live {
            return Err(JournalFault::Failed);
        }
        read_entries(self.alloc, &mut self.current, self.len)
    }

    /// The length of the journal's file in bytes when a call last succeeded.
    pub fn len(&self) -> u64
        ensures { result ≡ self.now.len }
    {
        self.len
    }

    /// The bytes up to the gate that ends the entries, with it. What is laid out ahead counts for the file's length alone.
    pub fn used(&self) -> u64
        ensures { result ≡ self.now.end + 1 }
    {
        let is_within = self.end < self.len;
        prove!(is_within);
        self.end + 1
    }

    /// No call of a disk has failed in an append or a compaction since the disks were opened.
    pub fn is_live(&self) -> bool
        ensures { result ≡ self.now.live }
    {
        self.is_live
    }

    /// The disks A and B.
    pub fn into_disks(self) -> (D, D)
        ensures { result ≡ disks self }
    {
        let Journal {
            current,
            other,
            on_a,
            generation: _,
            end: _,
            len: _,
            is_live: _,
            alloc: _,
        } = self;
        if on_a {
            (current, other)
        } else {
            (other, current)
        }
    }
}

// The journal at this place of the disks A and B.
fn seated<D: Disk>(alloc: Global, a: D, b: D, place: Position) -> Journal<D>
    requires { IsSound D.tells D.seen D.may_leave (journal_at a b place) }
    ensures { result ≡ journal_at a b place }
{
    let (current, other) = if place.on_a { (a, b) } else { (b, a) };
    Journal {
        current,
        other,
        on_a: place.on_a,
        generation: place.generation,
        end: place.end,
        len: place.len,
        is_live: true,
        alloc,
    }
}
