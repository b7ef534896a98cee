//! A disk over a file that the system refuses something: room for all of a text, or a sync.
//!
//! The file is one in memory which tells its bytes, so that what a disk over a file promises is claimed of it.
use crate::disk::fixtures::disk_of;
use crate::fixtures::expect_bytes;
use std::alloc::Global;
use std::io::{self, ErrorKind};
use std::process::Abort;
use sv_journal::{Device, Disk, MemoryDisk, OnFile, RawFile};

/// A file in memory that has room for so many bytes more, and of which so many syncs fail.
#[derive(Drop)]
struct SmallFile {
    disk: MemoryDisk,
    room: usize,
    syncs_to_fail: u32,
    has_lost: bool,
}

fn refused() -> io::Error {
    io::Error::from(ErrorKind::Other)
}

impl RawFile for SmallFile {
    ghost use Rattle.sv_journal.specs.MemoryDisk.{disk_bytes, may_be_left, moment_of, was_left_since};
    ghost use Rattle.sv_journal.specs.Past.{counts, newest, only, reads_at};

    ghost tells = { λ _. Unit {0} };

    ghost seen = { λ f. disk_bytes f.disk };

    ghost may_leave = { λ f. may_be_left f.disk };

    ghost moment = { λ f. moment_of f.disk };

    ghost left_since = { λ f. was_left_since f.disk };

    ghost lost = { λ f. f.has_lost };

    ghost reads_now = { λ f _. reads_at f.disk.first.items (newest f.disk.calls.items) f.disk.bytes.items f.disk.replayed };

    ghost counts_now = { λ f t c _ le now. counts f.disk.first.items (newest f.disk.calls.items) t c le now };

    ghost only_now = { λ f c _ left. only f.disk.first.items (newest f.disk.calls.items) c left };

    fn length(&mut self) -> io::Result<u64> {
        Ok(self.disk.bytes().len() as u64)
    }

    fn fill_from(&mut self, at: u64, bytes: &mut [u8]) -> io::Result<()> {
        let at = at as usize;
        bytes.copy_from_slice(&self.disk.bytes()[at..at + bytes.len()]);
        Ok(())
    }

    fn put_at(&mut self, at: u64, bytes: &[u8]) -> io::Result<()> {
        let front = &bytes[..bytes.len().min(self.room)];
        if self.disk.write_at(at, front).is_err() {
            return Err(refused());
        }
        self.room -= front.len();
        if front.len() < bytes.len() {
            return Err(io::Error::from(ErrorKind::StorageFull));
        }
        Ok(())
    }

    fn shorten(&mut self, len: u64) -> io::Result<()> {
        self.disk.cut(len).map_err(|_| refused())
    }

    fn sync_all_data(&mut self) -> io::Result<()> {
        if self.syncs_to_fail == 0 && self.disk.sync().is_ok() {
            return Ok(());
        }
        self.syncs_to_fail = self.syncs_to_fail.saturating_sub(1);
        self.has_lost = true;
        Err(refused())
    }
}

/// A disk of three bytes over such a file.
fn disk_over(rt: &impl Abort, alloc: Global, room: usize, syncs_to_fail: u32) -> OnFile<SmallFile> {
    OnFile::new(SmallFile {
        disk: disk_of(rt, alloc, b"abc", 0),
        room,
        syncs_to_fail,
        has_lost: false,
    })
}

/// A text is put after what a disk holds.
fn extended(disk: &mut impl Disk, bytes: &[u8]) -> Result<u64, Device> {
    let len = disk.len()?;
    if len > u64::from(u32::MAX) {
        return Err(Device);
    }
    disk.extend(len, bytes)
}

/// All that a disk holds.
fn held(rt: &impl Abort, alloc: Global, disk: &mut impl Disk) -> Result<Vec<u8>, Device> {
    let len = disk.len()?;
    let mut bytes = Vec::from_elem(alloc, 0, len as usize).expect(rt, "memory");
    disk.read(0, &mut bytes)?;
    Ok(bytes)
}

fn expect_held(rt: &impl Abort, alloc: Global, disk: &mut impl Disk, what: &str, want: &[u8]) {
    let bytes = held(rt, alloc, disk).expect(rt, "a disk that is read");
    expect_bytes(rt, what, &bytes, want);
}

/// A disk that is full takes the front of a text that there is room for, by its length, and then none; a write that has no room
/// fails, and is counted.
#[test]
fn a_file_that_is_full(rt: HostRuntime) {
    let mut disk = disk_over(&rt, rt.alloc(), 4, 0);
    assert!(&rt; extended(&mut disk, b"defghi") == Ok(7), "a front");
    expect_held(&rt, rt.alloc(), &mut disk, "with the front", b"abcdefg");
    assert!(&rt; extended(&mut disk, b"h") == Ok(7), "nothing");
    assert!(&rt; disk.failures() == 0, "no fault");
    assert!(&rt; disk.write_at(0, b"A") == Err(Device), "a write");
    assert!(&rt; disk.failures() == 1, "a fault");
    expect_held(&rt, rt.alloc(), &mut disk, "as before", b"abcdefg");
}

/// A sync that succeeds after one that has failed would promise nothing: the disk asks for none, and says that it failed.
#[test]
fn a_file_whose_sync_fails(rt: HostRuntime) {
    let mut disk = disk_over(&rt, rt.alloc(), 4, 1);
    assert!(&rt; disk.write_at(0, b"A") == Ok(()), "a write");
    assert!(&rt; disk.sync() == Err(Device), "the sync that fails");
    assert!(&rt;
        disk.sync() == Err(Device),
        "another one, of which the file would say Ok"
    );
    assert!(&rt; disk.failures() == 2, "two faults");
    expect_held(&rt, rt.alloc(), &mut disk, "what is read", b"Abc");
}

#[test]
fn a_file_that_syncs(rt: HostRuntime) {
    let mut disk = disk_over(&rt, rt.alloc(), 4, 0);
    assert!(&rt; disk.sync() == Ok(()), "a sync");
    assert!(&rt; disk.sync() == Ok(()), "another one");
    assert!(&rt; disk.failures() == 0, "no fault");
}
