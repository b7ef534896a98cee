//! A crash-safe log on two disks: an entry is there or not there, whatever a stop leaves.
//!
//! This is the floor below the node. Its contracts cite `specs/Disk.antt` (what a stop may leave of a disk
//! between two syncs) and `specs/Format.antt` (which bytes stand for which entries), and speak of every moment of a
//! call. A disk tells what its bytes are or tells nothing, and a contract claims something only of disks that tell:
//! `MemoryDisk` does, and `OnFile` over a `RawFile` that does, which the system's file doesn't.
//!
//! The entries are kept on one of the two disks. A compaction writes those that are still needed to the other one,
//! with the next generation, and the disk of the greater generation is the one that is read.
#![tactic(auto)]

mod ahead;
mod batch;
mod commit;
mod current;
mod disk;
mod entries;
mod file_disk;
mod head;
mod journal;
mod journal_fault;
pub mod laws;
mod limits;
mod memory_disk;
mod not_opened;
mod opening;
mod raw_file;
mod reading;
mod replacing;
mod shut;
mod snapshot;
mod standing;
mod walk;

pub use batch::Batch;
pub use disk::{Device, Disk};
pub use file_disk::{FileDisk, FileFault, IfMissing, OnFile};
pub use journal::Journal;
pub use journal_fault::JournalFault;
pub use limits::{FILE_LIMIT, PAYLOAD_LIMIT};
pub use memory_disk::{DiskCall, MemoryDisk};
pub use not_opened::NotOpened;
pub use raw_file::RawFile;
