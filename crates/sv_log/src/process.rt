//! What a process holds of its machine, as Linux tells it (proc(5)).

use std::fs::{self, File, Files};

/// What a process holds of its machine: each of them none where the system doesn't tell it.
#[derive(Clone, Copy, Default)]
pub struct Process {
    /// Bytes of its memory that are in the machine's.
    pub resident: Option<u64>,
    /// Files that it has open, its connections among them.
    pub open_files: Option<u64>,
    /// So many it may have open.
    pub file_limit: Option<u64>,
}

/// The first number of a line, after the words with which the line begins.
fn number_behind(text: &str, words: &str) -> Option<u64> {
    let rest = text.lines().find_map(|line| line.strip_prefix(words))?;
    rest.split_whitespace().next()?.parse().ok()
}

/// A number of a file: that after the words with which a line begins.
fn number_in<R: Files<File = File> + Alloc>(machine: &R, path: &str, words: &str) -> Option<u64> {
    let text = fs::read_to_string(machine, path).ok()?;
    number_behind(text.as_str(), words)
}

/// How many files this process has open, but for the one by which that is looked up.
fn open_files<R: Files<File = File> + Alloc + Clone + Drop>(machine: &R) -> Option<u64> {
    let mut count: u64 = 0;
    for entry in fs::read_dir(machine, "/proc/self/fd").ok()? {
        if entry.is_err() {
            return None;
        }
        count = count.saturating_add(1);
    }
    count.checked_sub(1)
}

impl Process {
    /// This one, now.
    pub fn now<R: Files<File = File> + Alloc + Clone + Drop>(machine: &R) -> Process {
        Process {
            resident: number_in(machine, "/proc/self/status", "VmRSS:").and_then(
                |kilobytes| kilobytes.checked_mul(1024),
            ),
            open_files: open_files(machine),
            file_limit: number_in(machine, "/proc/self/limits", "Max open files"),
        }
    }
}
