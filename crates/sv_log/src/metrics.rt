//! A file of figures, written anew every few seconds.

use crate::figures::{Figures, Gauges};
use std::alloc::{AllocError, Global};
use std::fs::{self, File, Files, OpenOptions, Permissions};
use std::io::{self, ErrorKind, Write};
use std::os::unix::fs::PermissionsExt;

/// In seconds: so often the file is written anew.
const PERIOD: u64 = 5;

/// Who may read the file, whatever the process's mask: everybody, as it is read by another user's program.
const MODE: u32 = 0o644;

/// A file of figures. It is written under a name that ends in `.new`, and then given its own, so that nobody reads half of one. Only a
/// regular file, or none, gives way to it.
#[derive(Drop)]
pub struct Metrics {
    path: String,
    beside: String,
    node: u8,
    pub figures: Figures,
    /// The second in which it was last written, since 1970.
    written: u64,
    alloc: Global,
}

/// Whether figures may take the place of what is at a path: a regular file itself, and no link to one, or nothing.
pub fn can_be_figures<R: Files<File = File>>(files: &R, path: &str) -> io::Result<()> {
    match fs::symlink_metadata(files, path) {
        Ok(found) if found.is_file() => Ok(()),
        Ok(_) => Err(io::Error::from(ErrorKind::InvalidInput)),
        Err(fault) if fault.kind() == ErrorKind::NotFound => Ok(()),
        Err(fault) => Err(fault),
    }
}

/// Takes away what a process left at a path that was stopped while it wrote there.
fn clear<R: Files<File = File>>(files: &R, path: &str) -> io::Result<()> {
    can_be_figures(files, path)?;
    match fs::remove_file(files, path) {
        Err(fault) if fault.kind() != ErrorKind::NotFound => Err(fault),
        _ => Ok(()),
    }
}

/// Writes a whole file, which is made for it and was none before.
fn write_file<R: Files<File = File>>(files: &R, path: &str, text: &str) -> io::Result<()> {
    let mut file = OpenOptions::new()
        .write(true)
        .create_new(true)
        .open(files, path)?;
    file.set_permissions(Permissions::from_mode(MODE))?;
    file.write_all(text.as_bytes())
}

impl Metrics {
    /// Figures of a node, which are to be written to a file at a path.
    pub fn new(alloc: Global, path: &str, node: u8) -> Result<Metrics, AllocError> {
        Ok(Metrics {
            path: String::from_str(alloc, path)?,
            beside: format!(in alloc; "{path}.new")?,
            node,
            figures: Figures::default(),
            written: 0,
            alloc,
        })
    }

    /// Whether it is time to write them.
    pub fn is_due(&self, now: u64) -> bool {
        // The clock may have been set back.
        now >= self.written.saturating_add(PERIOD) || now < self.written
    }

    /// The text of the figures.
    fn text(&self, gauges: Gauges) -> Result<String, AllocError> {
        let mut text = String::new(self.alloc);
        self.figures.write(&mut text, self.node, gauges)?;
        Ok(text)
    }

    /// Writes them, and what there is at the node at this moment.
    pub fn write<R: Files<File = File>>(&mut self, files: &R, gauges: Gauges) -> io::Result<()> {
        self.written = gauges.now;
        let Ok(text) = self.text(gauges) else {
            return Err(io::Error::from(ErrorKind::OutOfMemory));
        };
        self.write_text(files, text.as_str())
    }

    /// Writes the file beside, and gives it its name. Where that can't be, nothing is left beside.
    fn write_text<R: Files<File = File>>(&self, files: &R, text: &str) -> io::Result<()> {
        can_be_figures(files, self.path.as_str())?;
        clear(files, self.beside.as_str())?;
        write_file(files, self.beside.as_str(), text)?;
        let renamed = fs::rename(files, self.beside.as_str(), self.path.as_str());
        if renamed.is_err() {
            let _ = fs::remove_file(files, self.beside.as_str());
        }
        renamed
    }
}
