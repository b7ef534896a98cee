//! The files that a descriptor has contexts serve, read at the start: below the descriptor's folder, and through no link.

use crate::served::ServedFiles;
use http_header::{HeaderValue, HeaderValueError};
use std::alloc::{AllocError, AllocFailed, Global};
use std::collections::BTreeSet;
use std::fs::FileType;
use std::io::ErrorKind;
use std::path::Path;
use std::{fmt, fs, io};
use sv_config::{Context, FileMapping, FileSource};
use sv_servlet::BODY_LIMIT;
use sv_web::{FileChoice, StaticFile};

/// The files of all mappings, at most.
const MAX_FILES: usize = 256;

/// The folders below the one of a mapping, and this one, at most.
const MAX_FOLDERS: usize = 64;

/// The bytes of all files, at most.
const MAX_BYTES: usize = 8_388_608;

/// Why a file or a folder can't be served.
#[derive(Clone, Copy, Debug, PartialEq, Eq)]
pub enum WhyNot {
    Unreadable,
    NoFile,
    NoFolder,
    Name,
    TooLong,
    TooMany,
    TooMuch,
}

impl fmt::Display for WhyNot {
    fn fmt<W: fmt::Write>(&self, f: &mut fmt::Formatter<W>) -> fmt::Result {
        f.write_str(match self {
            WhyNot::Unreadable => "it can't be read",
            WhyNot::NoFile => "it is no regular file; links aren't followed",
            WhyNot::NoFolder => "it is no folder; links aren't followed",
            WhyNot::Name => "its name has other characters than letters, digits and -._~",
            WhyNot::TooLong => "it has more than 262144 bytes",
            WhyNot::TooMany =>
                "with it there are more than 256 files, or more than 64 folders in one",
            WhyNot::TooMuch => "with it the files have more than 8388608 bytes",
        })
    }
}

/// A file or a folder that can't be served.
#[derive(Debug, Drop)]
pub struct NotServed {
    pub path: String,
    pub why: WhyNot,
}

impl fmt::Display for NotServed {
    fn fmt<W: fmt::Write>(&self, f: &mut fmt::Formatter<W>) -> fmt::Result {
        write!(f, "{}: {}", self.path, self.why)
    }
}

/// Why files aren't read.
#[derive(Debug, Drop)]
pub enum ReadFault {
    NotServed(NotServed),
    Memory,
}

impl From<AllocError> for ReadFault {
    fn from(_: AllocError) -> Self {
        ReadFault::Memory
    }
}

impl<T: Drop> From<AllocFailed<T>> for ReadFault {
    fn from(_: AllocFailed<T>) -> Self {
        ReadFault::Memory
    }
}

/// The fault that a path can't be served.
fn not_served(alloc: Global, path: &str, why: WhyNot) -> ReadFault {
    match String::from_str(alloc, path) {
        Ok(path) => ReadFault::NotServed(NotServed { path, why }),
        Err(_) => ReadFault::Memory,
    }
}

/// The fault of a path that the system refuses.
fn refused(alloc: Global, path: &str, error: &io::Error) -> ReadFault {
    match error.kind() {
        ErrorKind::OutOfMemory => ReadFault::Memory,
        _ => not_served(alloc, path, WhyNot::Unreadable),
    }
}

/// Two paths, the second within the first.
fn joined(alloc: Global, folder: &str, name: &str) -> Result<String, AllocError> {
    if folder.is_empty() {
        return String::from_str(alloc, name);
    }
    format!(in alloc; "{folder}/{name}")
}

/// What stands at a path; a link is a link.
fn type_at(rt: &HostRuntime, path: &str) -> Result<FileType, ReadFault> {
    match fs::symlink_metadata(rt, path) {
        Ok(found) => Ok(found.file_type()),
        Err(error) => Err(refused(rt.alloc(), path, &error)),
    }
}

/// Refuses a path within a folder that leads through anything but folders.
fn refuse_links(rt: &HostRuntime, folder: &str, path: &str) -> Result<(), ReadFault> {
    for (at, _) in path.match_indices('/') {
        let before = joined(rt.alloc(), folder, path.get(..at).unwrap_or(path))?;
        if !type_at(rt, before.as_str())?.is_dir() {
            return Err(not_served(rt.alloc(), before.as_str(), WhyNot::NoFolder));
        }
    }
    Ok(())
}

/// Letters, digits and `-._~`.
fn is_name(name: &str) -> bool {
    name.bytes().all(|byte| byte.is_ascii_alphanumeric()
        || matches!(byte, b'-' | b'.' | b'_' | b'~'))
}

/// What is below a folder: the regular files, and the folders that have not been looked into.
#[derive(Drop)]
struct Found {
    files: BTreeSet<String>,
    folders: Vec<String>,
}

/// Adds what stands at a path below a folder.
fn add_entry(
    rt: &HostRuntime,
    found: &mut Found,
    top: &str,
    name: String,
) -> Result<(), ReadFault> {
    let path = joined(rt.alloc(), top, name.as_str())?;
    let kind = type_at(rt, path.as_str())?;
    if kind.is_dir() {
        found.folders.push(name)?;
    } else if kind.is_file() {
        found.files.insert(name)?;
    } else {
        return Err(not_served(rt.alloc(), path.as_str(), WhyNot::NoFile));
    }
    Ok(())
}

/// Adds what is in a folder below another one, but for what is hidden: a name that begins with a dot.
fn look_into(rt: &HostRuntime, found: &mut Found, top: &str, inner: &str) -> Result<(), ReadFault> {
    let path = joined(rt.alloc(), top, inner)?;
    let path = path.as_str().trim_end_matches('/');
    let entries = match fs::read_dir(rt, path) {
        Ok(entries) => entries,
        Err(error) => return Err(refused(rt.alloc(), path, &error)),
    };
    for entry in entries {
        let entry = match entry {
            Ok(entry) => entry,
            Err(error) => return Err(refused(rt.alloc(), path, &error)),
        };
        let name = entry.file_name();
        if name.starts_with('.') {
            continue;
        }
        if !is_name(name) {
            return Err(not_served(rt.alloc(), entry.path().as_str(), WhyNot::Name));
        }
        add_entry(rt, found, top, joined(rt.alloc(), inner, name)?)?;
    }
    Ok(())
}

/// The names of the files below a folder, each with the folders in which it is.
fn names_below(rt: &HostRuntime, top: &str) -> Result<BTreeSet<String>, ReadFault> {
    let mut found = Found {
        files: BTreeSet::new(rt.alloc()),
        folders: vec![in rt.alloc(); String::new(rt.alloc())]?,
    };
    for at in 0..MAX_FOLDERS {
        let Some(inner) = found.folders.get(at) else {
            return Ok(found.files);
        };
        let inner = String::from_str(rt.alloc(), inner.as_str())?;
        look_into(rt, &mut found, top, inner.as_str())?;
    }
    if found.folders.len() > MAX_FOLDERS {
        return Err(not_served(rt.alloc(), top, WhyNot::TooMany));
    }
    Ok(found.files)
}

/// Reads files, of which there may be so many, and so many bytes.
#[derive(Drop)]
struct Reader<'a> {
    rt: &'a HostRuntime,
    /// The folder of the descriptor.
    folder: &'a str,
    files: usize,
    bytes: usize,
}

impl Reader<'_> {
    /// Refuses a file that is too long, or is one too many.
    fn count(&mut self, path: &str, len: usize) -> Result<(), ReadFault> {
        let why = if len > BODY_LIMIT {
            WhyNot::TooLong
        } else if self.files == 0 {
            WhyNot::TooMany
        } else if len > self.bytes {
            WhyNot::TooMuch
        } else {
            self.files = self.files.saturating_sub(1);
            self.bytes = self.bytes.saturating_sub(len);
            return Ok(());
        };
        Err(not_served(self.rt.alloc(), path, why))
    }

    /// The file at a path, by a name.
    fn file(&mut self, path: &str, name: &str) -> Result<StaticFile, ReadFault> {
        let alloc = self.rt.alloc();
        let found = match fs::symlink_metadata(self.rt, path) {
            Ok(found) => found,
            Err(error) => return Err(refused(alloc, path, &error)),
        };
        if !found.is_file() {
            return Err(not_served(alloc, path, WhyNot::NoFile));
        }
        if found.len() > BODY_LIMIT as u64 {
            return Err(not_served(alloc, path, WhyNot::TooLong));
        }
        let bytes = match fs::read(self.rt, path) {
            Ok(bytes) => bytes,
            Err(error) => return Err(refused(alloc, path, &error)),
        };
        self.count(path, bytes.len())?;
        Ok(StaticFile::new(alloc, String::from_str(alloc, name)?, bytes)?)
    }

    /// The files below a folder, in the order of their names.
    fn folder(&mut self, path: &str) -> Result<Vec<StaticFile>, ReadFault> {
        let alloc = self.rt.alloc();
        if !type_at(self.rt, path)?.is_dir() {
            return Err(not_served(alloc, path, WhyNot::NoFolder));
        }
        let names = names_below(self.rt, path)?;
        let mut files = Vec::new(alloc);
        for name in names.iter() {
            let at = joined(alloc, path, name.as_str())?;
            files.push(self.file(at.as_str(), name.as_str())?)?;
        }
        Ok(files)
    }

    /// The files of a source, and which of them is chosen.
    fn source(&mut self, source: &FileSource) -> Result<(FileChoice, Vec<StaticFile>), ReadFault> {
        let alloc = self.rt.alloc();
        let (FileSource::File(path) | FileSource::Folder(path)) = source;
        refuse_links(self.rt, self.folder, path.as_str())?;
        let at = joined(alloc, self.folder, path.as_str())?;
        match source {
            FileSource::File(_) => {
                let file = self.file(at.as_str(), path.as_str())?;
                Ok((FileChoice::First, vec![in alloc; file]?))
            }
            FileSource::Folder(_) => Ok((FileChoice::ByPathInfo, self.folder(at.as_str())?)),
        }
    }

    /// What a mapping of the context of a number serves.
    fn mapping(&mut self, context: usize, mapping: &FileMapping) -> Result<ServedFiles, ReadFault> {
        let alloc = self.rt.alloc();
        let (choice, files) = self.source(&mapping.source)?;
        Ok(ServedFiles {
            context,
            path: String::from_str(alloc, mapping.path.as_str())?,
            choice,
            files,
            cache: cache_of(alloc, mapping)?,
        })
    }
}

/// The value of Cache-Control that a mapping gives.
fn cache_of(alloc: Global, mapping: &FileMapping) -> Result<Option<HeaderValue>, AllocError> {
    let Some(cache) = &mapping.cache else {
        return Ok(None);
    };
    match HeaderValue::from_str(alloc, cache.as_str()) {
        Ok(value) => Ok(Some(value)),
        Err(HeaderValueError::Invalid) => Ok(None),
        Err(HeaderValueError::OutOfMemory) => Err(AllocError),
    }
}

/// The folder of a descriptor; that of the process where its path has none.
fn folder_of(config: &str) -> &str {
    match Path::new(config).parent() {
        Some(folder) => folder.as_str(),
        None => "",
    }
}

/// The files that contexts serve, read below the folder of the descriptor at a path. Of the files that can't be served the first is told.
pub fn read_served(
    rt: &HostRuntime,
    config: &str,
    contexts: &[Context],
) -> Result<Vec<ServedFiles>, ReadFault> {
    let mut reader = Reader {
        rt,
        folder: folder_of(config),
        files: MAX_FILES,
        bytes: MAX_BYTES,
    };
    let mut served = Vec::new(rt.alloc());
    for (number, context) in contexts.iter().enumerate() {
        for mapping in &context.files {
            served.push(reader.mapping(number, mapping)?)?;
        }
    }
    Ok(served)
}
