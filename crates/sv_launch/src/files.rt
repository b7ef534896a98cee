//! The files that a node is started with. One that it writes by an option is nobody else's.

ghost use Rattle.std.specs.Prelude.{◌≡◌};
ghost use Rattle.sv_launch.specs.Files.{is_one_inode, is_one_file};

use crate::fault::Fault;
use crate::words::NodeWords;
use std::os::unix::fs::MetadataExt;
use std::path::Path;
use std::{fmt, fs};
use sv_log::STANDARD_ERROR;

/// What an option has written.
#[derive(Clone, Copy, Debug, PartialEq, Eq)]
pub enum Written {
    Log,
    Metrics,
    /// The figures, before they are given their name.
    NewMetrics,
}

impl fmt::Display for Written {
    fn fmt<W: fmt::Write>(&self, f: &mut fmt::Formatter<W>) -> fmt::Result {
        f.write_str(match self {
            Written::Log => "--log",
            Written::Metrics => "--metrics",
            Written::NewMetrics => "--metrics, with .new after its name,",
        })
    }
}

/// Whose a file is.
#[derive(Clone, Copy, Debug, PartialEq, Eq)]
pub enum Owner {
    Config,
    Journal,
    OtherJournal,
    Secrets,
    Log,
}

impl fmt::Display for Owner {
    fn fmt<W: fmt::Write>(&self, f: &mut fmt::Formatter<W>) -> fmt::Result {
        f.write_str(match self {
            Owner::Config => "the descriptor",
            Owner::Journal => "the journal",
            Owner::OtherJournal => "the journal's second file",
            Owner::Secrets => "the file of secrets",
            Owner::Log => "the log",
        })
    }
}

/// What an option has written is a file of something else.
#[derive(Clone, Copy, Debug, PartialEq, Eq)]
pub struct Clash {
    pub written: Written,
    pub owner: Owner,
}

impl Clash {
    /// The path that the option gives.
    pub fn path_in<'a>(self, node: &NodeWords<'a>) -> &'a str {
        let path = match self.written {
            Written::Log => node.options.log,
            Written::Metrics | Written::NewMetrics => node.options.metrics,
        };
        path.unwrap_or("")
    }
}

impl fmt::Display for Clash {
    fn fmt<W: fmt::Write>(&self, f: &mut fmt::Formatter<W>) -> fmt::Result {
        write!(f, "{} is {}", self.written, self.owner)
    }
}

/// A file by its file system and its number there (stat(2)).
#[derive(Clone, Copy, Debug)]
pub struct Inode {
    pub device: u64,
    pub number: u64,
}

/// Where a path leads: to a file, or to a name in a folder at which no file is yet.
#[derive(Clone, Copy, Debug)]
pub struct Target<'a> {
    pub file: Option<Inode>,
    pub folder: Option<Inode>,
    pub name: &'a str,
}

/// Whether both inodes are there and the same.
fn is_one_inode(one: Option<Inode>, other: Option<Inode>) -> bool
    ensures { result ≡ is_one_inode one other }
{
    match (one, other) {
        (Some(one), Some(other)) => one.device == other.device && one.number == other.number,
        _ => false,
    }
}

/// Whether two paths lead to one file: to the same inode; or to none, and to the same name in the same folder.
fn is_one_file(one: &Target<'_>, other: &Target<'_>) -> bool
    ensures { result ≡ is_one_file one.now other.now }
{
    match (one.file, other.file) {
        (None, None) => is_one_inode(one.folder, other.folder) && one.name == other.name,
        (file, beside) => is_one_inode(file, beside),
    }
}

/// The inode to which a path leads, through links.
fn inode_of(machine: &HostRuntime, path: &str) -> Option<Inode> {
    let found = fs::metadata(machine, path).ok()?;
    Some(Inode {
        device: found.dev(),
        number: found.ino(),
    })
}

/// The folder of a path, that of the process where the path has none.
fn folder_of(path: &str) -> &str {
    match Path::new(path).parent() {
        Some(folder) if !folder.as_str().is_empty() => folder.as_str(),
        _ => ".",
    }
}

/// Where a path leads.
fn target_of<'a>(machine: &HostRuntime, path: &'a str) -> Target<'a> {
    Target {
        file: inode_of(machine, path),
        folder: inode_of(machine, folder_of(path)),
        name: path.rsplit('/').next().unwrap_or(path),
    }
}

/// A file that is somebody's.
#[derive(Clone, Copy, Debug)]
struct Owned<'a> {
    owner: Owner,
    target: Target<'a>,
}

impl<'a> Owned<'a> {
    fn new(machine: &HostRuntime, owner: Owner, path: &'a str) -> Owned<'a> {
        Owned {
            owner,
            target: target_of(machine, path),
        }
    }
}

/// Refuses a path that an option has written, if it leads to a file that is somebody's.
fn refuse_owned(
    machine: &HostRuntime,
    written: Written,
    path: &str,
    owned: &[Owned<'_>],
) -> Result<(), Fault> {
    let target = target_of(machine, path);
    match owned
        .iter()
        .find(|other| is_one_file(&target, &other.target))
    {
        Some(other) => Err(Fault::SameFile(Clash {
            written,
            owner: other.owner,
        })),
        None => Ok(()),
    }
}

/// Refuses figures that would be written to a file that is somebody's, by their own name or by that which they have before.
fn refuse_metrics(machine: &HostRuntime, path: &str, owned: &[Owned<'_>]) -> Result<(), Fault> {
    let new = format!(in machine.alloc(); "{path}.new")?;
    refuse_owned(machine, Written::Metrics, path, owned)?;
    refuse_owned(machine, Written::NewMetrics, new.as_str(), owned)
}

/// Refuses options that would have a node write to its descriptor, its journal, its file of secrets, or its figures to its log. It
/// looks at what is there, and opens and makes nothing.
pub fn refuse_shared(
    machine: &HostRuntime,
    node: &NodeWords<'_>,
    secrets: Option<&str>,
) -> Result<(), Fault> {
    let beside = format!(in machine.alloc(); "{}.b", node.journal)?;
    let mut owned = Vec::new(machine.alloc());
    owned.push(Owned::new(machine, Owner::Config, node.config))?;
    owned.push(Owned::new(machine, Owner::Journal, node.journal))?;
    owned.push(Owned::new(machine, Owner::OtherJournal, beside.as_str()))?;
    if let Some(path) = secrets {
        owned.push(Owned::new(machine, Owner::Secrets, path))?;
    }
    if let Some(path) = node.options.log
        && path != STANDARD_ERROR
    {
        refuse_owned(machine, Written::Log, path, owned.as_slice())?;
        owned.push(Owned::new(machine, Owner::Log, path))?;
    }
    match node.options.metrics {
        Some(path) => refuse_metrics(machine, path, owned.as_slice()),
        None => Ok(()),
    }
}
